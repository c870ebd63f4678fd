//! The tasks that see what stands in blocks and in the forms that end with `end`.
ghost use Rattle.std.specs.Prelude.{◌≡◌, ◌∷◌, [], map, OnOk};
ghost use Rattle.std.specs.List.{flat_map};
ghost use Rattle.fort_tree.specs.declared.delimited.Delimited.{out-Delimited};
ghost use Rattle.fort_form_meaning.specs.Source.{Source};
ghost use Rattle.fort_form_meaning.specs.Formed.{formed_also};
ghost use Rattle.fort_form_tasks.specs.Tasks.{Sees, delimited_at, inside_case_clause, inside_catch, inside_elif, inside_else_block, inside_else_clause, inside_finally, item_value, type_clause_value};

use crate::expressions::{see_source, see_sources};
use crate::further::see;
use crate::task::{Part, Task};
use fort_base::{Boxed, Memory};
use fort_base_stack::Stack;
use fort_tree::{
    Also, BlockItem, CaseClause, Catch, Delimited, Elif, ElseBlock, ElseClause, Finally, Item,
    TypeClause,
};

/// What stands in a form that ends with `end`.
pub fn see_in_form<'a>(form: &'a Delimited, tasks: &mut Stack<Task<'a>>) -> Result<(), Memory>
    ensures { OnOk result ((k : Source)
        → Sees k (delimited_at k (out-Delimited form.now)) tasks.old tasks.new) }
{
    match form {
        Delimited::Do {
            do_,
            block,
            others,
            ..
        } => {
            see(Part::Block(*do_, block.as_slice()), tasks)?;
            see_alsos(others.as_slice(), tasks)?;
        }
        Delimited::If {
            condition,
            then,
            block,
            elifs,
            otherwise,
            ..
        } => {
            see(Part::Flat(condition), tasks)?;
            see(Part::Block(*then, block.as_slice()), tasks)?;
            see_in_elifs(elifs.as_slice(), tasks)?;
            see_else_block(otherwise, tasks)?;
        }
        Delimited::While {
            condition,
            do_,
            block,
            ..
        } => {
            see(Part::Flat(condition), tasks)?;
            see(Part::Block(*do_, block.as_slice()), tasks)?;
        }
        Delimited::For {
            generator,
            others,
            do_,
            block,
            ..
        } => {
            see_source(generator.get(), tasks)?;
            see_sources(others.as_slice(), tasks)?;
            see(Part::Block(*do_, block.as_slice()), tasks)?;
        }
        Delimited::Case {
            subject,
            clauses,
            otherwise,
            ..
        } => {
            see(Part::Flat(subject), tasks)?;
            see_in_case_clauses(clauses.as_slice(), tasks)?;
            see_else_clause(otherwise, tasks)?;
        }
        Delimited::Typecase {
            subject,
            clauses,
            otherwise,
            ..
        } => {
            see(Part::Flat(subject), tasks)?;
            see_type_clauses(clauses.as_slice(), tasks)?;
            see_else_clause(otherwise, tasks)?;
        }
        Delimited::Try {
            try_,
            block,
            catch,
            finally,
            ..
        } => {
            see(Part::Block(*try_, block.as_slice()), tasks)?;
            see_in_catch(catch, tasks)?;
            see_finally(finally, tasks)?;
        }
    }
    Ok(())
}

/// The expression of each item of a block.
pub fn see_items<'a>(items: &'a [BlockItem], tasks: &mut Stack<Task<'a>>) -> Result<(), Memory>
    ensures { OnOk result ((k : Source)
        → Sees k (map (item_value k) items.now) tasks.old tasks.new) }
{
    for entry in items {
        see_item(entry, tasks)?;
    }
    Ok(())
}

/// The expression of an item of a block.
fn see_item<'a>(entry: &'a BlockItem, tasks: &mut Stack<Task<'a>>) -> Result<(), Memory>
    ensures { OnOk result ((k : Source)
        → Sees k (item_value k entry.now ∷ []) tasks.old tasks.new) }
{
    match &entry.item {
        Item::Variable(variable) => see(Part::Expr(&variable.get().value), tasks)?,
        Item::Names { value, .. } => see(Part::Expr(value.get()), tasks)?,
        Item::Expr(expr) => see(Part::Expr(expr), tasks)?,
    }
    Ok(())
}

/// The further blocks of a `do`.
fn see_alsos<'a>(others: &'a [Also], tasks: &mut Stack<Task<'a>>) -> Result<(), Memory>
    ensures { OnOk result ((k : Source)
        → Sees k (map (formed_also k) others.now) tasks.old tasks.new) }
{
    for also in others {
        see(Part::Block(also.do_, also.block.as_slice()), tasks)?;
    }
    Ok(())
}

/// The condition and the block of each `elif`.
fn see_in_elifs<'a>(elifs: &'a [Elif], tasks: &mut Stack<Task<'a>>) -> Result<(), Memory>
    ensures { OnOk result ((k : Source)
        → Sees k (flat_map (inside_elif k) elifs.now) tasks.old tasks.new) }
{
    for elif in elifs {
        see_in_elif(elif, tasks)?;
    }
    Ok(())
}

/// The condition and the block of an `elif`.
fn see_in_elif<'a>(elif: &'a Elif, tasks: &mut Stack<Task<'a>>) -> Result<(), Memory>
    ensures { OnOk result ((k : Source) → Sees k (inside_elif k elif.now) tasks.old tasks.new) }
{
    see(Part::Flat(&elif.condition), tasks)?;
    see(Part::Block(elif.then, elif.block.as_slice()), tasks)?;
    Ok(())
}

/// The block of an `else` that may be left out.
fn see_else_block<'a>(
    otherwise: &'a Option<ElseBlock>,
    tasks: &mut Stack<Task<'a>>,
) -> Result<(), Memory>
    ensures { OnOk result ((k : Source)
        → Sees k (inside_else_block k otherwise.now) tasks.old tasks.new) }
{
    if let Some(otherwise) = otherwise {
        see(
            Part::Block(otherwise.else_, otherwise.block.as_slice()),
            tasks,
        )?;
    }
    Ok(())
}

/// What each clause of a `case` compares with, and what it gives.
fn see_in_case_clauses<'a>(
    clauses: &'a [CaseClause],
    tasks: &mut Stack<Task<'a>>,
) -> Result<(), Memory>
    ensures { OnOk result ((k : Source)
        → Sees k (flat_map (inside_case_clause k) clauses.now) tasks.old tasks.new) }
{
    for clause in clauses {
        see_in_case_clause(clause, tasks)?;
    }
    Ok(())
}

/// What a clause of a `case` compares with, and what it gives.
fn see_in_case_clause<'a>(clause: &'a CaseClause, tasks: &mut Stack<Task<'a>>) -> Result<(), Memory>
    ensures { OnOk result ((k : Source)
        → Sees k (inside_case_clause k clause.now) tasks.old tasks.new) }
{
    see(Part::Flat(&clause.subject), tasks)?;
    see(Part::Expr(&clause.value), tasks)?;
    Ok(())
}

/// What each clause of a `typecase` or a `catch` gives.
fn see_type_clauses<'a>(
    clauses: &'a [TypeClause],
    tasks: &mut Stack<Task<'a>>,
) -> Result<(), Memory>
    ensures { OnOk result ((k : Source)
        → Sees k (map (type_clause_value k) clauses.now) tasks.old tasks.new) }
{
    for clause in clauses {
        see(Part::Expr(&clause.value), tasks)?;
    }
    Ok(())
}

/// What an `else` that may be left out gives.
fn see_else_clause<'a>(
    otherwise: &'a Option<Boxed<ElseClause>>,
    tasks: &mut Stack<Task<'a>>,
) -> Result<(), Memory>
    ensures { OnOk result ((k : Source)
        → Sees k (inside_else_clause k otherwise.now) tasks.old tasks.new) }
{
    if let Some(otherwise) = otherwise {
        see(Part::Expr(&otherwise.get().value), tasks)?;
    }
    Ok(())
}

/// What each clause of a `catch` that may be left out gives.
fn see_in_catch<'a>(catch: &'a Option<Catch>, tasks: &mut Stack<Task<'a>>) -> Result<(), Memory>
    ensures { OnOk result ((k : Source) → Sees k (inside_catch k catch.now) tasks.old tasks.new) }
{
    if let Some(catch) = catch {
        see_type_clauses(catch.clauses.as_slice(), tasks)?;
    }
    Ok(())
}

/// The block of a `finally` that may be left out.
fn see_finally<'a>(finally: &'a Option<Finally>, tasks: &mut Stack<Task<'a>>) -> Result<(), Memory>
    ensures { OnOk result ((k : Source)
        → Sees k (inside_finally k finally.now) tasks.old tasks.new) }
{
    if let Some(finally) = finally {
        see(
            Part::Block(finally.finally, finally.block.as_slice()),
            tasks,
        )?;
    }
    Ok(())
}
