//! The names that stand as atoms in blocks and in the forms that end with `end`.
ghost use Rattle.std.specs.Prelude.{◌≡◌, ◌++◌, OnOk, map, option_map};
ghost use Rattle.fort_tree_atoms.specs.Gathered.{all_atoms, maybe_atoms};
ghost use Rattle.fort_tree_atoms.specs.AtomsOf.{atoms_of_delimited, atoms_of_item, atoms_of_also, atoms_of_block_item, atoms_of_case_clause, atoms_of_catch, atoms_of_elif, atoms_of_else_block, atoms_of_else_clause, atoms_of_finally, atoms_of_next_generator, atoms_of_type_clause};

use crate::exprs::{add_expr, add_flat, add_generator};
use fort_base::{Boxed, List, Memory};
use fort_tree::{
    Also, BlockItem, CaseClause, Catch, Delimited, Elif, ElseBlock, ElseClause, Finally, Item,
    Name, NextGenerator, TypeClause,
};

/// Walks over a form that ends with `end`.
#[cycle(tree)]
pub fn add_form(form: &Delimited, names: &mut List<Name>) -> Result<(), Memory>
    ensures { OnOk result (names.new ≡ names.old ++ atoms_of_delimited form.now) }
{
    match form {
        Delimited::Do { block, others, .. } => {
            add_block(block.as_slice(), names)?;
            add_alsos(others.as_slice(), names)?;
        }
        Delimited::If {
            condition,
            block,
            elifs,
            otherwise,
            ..
        } => {
            add_flat(condition, names)?;
            add_block(block.as_slice(), names)?;
            add_elifs(elifs.as_slice(), names)?;
            add_else_block(otherwise, names)?;
        }
        Delimited::While {
            condition,
            block,
            ..
        } => {
            add_flat(condition, names)?;
            add_block(block.as_slice(), names)?;
        }
        Delimited::For {
            generator,
            others,
            block,
            ..
        } => {
            add_generator(generator.get(), names)?;
            add_next_generators(others.as_slice(), names)?;
            add_block(block.as_slice(), names)?;
        }
        Delimited::Case {
            subject,
            clauses,
            otherwise,
            ..
        } => {
            add_flat(subject, names)?;
            add_case_clauses(clauses.as_slice(), names)?;
            add_else_clause(otherwise, names)?;
        }
        Delimited::Typecase {
            subject,
            clauses,
            otherwise,
            ..
        } => {
            add_flat(subject, names)?;
            add_type_clauses(clauses.as_slice(), names)?;
            add_else_clause(otherwise, names)?;
        }
        Delimited::Try {
            block,
            catch,
            finally,
            ..
        } => {
            add_block(block.as_slice(), names)?;
            add_catch(catch, names)?;
            add_finally(finally, names)?;
        }
    }
    Ok(())
}

#[cycle(tree)]
fn add_block(block: &[BlockItem], names: &mut List<Name>) -> Result<(), Memory>
    ensures { OnOk result (names.new
        ≡ names.old ++ all_atoms (map atoms_of_block_item block.now)) }
{
    for entry in block {
        add_item(&entry.item, names)?;
    }
    Ok(())
}

#[cycle(tree)]
fn add_item(item: &Item, names: &mut List<Name>) -> Result<(), Memory>
    ensures { OnOk result (names.new ≡ names.old ++ atoms_of_item item.now) }
{
    match item {
        Item::Variable(variable) => add_expr(&variable.get().value, names)?,
        Item::Names { value, .. } => add_expr(value.get(), names)?,
        Item::Expr(expr) => add_expr(expr, names)?,
    }
    Ok(())
}

#[cycle(tree)]
fn add_alsos(others: &[Also], names: &mut List<Name>) -> Result<(), Memory>
    ensures { OnOk result (names.new ≡ names.old ++ all_atoms (map atoms_of_also others.now)) }
{
    for also in others {
        add_block(also.block.as_slice(), names)?;
    }
    Ok(())
}

#[cycle(tree)]
fn add_elifs(elifs: &[Elif], names: &mut List<Name>) -> Result<(), Memory>
    ensures { OnOk result (names.new ≡ names.old ++ all_atoms (map atoms_of_elif elifs.now)) }
{
    for elif in elifs {
        add_flat(&elif.condition, names)?;
        add_block(elif.block.as_slice(), names)?;
    }
    Ok(())
}

#[cycle(tree)]
fn add_else_block(otherwise: &Option<ElseBlock>, names: &mut List<Name>) -> Result<(), Memory>
    ensures { OnOk result (names.new
        ≡ names.old ++ maybe_atoms (option_map atoms_of_else_block otherwise.now)) }
{
    if let Some(otherwise) = otherwise {
        add_block(otherwise.block.as_slice(), names)?;
    }
    Ok(())
}

#[cycle(tree)]
fn add_next_generators(others: &[NextGenerator], names: &mut List<Name>) -> Result<(), Memory>
    ensures { OnOk result (names.new
        ≡ names.old ++ all_atoms (map atoms_of_next_generator others.now)) }
{
    for next in others {
        add_generator(&next.generator, names)?;
    }
    Ok(())
}

#[cycle(tree)]
fn add_case_clauses(clauses: &[CaseClause], names: &mut List<Name>) -> Result<(), Memory>
    ensures { OnOk result (names.new
        ≡ names.old ++ all_atoms (map atoms_of_case_clause clauses.now)) }
{
    for clause in clauses {
        add_flat(&clause.subject, names)?;
        add_expr(&clause.value, names)?;
    }
    Ok(())
}

#[cycle(tree)]
fn add_type_clauses(clauses: &[TypeClause], names: &mut List<Name>) -> Result<(), Memory>
    ensures { OnOk result (names.new
        ≡ names.old ++ all_atoms (map atoms_of_type_clause clauses.now)) }
{
    for clause in clauses {
        add_expr(&clause.value, names)?;
    }
    Ok(())
}

#[cycle(tree)]
fn add_else_clause(
    otherwise: &Option<Boxed<ElseClause>>,
    names: &mut List<Name>,
) -> Result<(), Memory>
    ensures { OnOk result (names.new
        ≡ names.old ++ maybe_atoms (option_map atoms_of_else_clause otherwise.now)) }
{
    if let Some(otherwise) = otherwise {
        add_expr(&otherwise.get().value, names)?;
    }
    Ok(())
}

#[cycle(tree)]
fn add_catch(catch: &Option<Catch>, names: &mut List<Name>) -> Result<(), Memory>
    ensures { OnOk result (names.new
        ≡ names.old ++ maybe_atoms (option_map atoms_of_catch catch.now)) }
{
    if let Some(catch) = catch {
        add_type_clauses(catch.clauses.as_slice(), names)?;
    }
    Ok(())
}

#[cycle(tree)]
fn add_finally(finally: &Option<Finally>, names: &mut List<Name>) -> Result<(), Memory>
    ensures { OnOk result (names.new
        ≡ names.old ++ maybe_atoms (option_map atoms_of_finally finally.now)) }
{
    if let Some(finally) = finally {
        add_block(finally.block.as_slice(), names)?;
    }
    Ok(())
}
