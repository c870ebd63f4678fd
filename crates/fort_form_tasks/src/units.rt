//! The tasks that see what stands in a flat expression, a run, an atom and a postfix.
ghost use Rattle.std.specs.Prelude.{◌≡◌, ◌∷◌, [], map, OnOk};
ghost use Rattle.fort_tree.specs.declared.expr.Atom.{out-Atom};
ghost use Rattle.fort_tree.specs.declared.expr.Postfix.{out-Postfix};
ghost use Rattle.fort_tree.specs.declared.grouped.Grouped.{out-Grouped};
ghost use Rattle.fort_form_meaning.specs.Source.{Source};
ghost use Rattle.fort_form_meaning.specs.Formed.{formed_flat_part, formed_next_expr, formed_run_part};
ghost use Rattle.fort_form_tasks.specs.Tasks.{Sees, atom_at, formed_group, formed_part, formed_unit, group_at, inside_list, inside_run, postfix_at};

use crate::further::see;
use crate::task::{Part, Task};
use fort_base::Memory;
use fort_base_stack::Stack;
use fort_tree::{Atom, ExprList, Flat, FlatPart, Grouped, NextExpr, Postfix, Run, RunPart};

/// The units or the parts of a grouping.
pub fn see_in_group<'a>(
    flat: &'a Flat,
    grouped: &'a Grouped,
    tasks: &mut Stack<Task<'a>>,
) -> Result<(), Memory>
    ensures { OnOk result ((k : Source)
        → Sees k (group_at k flat.now (out-Grouped grouped.now)) tasks.old tasks.new) }
{
    match grouped {
        Grouped::Unit(number) => see_unit(flat, *number, tasks)?,
        Grouped::Binary(_, left, right) => {
            see(Part::Group(flat, left.get()), tasks)?;
            see(Part::Group(flat, right.get()), tasks)?;
        }
        Grouped::Chain(_, parts) => see_groups(flat, parts.as_slice(), tasks)?,
        Grouped::Juxt(units) => see_units(flat, units.as_slice(), tasks)?,
    }
    Ok(())
}

/// Parts of a flat expression.
fn see_groups<'a>(
    flat: &'a Flat,
    parts: &'a [Grouped],
    tasks: &mut Stack<Task<'a>>,
) -> Result<(), Memory>
    ensures { OnOk result ((k : Source)
        → Sees k (map (formed_group k flat.now) parts.now) tasks.old tasks.new) }
{
    for part in parts {
        see(Part::Group(flat, part), tasks)?;
    }
    Ok(())
}

/// Units of a flat expression, by their numbers.
fn see_units<'a>(flat: &'a Flat, units: &[usize], tasks: &mut Stack<Task<'a>>) -> Result<(), Memory>
    ensures { OnOk result ((k : Source)
        → Sees k (map (formed_unit k flat.now) units.now) tasks.old tasks.new) }
{
    for unit in units {
        see_unit(flat, *unit, tasks)?;
    }
    Ok(())
}

/// The unit of a number of a flat expression; the first one where it has no such number.
fn see_unit<'a>(flat: &'a Flat, number: usize, tasks: &mut Stack<Task<'a>>) -> Result<(), Memory>
    ensures { OnOk result ((k : Source)
        → Sees k (formed_unit k flat.now number ∷ []) tasks.old tasks.new) }
{
    see(unit(flat, number), tasks)?;
    Ok(())
}

/// The unit of a number of a flat expression, counted from 0; the first one where it has no such
/// number.
fn unit<'a>(flat: &'a Flat, number: usize) -> Part<'a>
    ensures { (k : Source) → formed_part k result ≡ formed_unit k flat.now number }
{
    if number == 0 {
        return Part::Unit(&flat.first);
    }
    match flat.rest.get(number - 1) {
        Some(part) => further_unit(part),
        None => Part::Unit(&flat.first),
    }
}

/// A further unit of a flat expression.
fn further_unit<'a>(part: &'a FlatPart) -> Part<'a>
    ensures { (k : Source) → formed_part k result ≡ formed_flat_part k part.now }
{
    match part {
        FlatPart::Run(run) => Part::Run(run),
        FlatPart::Infix(_, operand) => Part::Unit(operand),
    }
}

/// The elements of a run.
pub fn see_in_run<'a>(run: &'a Run, tasks: &mut Stack<Task<'a>>) -> Result<(), Memory>
    ensures { OnOk result ((k : Source) → Sees k (inside_run k run.now) tasks.old tasks.new) }
{
    see(Part::Atom(&run.first), tasks)?;
    see_run_parts(run.rest.as_slice(), tasks)?;
    Ok(())
}

/// Further elements of a run.
fn see_run_parts<'a>(parts: &'a [RunPart], tasks: &mut Stack<Task<'a>>) -> Result<(), Memory>
    ensures { OnOk result ((k : Source)
        → Sees k (map (formed_run_part k) parts.now) tasks.old tasks.new) }
{
    for part in parts {
        see_run_part(part, tasks)?;
    }
    Ok(())
}

/// A further element of a run.
fn see_run_part<'a>(part: &'a RunPart, tasks: &mut Stack<Task<'a>>) -> Result<(), Memory>
    ensures { OnOk result ((k : Source)
        → Sees k (formed_run_part k part.now ∷ []) tasks.old tasks.new) }
{
    match part {
        RunPart::Atom(atom) => see(Part::Atom(atom), tasks)?,
        RunPart::Postfix(postfix) => see(Part::Postfix(postfix), tasks)?,
    }
    Ok(())
}

/// What stands in an atom.
pub fn see_in_atom<'a>(atom: &'a Atom, tasks: &mut Stack<Task<'a>>) -> Result<(), Memory>
    ensures { OnOk result ((k : Source)
        → Sees k (atom_at k (out-Atom atom.now)) tasks.old tasks.new) }
{
    match atom {
        Atom::Name(_) => {}
        Atom::Number(..) => {}
        Atom::Text(..) => {}
        Atom::True(_) => {}
        Atom::False(_) => {}
        Atom::Self_(_) => {}
        Atom::Parens { contents, .. } => see_in_list(contents, tasks)?,
        Atom::Delimited(form) => see(Part::Form(form.get()), tasks)?,
        Atom::ArrayFill { size, value, .. } => {
            see(Part::Expr(size.get()), tasks)?;
            see(Part::Expr(value.get()), tasks)?;
        }
    }
    Ok(())
}

/// What stands in a postfix.
pub fn see_in_postfix<'a>(postfix: &'a Postfix, tasks: &mut Stack<Task<'a>>) -> Result<(), Memory>
    ensures { OnOk result ((k : Source)
        → Sees k (postfix_at k (out-Postfix postfix.now)) tasks.old tasks.new) }
{
    match postfix {
        Postfix::Subscript { index, .. } => see(Part::Expr(index.get()), tasks)?,
        Postfix::Power { exponent, .. } => see(Part::Atom(exponent), tasks)?,
        Postfix::Field { .. } => {}
        Postfix::Call { arguments, .. } => see_in_list(arguments, tasks)?,
    }
    Ok(())
}

/// The expressions of a list that may be left out.
fn see_in_list<'a>(list: &'a Option<ExprList>, tasks: &mut Stack<Task<'a>>) -> Result<(), Memory>
    ensures { OnOk result ((k : Source) → Sees k (inside_list k list.now) tasks.old tasks.new) }
{
    if let Some(list) = list {
        see(Part::Expr(list.first.get()), tasks)?;
        see_next_exprs(list.others.as_slice(), tasks)?;
    }
    Ok(())
}

/// Further expressions of a list.
fn see_next_exprs<'a>(exprs: &'a [NextExpr], tasks: &mut Stack<Task<'a>>) -> Result<(), Memory>
    ensures { OnOk result ((k : Source)
        → Sees k (map (formed_next_expr k) exprs.now) tasks.old tasks.new) }
{
    for next in exprs {
        see(Part::Expr(&next.expr), tasks)?;
    }
    Ok(())
}
