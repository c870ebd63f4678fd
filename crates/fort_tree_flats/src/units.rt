ghost use Rattle.std.specs.Prelude.{◌≡◌, ◌++◌, OnOk, map};
ghost use Rattle.fort_tree.specs.Measured.{all_flats};
ghost use Rattle.fort_tree.specs.Measuring.{measured_flat, measured_flat_part, measured_operand, measured_run, measured_run_part, measured_postfix, measured_atom};

use crate::blocks::add_form;
use crate::expressions::{add_expr, add_maybe_list};
use crate::laid::row;
use fort_base::{List, Memory};
use fort_tree::{Atom, Flat, FlatPart, Operand, Postfix, Row, Run, RunPart};

/// Adds a flat expression and behind it those in it.
#[cycle(add)]
pub fn add_flat(flat: &Flat, rows: &mut List<Row>) -> Result<(), Memory>
    ensures { OnOk result (rows.new ≡ rows.old ++ (measured_flat flat.now).flats) }
{
    let own = row(rows.allocator(), flat)?;
    rows.push(own)?;
    add_unit(&flat.first, rows)?;
    add_parts(flat.rest.as_slice(), rows)?;
    Ok(())
}

/// Adds the flat expressions in the further units of a flat expression.
#[cycle(add)]
fn add_parts(parts: &[FlatPart], rows: &mut List<Row>) -> Result<(), Memory>
    ensures { OnOk result (rows.new
        ≡ rows.old ++ all_flats (map (λ part. part.unit) (map measured_flat_part parts.now))) }
{
    for part in parts {
        add_part(part, rows)?;
    }
    Ok(())
}

/// Adds the flat expressions in a further unit of a flat expression.
#[cycle(add)]
fn add_part(part: &FlatPart, rows: &mut List<Row>) -> Result<(), Memory>
    ensures { OnOk result (rows.new ≡ rows.old ++ (measured_flat_part part.now).unit.flats) }
{
    match part {
        FlatPart::Run(run) => add_run(run, rows)?,
        FlatPart::Infix(_, unit) => add_unit(unit, rows)?,
    }
    Ok(())
}

/// Adds the flat expressions in a unit.
#[cycle(add)]
fn add_unit(unit: &Operand, rows: &mut List<Row>) -> Result<(), Memory>
    ensures { OnOk result (rows.new ≡ rows.old ++ (measured_operand unit.now).flats) }
{
    add_run(&unit.run, rows)?;
    Ok(())
}

/// Adds the flat expressions in a run.
#[cycle(add)]
fn add_run(run: &Run, rows: &mut List<Row>) -> Result<(), Memory>
    ensures { OnOk result (rows.new ≡ rows.old ++ (measured_run run.now).flats) }
{
    add_atom(&run.first, rows)?;
    add_run_parts(run.rest.as_slice(), rows)?;
    Ok(())
}

/// Adds the flat expressions in the further parts of a run.
#[cycle(add)]
fn add_run_parts(parts: &[RunPart], rows: &mut List<Row>) -> Result<(), Memory>
    ensures { OnOk result (rows.new ≡ rows.old ++ all_flats (map measured_run_part parts.now)) }
{
    for part in parts {
        add_run_part(part, rows)?;
    }
    Ok(())
}

/// Adds the flat expressions in a further part of a run.
#[cycle(add)]
fn add_run_part(part: &RunPart, rows: &mut List<Row>) -> Result<(), Memory>
    ensures { OnOk result (rows.new ≡ rows.old ++ (measured_run_part part.now).flats) }
{
    match part {
        RunPart::Atom(atom) => add_atom(atom, rows)?,
        RunPart::Postfix(postfix) => add_postfix(postfix, rows)?,
    }
    Ok(())
}

/// Adds the flat expressions in a postfix.
#[cycle(add)]
fn add_postfix(postfix: &Postfix, rows: &mut List<Row>) -> Result<(), Memory>
    ensures { OnOk result (rows.new ≡ rows.old ++ (measured_postfix postfix.now).flats) }
{
    match postfix {
        Postfix::Subscript { index, .. } => add_expr(index.get(), rows)?,
        Postfix::Power { exponent, .. } => add_atom(exponent, rows)?,
        Postfix::Field { .. } => {}
        Postfix::Call { arguments, .. } => add_maybe_list(arguments, rows)?,
    }
    Ok(())
}

/// Adds the flat expressions in an atom.
#[cycle(add)]
fn add_atom(atom: &Atom, rows: &mut List<Row>) -> Result<(), Memory>
    ensures { OnOk result (rows.new ≡ rows.old ++ (measured_atom atom.now).flats) }
{
    match atom {
        Atom::Name(_) => {}
        Atom::Number(_, _) => {}
        Atom::Text(_, _) => {}
        Atom::True(_) => {}
        Atom::False(_) => {}
        Atom::Self_(_) => {}
        Atom::Parens { contents, .. } => add_maybe_list(contents, rows)?,
        Atom::Delimited(form) => add_form(form.get(), rows)?,
        Atom::ArrayFill { size, value, .. } => {
            add_expr(size.get(), rows)?;
            add_expr(value.get(), rows)?;
        }
    }
    Ok(())
}
