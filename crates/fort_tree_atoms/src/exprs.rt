//! The names that stand as atoms in expressions.
ghost use Rattle.std.specs.Prelude.{◌≡◌, ◌++◌, OnOk, map, option_map};
ghost use Rattle.fort_tree_atoms.specs.Gathered.{all_atoms, maybe_atoms};
ghost use Rattle.fort_tree_atoms.specs.AtomsOf.{atoms_of_expr, atoms_of_head, atoms_of_generator, atoms_of_flat, atoms_of_flat_part, atoms_of_run, atoms_of_run_part, atoms_of_postfix, atoms_of_atom, atoms_of_expr_list, atoms_of_next_expr};

use crate::blocks::add_form;
use fort_base::{Boxed, List, Memory};
use fort_tree::{
    Atom, Expr, ExprList, Flat, FlatPart, Generator, Head, Name, NextExpr, Postfix, Run, RunPart,
};

/// Walks over an expression.
#[cycle(tree)]
pub fn add_expr(expr: &Expr, names: &mut List<Name>) -> Result<(), Memory>
    ensures { OnOk result (names.new ≡ names.old ++ atoms_of_expr expr.now) }
{
    match expr {
        Expr::Flat(flat) => add_flat(flat, names)?,
        Expr::Assign {
            target,
            head,
            value,
            ..
        } => {
            add_flat(target.get(), names)?;
            add_maybe_head(head, names)?;
            add_flat(value.get(), names)?;
        }
        Expr::Open { head, body } => {
            add_head(head.get(), names)?;
            add_flat(body.get(), names)?;
        }
        Expr::OpenAssign {
            head,
            target,
            value,
            ..
        } => {
            add_head(head.get(), names)?;
            add_flat(target.get(), names)?;
            add_flat(value.get(), names)?;
        }
    }
    Ok(())
}

#[cycle(tree)]
fn add_maybe_head(head: &Option<Boxed<Head>>, names: &mut List<Name>) -> Result<(), Memory>
    ensures { OnOk result (names.new
        ≡ names.old ++ maybe_atoms (option_map atoms_of_head head.now)) }
{
    if let Some(head) = head {
        add_head(head.get(), names)?;
    }
    Ok(())
}

#[cycle(tree)]
fn add_head(head: &Head, names: &mut List<Name>) -> Result<(), Memory>
    ensures { OnOk result (names.new ≡ names.old ++ atoms_of_head head.now) }
{
    match head {
        Head::Atomic(_) => {}
        Head::Tryatomic(_) => {}
        Head::Throw(_) => {}
        Head::Spawn(_) => {}
        Head::Fn { .. } => {}
        Head::Big { generator, .. } => add_generator(generator, names)?,
    }
    Ok(())
}

/// Walks over a generator.
#[cycle(tree)]
pub fn add_generator(generator: &Generator, names: &mut List<Name>) -> Result<(), Memory>
    ensures { OnOk result (names.new ≡ names.old ++ atoms_of_generator generator.now) }
{
    match generator {
        Generator::Parallel { source, .. } => add_flat(source, names)?,
        Generator::Sequential { source, .. } => add_flat(source, names)?,
    }
    Ok(())
}

/// Walks over a flat expression.
#[cycle(tree)]
pub fn add_flat(flat: &Flat, names: &mut List<Name>) -> Result<(), Memory>
    ensures { OnOk result (names.new ≡ names.old ++ atoms_of_flat flat.now) }
{
    add_run(&flat.first.run, names)?;
    add_flat_parts(flat.rest.as_slice(), names)?;
    Ok(())
}

#[cycle(tree)]
fn add_flat_parts(parts: &[FlatPart], names: &mut List<Name>) -> Result<(), Memory>
    ensures { OnOk result (names.new
        ≡ names.old ++ all_atoms (map atoms_of_flat_part parts.now)) }
{
    for part in parts {
        add_flat_part(part, names)?;
    }
    Ok(())
}

#[cycle(tree)]
fn add_flat_part(part: &FlatPart, names: &mut List<Name>) -> Result<(), Memory>
    ensures { OnOk result (names.new ≡ names.old ++ atoms_of_flat_part part.now) }
{
    match part {
        FlatPart::Run(run) => add_run(run, names)?,
        FlatPart::Infix(_, operand) => add_run(&operand.run, names)?,
    }
    Ok(())
}

#[cycle(tree)]
fn add_run(run: &Run, names: &mut List<Name>) -> Result<(), Memory>
    ensures { OnOk result (names.new ≡ names.old ++ atoms_of_run run.now) }
{
    add_atom(&run.first, names)?;
    add_run_parts(run.rest.as_slice(), names)?;
    Ok(())
}

#[cycle(tree)]
fn add_run_parts(parts: &[RunPart], names: &mut List<Name>) -> Result<(), Memory>
    ensures { OnOk result (names.new
        ≡ names.old ++ all_atoms (map atoms_of_run_part parts.now)) }
{
    for part in parts {
        add_run_part(part, names)?;
    }
    Ok(())
}

#[cycle(tree)]
fn add_run_part(part: &RunPart, names: &mut List<Name>) -> Result<(), Memory>
    ensures { OnOk result (names.new ≡ names.old ++ atoms_of_run_part part.now) }
{
    match part {
        RunPart::Atom(atom) => add_atom(atom, names)?,
        RunPart::Postfix(postfix) => add_postfix(postfix, names)?,
    }
    Ok(())
}

#[cycle(tree)]
fn add_postfix(postfix: &Postfix, names: &mut List<Name>) -> Result<(), Memory>
    ensures { OnOk result (names.new ≡ names.old ++ atoms_of_postfix postfix.now) }
{
    match postfix {
        Postfix::Subscript { index, .. } => add_expr(index.get(), names)?,
        Postfix::Power { exponent, .. } => add_atom(exponent, names)?,
        Postfix::Field { .. } => {}
        Postfix::Call { arguments, .. } => add_expr_list(arguments, names)?,
    }
    Ok(())
}

#[cycle(tree)]
fn add_atom(atom: &Atom, names: &mut List<Name>) -> Result<(), Memory>
    ensures { OnOk result (names.new ≡ names.old ++ atoms_of_atom atom.now) }
{
    match atom {
        Atom::Name(name) => names.push(*name)?,
        Atom::Number(..) => {}
        Atom::Text(..) => {}
        Atom::True(_) => {}
        Atom::False(_) => {}
        Atom::Self_(_) => {}
        Atom::Parens { contents, .. } => add_expr_list(contents, names)?,
        Atom::Delimited(form) => add_form(form.get(), names)?,
        Atom::ArrayFill { size, value, .. } => {
            add_expr(size.get(), names)?;
            add_expr(value.get(), names)?;
        }
    }
    Ok(())
}

#[cycle(tree)]
fn add_expr_list(list: &Option<ExprList>, names: &mut List<Name>) -> Result<(), Memory>
    ensures { OnOk result (names.new
        ≡ names.old ++ maybe_atoms (option_map atoms_of_expr_list list.now)) }
{
    if let Some(list) = list {
        add_expr(list.first.get(), names)?;
        add_next_exprs(list.others.as_slice(), names)?;
    }
    Ok(())
}

#[cycle(tree)]
fn add_next_exprs(exprs: &[NextExpr], names: &mut List<Name>) -> Result<(), Memory>
    ensures { OnOk result (names.new
        ≡ names.old ++ all_atoms (map atoms_of_next_expr exprs.now)) }
{
    for next in exprs {
        add_expr(&next.expr, names)?;
    }
    Ok(())
}
