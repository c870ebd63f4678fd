ghost use Rattle.std.specs.Prelude.{◌≡◌, ◌++◌, OnOk, map, option_map};
ghost use Rattle.fort_tree.specs.Measured.{all_flats, maybe_measured, listed_parts};
ghost use Rattle.fort_tree.specs.Measuring.{measured_expr, measured_head, measured_generator, measured_expr_list, measured_next_expr};

use crate::units::add_flat;
use fort_base::{Boxed, List, Memory};
use fort_tree::{Expr, ExprList, Generator, Head, NextExpr, Row};

/// Adds the flat expressions of an expression.
#[cycle(add)]
pub fn add_expr(expr: &Expr, rows: &mut List<Row>) -> Result<(), Memory>
    ensures { OnOk result (rows.new ≡ rows.old ++ (measured_expr expr.now).flats) }
{
    match expr {
        Expr::Flat(flat) => add_flat(flat, rows)?,
        Expr::Assign {
            target,
            head,
            value,
            ..
        } => {
            add_flat(target.get(), rows)?;
            add_maybe_head(head, rows)?;
            add_flat(value.get(), rows)?;
        }
        Expr::Open { head, body } => {
            add_head(head.get(), rows)?;
            add_flat(body.get(), rows)?;
        }
        Expr::OpenAssign {
            head,
            target,
            value,
            ..
        } => {
            add_head(head.get(), rows)?;
            add_flat(target.get(), rows)?;
            add_flat(value.get(), rows)?;
        }
    }
    Ok(())
}

/// Adds the flat expressions of a head that may be left out.
#[cycle(add)]
fn add_maybe_head(head: &Option<Boxed<Head>>, rows: &mut List<Row>) -> Result<(), Memory>
    ensures { OnOk result (rows.new
        ≡ rows.old ++ all_flats (maybe_measured (option_map measured_head head.now))) }
{
    if let Some(head) = head {
        add_head(head.get(), rows)?;
    }
    Ok(())
}

/// Adds the flat expressions of a head.
#[cycle(add)]
fn add_head(head: &Head, rows: &mut List<Row>) -> Result<(), Memory>
    ensures { OnOk result (rows.new ≡ rows.old ++ (measured_head head.now).flats) }
{
    match head {
        Head::Atomic(_) => {}
        Head::Tryatomic(_) => {}
        Head::Throw(_) => {}
        Head::Spawn(_) => {}
        Head::Fn { .. } => {}
        Head::Big { generator, .. } => add_generator(generator, rows)?,
    }
    Ok(())
}

/// Adds the flat expression of a generator, and those in it.
#[cycle(add)]
pub fn add_generator(generator: &Generator, rows: &mut List<Row>) -> Result<(), Memory>
    ensures { OnOk result (rows.new ≡ rows.old ++ (measured_generator generator.now).flats) }
{
    match generator {
        Generator::Parallel { source, .. } => add_flat(source, rows)?,
        Generator::Sequential { source, .. } => add_flat(source, rows)?,
    }
    Ok(())
}

/// Adds the flat expressions of a list of expressions that may be left out.
#[cycle(add)]
pub fn add_maybe_list(list: &Option<ExprList>, rows: &mut List<Row>) -> Result<(), Memory>
    ensures { OnOk result (rows.new
        ≡ rows.old ++ all_flats (listed_parts (option_map measured_expr_list list.now))) }
{
    if let Some(list) = list {
        add_list(list, rows)?;
    }
    Ok(())
}

/// Adds the flat expressions of a list of expressions.
#[cycle(add)]
fn add_list(list: &ExprList, rows: &mut List<Row>) -> Result<(), Memory>
    ensures { OnOk result (rows.new ≡ rows.old ++ all_flats (measured_expr_list list.now).parts) }
{
    add_expr(list.first.get(), rows)?;
    add_next_exprs(list.others.as_slice(), rows)?;
    Ok(())
}

/// Adds the flat expressions of the further expressions of a list.
#[cycle(add)]
fn add_next_exprs(others: &[NextExpr], rows: &mut List<Row>) -> Result<(), Memory>
    ensures { OnOk result (rows.new ≡ rows.old ++ all_flats (map measured_next_expr others.now)) }
{
    for next in others {
        add_expr(&next.expr, rows)?;
    }
    Ok(())
}
