ghost use Rattle.std.specs.Prelude.{◌≡◌, ◌++◌, OnOk, map, option_map};
ghost use Rattle.fort_tree.specs.Measured.{all_flats, maybe_measured, block_measured};
ghost use Rattle.fort_tree.specs.Measuring.{measured_delimited, measured_item, measured_block_item, measured_variable, measured_also, measured_elif, measured_else_block, measured_next_generator, measured_finally};

use crate::clauses::{add_case_clauses, add_maybe_catch, add_maybe_else_clause, add_type_clauses};
use crate::expressions::{add_expr, add_generator};
use crate::units::add_flat;
use fort_base::{List, Memory};
use fort_tree::{
    Also, BlockItem, Delimited, Elif, ElseBlock, Finally, Item, NextGenerator, Row, Variable,
};

/// Adds the flat expressions in a form that ends with `end`.
#[cycle(add)]
pub fn add_form(form: &Delimited, rows: &mut List<Row>) -> Result<(), Memory>
    ensures { OnOk result (rows.new ≡ rows.old ++ (measured_delimited form.now).flats) }
{
    match form {
        Delimited::Do { block, others, .. } => {
            add_block(block.as_slice(), rows)?;
            add_alsos(others.as_slice(), rows)?;
        }
        Delimited::If {
            condition,
            block,
            elifs,
            otherwise,
            ..
        } => {
            add_flat(condition, rows)?;
            add_block(block.as_slice(), rows)?;
            add_elifs(elifs.as_slice(), rows)?;
            add_maybe_else_block(otherwise, rows)?;
        }
        Delimited::While {
            condition,
            block,
            ..
        } => {
            add_flat(condition, rows)?;
            add_block(block.as_slice(), rows)?;
        }
        Delimited::For {
            generator,
            others,
            block,
            ..
        } => {
            add_generator(generator.get(), rows)?;
            add_next_generators(others.as_slice(), rows)?;
            add_block(block.as_slice(), rows)?;
        }
        Delimited::Case {
            subject,
            clauses,
            otherwise,
            ..
        } => {
            add_flat(subject, rows)?;
            add_case_clauses(clauses.as_slice(), rows)?;
            add_maybe_else_clause(otherwise, rows)?;
        }
        Delimited::Typecase {
            subject,
            clauses,
            otherwise,
            ..
        } => {
            add_flat(subject, rows)?;
            add_type_clauses(clauses.as_slice(), rows)?;
            add_maybe_else_clause(otherwise, rows)?;
        }
        Delimited::Try {
            block,
            catch,
            finally,
            ..
        } => {
            add_block(block.as_slice(), rows)?;
            add_maybe_catch(catch, rows)?;
            add_maybe_finally(finally, rows)?;
        }
    }
    Ok(())
}

/// Adds the flat expressions of a block.
#[cycle(add)]
fn add_block(block: &[BlockItem], rows: &mut List<Row>) -> Result<(), Memory>
    ensures { OnOk result (rows.new ≡ rows.old ++ all_flats (map measured_block_item block.now)) }
{
    for entry in block {
        add_item(&entry.item, rows)?;
    }
    Ok(())
}

/// Adds the flat expressions of an item of a block.
#[cycle(add)]
fn add_item(item: &Item, rows: &mut List<Row>) -> Result<(), Memory>
    ensures { OnOk result (rows.new ≡ rows.old ++ (measured_item item.now).flats) }
{
    match item {
        Item::Variable(variable) => add_variable(variable.get(), rows)?,
        Item::Names { value, .. } => add_expr(value.get(), rows)?,
        Item::Expr(expr) => add_expr(expr, rows)?,
    }
    Ok(())
}

/// Adds the flat expressions of a declaration of a variable.
#[cycle(add)]
pub fn add_variable(variable: &Variable, rows: &mut List<Row>) -> Result<(), Memory>
    ensures { OnOk result (rows.new ≡ rows.old ++ (measured_variable variable.now).flats) }
{
    add_expr(&variable.value, rows)?;
    Ok(())
}

/// Adds the flat expressions of the further blocks of a `do`.
#[cycle(add)]
fn add_alsos(others: &[Also], rows: &mut List<Row>) -> Result<(), Memory>
    ensures { OnOk result (rows.new ≡ rows.old ++ all_flats (map measured_also others.now)) }
{
    for also in others {
        add_block(also.block.as_slice(), rows)?;
    }
    Ok(())
}

/// Adds the flat expressions of each `elif`.
#[cycle(add)]
fn add_elifs(elifs: &[Elif], rows: &mut List<Row>) -> Result<(), Memory>
    ensures { OnOk result (rows.new ≡ rows.old ++ all_flats (map measured_elif elifs.now)) }
{
    for elif in elifs {
        add_elif(elif, rows)?;
    }
    Ok(())
}

/// Adds the flat expressions of an `elif`.
#[cycle(add)]
fn add_elif(elif: &Elif, rows: &mut List<Row>) -> Result<(), Memory>
    ensures { OnOk result (rows.new ≡ rows.old ++ (measured_elif elif.now).flats) }
{
    add_flat(&elif.condition, rows)?;
    add_block(elif.block.as_slice(), rows)?;
    Ok(())
}

/// Adds the flat expressions of the `else` of an `if`.
#[cycle(add)]
fn add_maybe_else_block(otherwise: &Option<ElseBlock>, rows: &mut List<Row>) -> Result<(), Memory>
    ensures { OnOk result (rows.new
        ≡ rows.old
        ++ all_flats (maybe_measured (option_map measured_else_block otherwise.now))) }
{
    if let Some(otherwise) = otherwise {
        add_block(otherwise.block.as_slice(), rows)?;
    }
    Ok(())
}

/// Adds the flat expressions of the further generators of a `for`.
#[cycle(add)]
fn add_next_generators(others: &[NextGenerator], rows: &mut List<Row>) -> Result<(), Memory>
    ensures { OnOk result (rows.new
        ≡ rows.old ++ all_flats (map measured_next_generator others.now)) }
{
    for next in others {
        add_generator(&next.generator, rows)?;
    }
    Ok(())
}

/// Adds the flat expressions of a `finally`.
#[cycle(add)]
fn add_maybe_finally(finally: &Option<Finally>, rows: &mut List<Row>) -> Result<(), Memory>
    ensures { OnOk result (rows.new
        ≡ rows.old ++ all_flats (maybe_measured (option_map measured_finally finally.now))) }
{
    if let Some(finally) = finally {
        add_block(finally.block.as_slice(), rows)?;
    }
    Ok(())
}
