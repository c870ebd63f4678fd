ghost use Rattle.std.specs.Prelude.{◌≡◌, ◌++◌, OnOk, map, option_map};
ghost use Rattle.fort_tree.specs.Measured.{all_flats, maybe_measured, listed_parts};
ghost use Rattle.fort_tree.specs.Measuring.{measured_case_clause, measured_type_clause, measured_else_clause, measured_catch};

use crate::expressions::add_expr;
use crate::units::add_flat;
use fort_base::{Boxed, List, Memory};
use fort_tree::{CaseClause, Catch, ElseClause, Row, TypeClause};

/// Adds the flat expressions of the clauses of a `case`.
#[cycle(add)]
pub fn add_case_clauses(clauses: &[CaseClause], rows: &mut List<Row>) -> Result<(), Memory>
    ensures { OnOk result (rows.new
        ≡ rows.old ++ all_flats (map measured_case_clause clauses.now)) }
{
    for clause in clauses {
        add_case_clause(clause, rows)?;
    }
    Ok(())
}

/// Adds the flat expressions of a clause of a `case`.
#[cycle(add)]
fn add_case_clause(clause: &CaseClause, rows: &mut List<Row>) -> Result<(), Memory>
    ensures { OnOk result (rows.new ≡ rows.old ++ (measured_case_clause clause.now).flats) }
{
    add_flat(&clause.subject, rows)?;
    add_expr(&clause.value, rows)?;
    Ok(())
}

/// Adds the flat expressions of the clauses of a `typecase` or a `catch`.
#[cycle(add)]
pub fn add_type_clauses(clauses: &[TypeClause], rows: &mut List<Row>) -> Result<(), Memory>
    ensures { OnOk result (rows.new
        ≡ rows.old ++ all_flats (map measured_type_clause clauses.now)) }
{
    for clause in clauses {
        add_expr(&clause.value, rows)?;
    }
    Ok(())
}

/// Adds the flat expressions of the `else` of a `case` or a `typecase`.
#[cycle(add)]
pub fn add_maybe_else_clause(
    otherwise: &Option<Boxed<ElseClause>>,
    rows: &mut List<Row>,
) -> Result<(), Memory>
    ensures { OnOk result (rows.new
        ≡ rows.old
        ++ all_flats (maybe_measured (option_map measured_else_clause otherwise.now))) }
{
    if let Some(otherwise) = otherwise {
        add_expr(&otherwise.get().value, rows)?;
    }
    Ok(())
}

/// Adds the flat expressions of a `catch`.
#[cycle(add)]
pub fn add_maybe_catch(catch: &Option<Catch>, rows: &mut List<Row>) -> Result<(), Memory>
    ensures { OnOk result (rows.new
        ≡ rows.old ++ all_flats (listed_parts (option_map measured_catch catch.now))) }
{
    if let Some(catch) = catch {
        add_type_clauses(catch.clauses.as_slice(), rows)?;
    }
    Ok(())
}
