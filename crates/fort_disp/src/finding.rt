//! The search through a row.
ghost use Rattle.std.specs.Prelude.{◌≡◌, ◌≤◌, ◌<◌, ◌+◌, ◌^◌, true, length, map, slice_get, Some, None, MatchOption};
ghost use Rattle.std.specs.Option.{option_copied};
ghost use Rattle.fort_base.specs.declared.ids.DeclId.{DeclId};
ghost use Rattle.fort_core.specs.declared.program.CoreDecl.{CoreDecl};
ghost use Rattle.fort_machine.specs.Types.{type_of};
ghost use Rattle.fort_machine.specs.Calls.{IsApplicable, Dispatches};
ghost use Rattle.fort_disp.specs.Rows.{AreRows, GoesThrough};
ghost use Rattle.fort_disp.specs.Fits.{takes as takes_it, fits_first, fits as fits_it, HoldsNowhere, HoldsThere, IsFirst, IsNone};

use crate::rows::Tables;
use crate::steps::Steps;
use fort_base::{DeclId, List, SetId};
use fort_core::{CoreDecl, Program, Value};
use fort_value::has_type;
use std::sync::ledger::Ledger;

// Whether the argument in a place is there and has the parameter's type.
#[inline(always)]
fn takes(program: &Program, decl: &CoreDecl, values: &List<Value>, place: usize) -> bool
    ensures { result
        ≡ takes_it program.now (slice_get values.now place) (slice_get decl.now.parameters place) }
{
    let value = match values.get(place) {
        None => return false,
        Some(value) => value,
    };
    match decl.parameters.get(place) {
        None => false,
        Some(ty) => has_type(program, value, ty),
    }
}

// Whether there are as many arguments as parameters, and the first so many have the parameters'
// types.
#[inline(always)]
fn suits(program: &Program, decl: &CoreDecl, values: &List<Value>, count: usize) -> bool
    ensures { result ≡ fits_first program.now values.now decl.now.parameters count }
{
    if values.len() != decl.parameters.len() {
        return false;
    }
    for place in 0..count {
        if !takes(program, decl, values, place) {
            return false;
        }
    }
    true
}

#[inline(always)]
fn fits(program: &Program, number: DeclId, values: &List<Value>, count: usize) -> bool
    ensures { result ≡ fits_it program.now values.now count number }
{
    match program.decls.get(number.0 as usize) {
        None => false,
        Some(decl) => suits(program, decl, values, count),
    }
}

// The first place from one on whose declaration the first so many arguments fit; the row's end
// where there is none.
fn next(program: &Program, row: &[DeclId], values: &List<Value>, count: usize, from: usize) -> usize
    ensures passed { HoldsNowhere (fits_it program.now values.now count) row.now from result }
    ensures stands { HoldsThere (fits_it program.now values.now count) row.now result }
{
    for at in from..row.len() {
        if fits(program, row[at], values, count) {
            return at;
        }
    }
    row.len()
}

// Whether the declaration in a place of a row takes one argument more.
fn goes_on(program: &Program, row: &[DeclId], values: &List<Value>, place: usize, at: usize) -> bool
    ensures { (d : DeclId) → slice_get row.now at ≡ Some d
        → fits_it program.now values.now place d ≡ true
        → result ≡ fits_it program.now values.now (place + 1) d }
{
    let number = match row.get(at) {
        None => return false,
        Some(number) => *number,
    };
    match program.decls.get(number.0 as usize) {
        None => false,
        Some(decl) => takes(program, decl, values, place),
    }
}

// The first place of a row on whose declaration one argument more fits, from one on that the
// arguments before fit.
fn advanced(
    program: &Program,
    row: &[DeclId],
    values: &List<Value>,
    place: usize,
    at: usize,
) -> usize
    requires within { place + 1 < 2 ^ 64 }
    requires stands { HoldsThere (fits_it program.now values.now place) row.now at }
    ensures passed { HoldsNowhere (fits_it program.now values.now (place + 1)) row.now at result }
    ensures stands { HoldsThere (fits_it program.now values.now (place + 1)) row.now result }
{
    if at >= row.len() || goes_on(program, row, values, place, at) {
        return at;
    }
    next(program, row, values, place + 1, at + 1)
}

// The first applicable declaration of a row: a step for the row's first declaration of as many
// parameters, and one for each argument.
fn first<L: Ledger>(
    program: &Program,
    row: &[DeclId],
    values: &List<Value>,
    steps: &mut Steps<L>,
) -> Option<DeclId>
    ensures first { MatchOption result (IsNone program.now values.now row.now)
        (IsFirst program.now values.now row.now) }
    ensures steps { steps.new ≤ steps.old + length values.now + 1 }
{
    steps.tick();
    let mut at = next(program, row, values, 0, 0);
    for place in 0..values.len() {
        steps.tick();
        at = advanced(program, row, values, place, at);
    }
    row.get(at).copied()
}

/// The declaration that a call of values runs where it runs one, and else some applicable
/// declaration, or `None` where none is applicable.
///
/// At most as many steps are taken as there are values, and one; each is bounded by the size of
/// the parameter types that are written in the set. It takes no memory. The chapter "Calls".
pub fn found<L: Ledger>(
    tables: &Tables,
    set: SetId,
    values: &List<Value>,
    steps: &mut Steps<L>,
) -> Option<DeclId>
    requires rows { AreRows tables.now.program.now tables.now.program.now.sets tables.now.rows }
    requires through { GoesThrough tables.now.program.now }
    ensures runs { (number : DeclId) → (decl : CoreDecl)
        → Dispatches tables.now.program.now set values.now number decl → result ≡ Some number }
    ensures applicable { MatchOption result
        ((number : DeclId) → (decl : CoreDecl) → IsApplicable tables.now.program.now set (map (type_of tables.now.program.now) values.now) number decl → ⊥)
        (λ number. (decl : CoreDecl) × IsApplicable tables.now.program.now set (map (type_of tables.now.program.now) values.now) number decl) }
    ensures steps { steps.new ≤ steps.old + length values.now + 1 }
{
    match tables.rows.get(set.0 as usize) {
        None => None,
        Some(row) => first(tables.program, row.as_slice(), values, steps),
    }
}

/// The declaration that a call of values runs: the one that is applicable to them and more
/// specific than each other applicable one.
///
/// At most as many steps are taken as there are values, and one; each is bounded by the size of
/// the parameter types that are written in the set. It takes no memory. The chapter "Calls".
pub fn pick<L: Ledger>(
    tables: &Tables,
    set: SetId,
    values: &List<Value>,
    steps: &mut Steps<L>,
) -> DeclId
    requires rows { AreRows tables.now.program.now tables.now.program.now.sets tables.now.rows }
    requires through { GoesThrough tables.now.program.now }
    requires runs { (number : DeclId) × (decl : CoreDecl)
        × Dispatches tables.now.program.now set values.now number decl }
    ensures runs { (decl : CoreDecl)
        × Dispatches tables.now.program.now set values.now result decl }
    ensures steps { steps.new ≤ steps.old + length values.now + 1 }
{
    found(tables, set, values, steps).unwrap()
}
