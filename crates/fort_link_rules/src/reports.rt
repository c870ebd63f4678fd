//! The first broken rule on several components and APIs.
ghost use Rattle.std.specs.Prelude.{IfOk};
ghost use Rattle.fort_base.specs.declared.rules.TheConstants.{DUPLICATE_UNIT, UNKNOWN_API, NOT_ONE_EXPORTER, NOT_PROVIDED, NOT_ONE_MAIN, NOT_IMPORTED, TOO_MUCH};
ghost use Rattle.fort_link_rules.specs.Reports.{IsFirstBroken, IsFirstBrokenFrom};

use crate::heads::{first_duplicate, first_not_one_exporter, first_not_one_main, first_unknown};
use crate::imported::first_not_imported;
use crate::provided::first_not_provided;
use crate::whole::first_too_much;
use fort_base::rules::{
    DUPLICATE_UNIT, NOT_IMPORTED, NOT_ONE_EXPORTER, NOT_ONE_MAIN, NOT_PROVIDED, TOO_MUCH,
    UNKNOWN_API,
};
use fort_base::{Bytes, Memory, Place, Rule};
use fort_link_units::Unit;
use std::alloc::Global;

/// A broken rule, and the earliest place at which it is broken.
#[derive(Clone, Copy, Debug, PartialEq, Eq)]
pub struct Broken {
    pub rule: Rule,
    pub place: Place,
}

/// The first of the rules 701 to 707 that the units of all files break, at its earliest place, or
/// `None` where they break none; or want of memory.
///
/// The units are read over one table of names, and the places of each file stand behind those of
/// the files before it. The chapter is "Components and APIs".
pub fn first_broken(
    alloc: Global,
    names: &[Bytes],
    units: &[Unit],
) -> Result<Option<Broken>, Memory>
    ensures { IfOk result (IsFirstBroken names.now units.now) }
{
    from_701(alloc, names, units)
}

/// The first broken one of the rules from 701 on.
fn from_701(alloc: Global, names: &[Bytes], units: &[Unit]) -> Result<Option<Broken>, Memory>
    ensures { IfOk result (IsFirstBrokenFrom names.now units.now DUPLICATE_UNIT.0) }
{
    let first = first_duplicate(alloc, names, units)?;
    match first {
        Some(place) => Ok(Some(Broken {
            rule: DUPLICATE_UNIT,
            place,
        })),
        None => from_702(alloc, names, units),
    }
}

/// The same of the rules from 702 on.
fn from_702(alloc: Global, names: &[Bytes], units: &[Unit]) -> Result<Option<Broken>, Memory>
    ensures { IfOk result (IsFirstBrokenFrom names.now units.now UNKNOWN_API.0) }
{
    let first = first_unknown(alloc, names, units)?;
    match first {
        Some(place) => Ok(Some(Broken {
            rule: UNKNOWN_API,
            place,
        })),
        None => from_703(alloc, names, units),
    }
}

/// The same of the rules from 703 on.
fn from_703(alloc: Global, names: &[Bytes], units: &[Unit]) -> Result<Option<Broken>, Memory>
    ensures { IfOk result (IsFirstBrokenFrom names.now units.now NOT_ONE_EXPORTER.0) }
{
    let first = first_not_one_exporter(alloc, units)?;
    match first {
        Some(place) => Ok(Some(Broken {
            rule: NOT_ONE_EXPORTER,
            place,
        })),
        None => from_704(alloc, names, units),
    }
}

/// The same of the rules from 704 on.
fn from_704(alloc: Global, names: &[Bytes], units: &[Unit]) -> Result<Option<Broken>, Memory>
    ensures { IfOk result (IsFirstBrokenFrom names.now units.now NOT_PROVIDED.0) }
{
    let first = first_not_provided(alloc, units)?;
    match first {
        Some(place) => Ok(Some(Broken {
            rule: NOT_PROVIDED,
            place,
        })),
        None => from_705(alloc, names, units),
    }
}

/// The same of the rules from 705 on.
fn from_705(alloc: Global, names: &[Bytes], units: &[Unit]) -> Result<Option<Broken>, Memory>
    ensures { IfOk result (IsFirstBrokenFrom names.now units.now NOT_ONE_MAIN.0) }
{
    let first = first_not_one_main(names, units);
    match first {
        Some(place) => Ok(Some(Broken {
            rule: NOT_ONE_MAIN,
            place,
        })),
        None => from_706(alloc, names, units),
    }
}

/// The same of the rules from 706 on.
fn from_706(alloc: Global, names: &[Bytes], units: &[Unit]) -> Result<Option<Broken>, Memory>
    ensures { IfOk result (IsFirstBrokenFrom names.now units.now NOT_IMPORTED.0) }
{
    let first = first_not_imported(alloc, units)?;
    match first {
        Some(place) => Ok(Some(Broken {
            rule: NOT_IMPORTED,
            place,
        })),
        None => from_707(alloc, names, units),
    }
}

/// The same of 707.
fn from_707(alloc: Global, names: &[Bytes], units: &[Unit]) -> Result<Option<Broken>, Memory>
    ensures { IfOk result (IsFirstBrokenFrom names.now units.now TOO_MUCH.0) }
{
    let first = first_too_much(alloc, units)?;
    match first {
        Some(place) => Ok(Some(Broken {
            rule: TOO_MUCH,
            place,
        })),
        None => Ok(None),
    }
}
