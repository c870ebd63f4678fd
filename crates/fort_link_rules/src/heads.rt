//! What the names of units, their imports and their exports break: 701, 702, 703 and 705.
ghost use Rattle.std.specs.Prelude.{◌≡◌, ◌||◌, IfOk, OnOk, Any};
ghost use Rattle.std.specs.List.{list_any};
ghost use Rattle.fort_base.specs.Places.{IsFirst};
ghost use Rattle.fort_link_rules.specs.Heads as spec;
ghost use Rattle.fort_link_rules.specs.Places.{Gathers};
ghost use Rattle.fort_link_rules.specs.Units.{is_api, is_executable_api};
ghost use Rattle.fort_tree.specs.Tokens.{is_spelled};

use crate::names::{is_executable, is_same};
use crate::places::{add_where, earliest};
use crate::units::{
    first_place, has_api, has_one_main, is_executable_api, is_exported_once, name_of,
};
use fort_base::{Bytes, List, Memory, Place};
use fort_link_units::{Import, Unit};
use fort_tree::{Export, Name};
use std::alloc::Global;

/// The earliest place of the later of two units of one kind and one name, or of an API named
/// `Executable` (701).
pub(crate) fn first_duplicate(
    alloc: Global,
    names: &[Bytes],
    units: &[Unit],
) -> Result<Option<Place>, Memory>
    ensures { IfOk result (IsFirst (spec.IsDuplicate names.now units.now)) }
{
    let mut places = List::new(alloc);
    for k in 0..units.len() {
        let unit = &units[k];
        let duplicate = is_duplicate(names, &units[..k], unit);
        add_where(duplicate, name_of(unit).spot.place, &mut places)?;
    }
    Ok(earliest(places.as_slice()))
}

/// Whether a unit is like one before it, or is an API named `Executable`.
fn is_duplicate(names: &[Bytes], before: &[Unit], unit: &Unit) -> bool
    ensures { result ≡ (list_any (λ other. spec.is_like other unit.now) before.now
        || is_executable_api names.now unit.now) }
{
    let like = has_like(before, unit);
    like || is_executable_api(names, unit)
}

/// Whether one of these units is like a unit.
fn has_like(units: &[Unit], unit: &Unit) -> bool
    ensures { result ≡ list_any (λ other. spec.is_like other unit.now) units.now }
{
    units.iter().any(|other| is_like(other, unit))
}

/// Whether two units are of one kind and have one name.
fn is_like(a: &Unit, b: &Unit) -> bool
    ensures { result ≡ spec.is_like a.now b.now }
{
    match a {
        Unit::Component(a) => match b {
            Unit::Component(b) => is_same(a.parsed.component.name, b.parsed.component.name),
            Unit::Api(_) => false,
        },
        Unit::Api(a) => match b {
            Unit::Component(_) => false,
            Unit::Api(b) => is_same(a.name, b.name),
        },
    }
}

/// The earliest place of an imported name that is no API's, or an exported one that is neither
/// that nor `Executable` (702).
pub(crate) fn first_unknown(
    alloc: Global,
    names: &[Bytes],
    units: &[Unit],
) -> Result<Option<Place>, Memory>
    ensures { IfOk result (IsFirst (spec.IsUnknown names.now units.now)) }
{
    let mut places = List::new(alloc);
    for unit in units {
        add_unknown(names, units, unit, &mut places)?;
    }
    Ok(earliest(places.as_slice()))
}

/// Adds the places of the unknown names that a unit imports or exports.
fn add_unknown(
    names: &[Bytes],
    units: &[Unit],
    unit: &Unit,
    places: &mut List<Place>,
) -> Result<(), Memory>
    ensures { OnOk result (Gathers (spec.UnknownIn names.now units.now unit.now) places.old
        places.new) }
{
    match unit {
        Unit::Component(component) => {
            add_unknown_imports(units, component.imports.as_slice(), places)?;
            add_unknown_exports(names, units, component.exports.as_slice(), places)
        }
        Unit::Api(_) => Ok(()),
    }
}

/// Adds the places of imported names that are no API's.
fn add_unknown_imports(
    units: &[Unit],
    imports: &[Import],
    places: &mut List<Place>,
) -> Result<(), Memory>
    ensures { OnOk result (Gathers (λ place. Any (λ i. spec.IsUnknownImport units.now i.name place)
        imports.now) places.old places.new) }
{
    for import in imports {
        let known = has_api(units, import.name);
        add_where(!known, import.name.spot.place, places)?;
    }
    Ok(())
}

/// Adds the places of exported names that are neither an API's nor `Executable`.
fn add_unknown_exports(
    names: &[Bytes],
    units: &[Unit],
    exports: &[Export],
    places: &mut List<Place>,
) -> Result<(), Memory>
    ensures { OnOk result (Gathers (λ place. Any (λ e. spec.IsUnknownExport names.now units.now
        e.name place) exports.now) places.old places.new) }
{
    for export in exports {
        let known = may_export(names, units, export.name);
        add_where(!known, export.name.spot.place, places)?;
    }
    Ok(())
}

/// Whether a name is an API's, or `Executable`.
fn may_export(names: &[Bytes], units: &[Unit], name: Name) -> bool
    ensures { result ≡ (list_any (is_api name) units.now || is_spelled "Executable" names.now name) }
{
    let known = has_api(units, name);
    known || is_executable(names, name)
}

/// The earliest place of the name of an API that isn't exported by exactly one component (703).
pub(crate) fn first_not_one_exporter(alloc: Global, units: &[Unit]) -> Result<Option<Place>, Memory>
    ensures { IfOk result (IsFirst (spec.IsNotOneExporter units.now)) }
{
    let mut places = List::new(alloc);
    for unit in units {
        add_not_exported_once(units, unit, &mut places)?;
    }
    Ok(earliest(places.as_slice()))
}

/// Adds the place of an API's name, where it isn't exported by exactly one component.
fn add_not_exported_once(
    units: &[Unit],
    unit: &Unit,
    places: &mut List<Place>,
) -> Result<(), Memory>
    ensures { OnOk result (Gathers (spec.NotExportedOnce units.now unit.now) places.old
        places.new) }
{
    match unit {
        Unit::Component(_) => Ok(()),
        Unit::Api(api) => {
            let once = is_exported_once(units, api.name);
            add_where(!once, api.name.spot.place, places)
        }
    }
}

/// The place of the first unit's first token, where not exactly one component exports `Executable`
/// (705).
pub(crate) fn first_not_one_main(names: &[Bytes], units: &[Unit]) -> Option<Place>
    ensures { IsFirst (spec.IsNotOneMain names.now units.now) result }
{
    let one = has_one_main(names, units);
    if one {
        return None;
    }
    match units.first() {
        Some(first) => Some(first_place(first)),
        None => None,
    }
}
