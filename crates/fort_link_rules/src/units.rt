//! What one unit is called, exports and imports.
ghost use Rattle.std.specs.Prelude.{◌≡◌, ◌==◌, count_by};
ghost use Rattle.std.specs.List.{list_any};
ghost use Rattle.fort_link_rules.specs.Units as spec;
ghost use Rattle.fort_tree.specs.Tokens.{is_spelled};

use crate::names::{is_executable, is_same};
use fort_base::{Bytes, Place};
use fort_link_units::{ComponentUnit, Unit};
use fort_tree::{Export, Name};

/// The name of a unit.
pub(crate) fn name_of(unit: &Unit) -> Name
    ensures { result ≡ spec.name_of unit.now }
{
    match unit {
        Unit::Component(component) => component.parsed.component.name,
        Unit::Api(api) => api.name,
    }
}

/// The place of a unit's first token.
pub(crate) fn first_place(unit: &Unit) -> Place
    ensures { result ≡ (spec.first_token unit.now).place }
{
    match unit {
        Unit::Component(component) => component.parsed.component.component.place,
        Unit::Api(api) => api.api.place,
    }
}

/// Whether some unit is the API of this name.
pub(crate) fn has_api(units: &[Unit], name: Name) -> bool
    ensures { result ≡ list_any (spec.is_api name) units.now }
{
    units.iter().any(|unit| is_api(unit, name))
}

/// Whether a unit is the API of this name.
fn is_api(unit: &Unit, name: Name) -> bool
    ensures { result ≡ spec.is_api name unit.now }
{
    match unit {
        Unit::Component(_) => false,
        Unit::Api(api) => is_same(api.name, name),
    }
}

/// Whether a unit is an API named `Executable`.
pub(crate) fn is_executable_api(names: &[Bytes], unit: &Unit) -> bool
    ensures { result ≡ spec.is_executable_api names.now unit.now }
{
    match unit {
        Unit::Component(_) => false,
        Unit::Api(api) => is_executable(names, api.name),
    }
}

/// Whether a component imports the API of this name.
pub(crate) fn imports(component: &ComponentUnit, name: Name) -> bool
    ensures { result ≡ spec.imports name component.now }
{
    component
        .imports
        .as_slice()
        .iter()
        .any(|import| is_same(import.name, name))
}

/// Whether a unit is a component that exports the API of this name.
pub(crate) fn exports(unit: &Unit, name: Name) -> bool
    ensures { result ≡ spec.exports name unit.now }
{
    match unit {
        Unit::Component(component) => is_exported(component.exports.as_slice(), name),
        Unit::Api(_) => false,
    }
}

/// Whether one of these exports has this name.
fn is_exported(exports: &[Export], name: Name) -> bool
    ensures { result ≡ list_any (λ e. spec.is_same e.name name) exports.now }
{
    exports.iter().any(|export| is_same(export.name, name))
}

/// How many components export the API of this name.
fn exporter_count(units: &[Unit], name: Name) -> usize
    ensures { result ≡ count_by (spec.exports name) units.now }
{
    units.iter().filter(|unit| exports(unit, name)).count()
}

/// Whether exactly one component exports the API of this name.
pub(crate) fn is_exported_once(units: &[Unit], name: Name) -> bool
    ensures { result ≡ (count_by (spec.exports name) units.now == 1) }
{
    exporter_count(units, name) == 1
}

/// Whether a unit is a component that exports `Executable`.
fn exports_executable(names: &[Bytes], unit: &Unit) -> bool
    ensures { result ≡ spec.exports_executable names.now unit.now }
{
    match unit {
        Unit::Component(component) => {
            is_executable_exported(names, component.exports.as_slice())
        }
        Unit::Api(_) => false,
    }
}

/// Whether one of these exports is that of `Executable`.
fn is_executable_exported(names: &[Bytes], exports: &[Export]) -> bool
    ensures { result ≡ list_any (λ e. is_spelled "Executable" names.now e.name) exports.now }
{
    exports
        .iter()
        .any(|export| is_executable(names, export.name))
}

/// How many components export `Executable`.
fn main_count(names: &[Bytes], units: &[Unit]) -> usize
    ensures { result ≡ count_by (spec.exports_executable names.now) units.now }
{
    units
        .iter()
        .filter(|unit| exports_executable(names, unit))
        .count()
}

/// Whether exactly one component exports `Executable`.
pub(crate) fn has_one_main(names: &[Bytes], units: &[Unit]) -> bool
    ensures { result ≡ (count_by (spec.exports_executable names.now) units.now == 1) }
{
    main_count(names, units) == 1
}
