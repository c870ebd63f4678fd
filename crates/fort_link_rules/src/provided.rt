//! What an API promises and its exporter doesn't provide: 704.
ghost use Rattle.std.specs.Prelude.{◌≡◌, ◌++◌, IfOk, OnOk};
ghost use Rattle.std.specs.List.{flat_map};
ghost use Rattle.fort_base.specs.Places.{IsFirst};
ghost use Rattle.fort_link_units.specs.declared.unit.Unit.TheVariants as a_unit;
ghost use Rattle.fort_link_rules.specs.Catalogue.{IsTied};
ghost use Rattle.fort_link_rules.specs.Places.{Gathers};
ghost use Rattle.fort_link_rules.specs.Provided as spec;
ghost use Rattle.fort_link_rules.specs.Signatures as signatures;

use crate::catalogue::Catalogue;
use crate::places::{add_where, earliest};
use crate::signatures::{promised, promised_at, provided};
use crate::units::exports;
use fort_base::{List, Memory, Place};
use fort_link_units::{Api, ApiDeclared, Unit};
use fort_tree::{Component, Declared};
use std::alloc::Global;

/// The earliest place of an API's declaration that its exporter hasn't the like of (704).
pub(crate) fn first_not_provided(alloc: Global, units: &[Unit]) -> Result<Option<Place>, Memory>
    ensures { IfOk result (IsFirst (spec.IsNotProvided units.now)) }
{
    let mut places = List::new(alloc);
    for unit in units {
        add_lacking(alloc, units, unit, &mut places)?;
    }
    Ok(earliest(places.as_slice()))
}

/// Adds the places of what a unit doesn't provide of the APIs that it exports.
fn add_lacking(
    alloc: Global,
    units: &[Unit],
    unit: &Unit,
    places: &mut List<Place>,
) -> Result<(), Memory>
    ensures { OnOk result (Gathers (spec.LacksPromised units.now unit.now) places.old places.new) }
{
    match unit {
        Unit::Component(component) => {
            let catalogue = catalogue_of(alloc, &component.parsed.component)?;
            for other in units {
                add_missing_in(alloc, &catalogue, unit, other, places)?;
            }
            Ok(())
        }
        Unit::Api(_) => Ok(()),
    }
}

/// The signatures that a component provides.
fn catalogue_of(alloc: Global, component: &Component) -> Result<Catalogue, Memory>
    ensures all { IfOk result (λ c. c.signatures ≡ signatures.provided component.now) }
    ensures tied { IfOk result IsTied }
{
    let mut catalogue = Catalogue::new(alloc);
    for declared in component.declarations.as_slice() {
        add_provided(alloc, declared, &mut catalogue)?;
    }
    Ok(catalogue)
}

/// Adds what a declaration provides.
fn add_provided(alloc: Global, declared: &Declared, catalogue: &mut Catalogue) -> Result<(), Memory>
    requires { IsTied catalogue.old }
    ensures more { OnOk result (catalogue.new.signatures
        ≡ catalogue.old.signatures ++ signatures.provided_by declared.now.declaration) }
    ensures tied { OnOk result (IsTied catalogue.new) }
{
    let given = provided(alloc, &declared.declaration)?;
    match given {
        Some(signature) => catalogue.add(signature),
        None => Ok(()),
    }
}

/// Adds the places of what a unit, where it is an API that a component exports, promises and the
/// component doesn't provide.
fn add_missing_in(
    alloc: Global,
    catalogue: &Catalogue,
    exporter: &Unit,
    unit: &Unit,
    places: &mut List<Place>,
) -> Result<(), Memory>
    requires { IsTied catalogue.now }
    ensures { OnOk result (Gathers (spec.IsMissingIn catalogue.now.signatures exporter.now unit.now)
        places.old places.new) }
{
    match unit {
        Unit::Component(_) => Ok(()),
        Unit::Api(api) => add_missing_of(alloc, catalogue, exporter, api, places),
    }
}

/// Adds the places of what an API promises and isn't provided, where a component exports it.
fn add_missing_of(
    alloc: Global,
    catalogue: &Catalogue,
    exporter: &Unit,
    api: &Api,
    places: &mut List<Place>,
) -> Result<(), Memory>
    requires { IsTied catalogue.now }
    ensures { OnOk result (Gathers (spec.IsMissingIn catalogue.now.signatures exporter.now
        (a_unit.Api api.now)) places.old places.new) }
{
    let exported = exports(exporter, api.name);
    if exported {
        add_missing(alloc, catalogue, api.declarations.as_slice(), places)
    } else {
        Ok(())
    }
}

/// Adds the places of declarations that the signatures haven't the like of.
fn add_missing(
    alloc: Global,
    catalogue: &Catalogue,
    declarations: &[ApiDeclared],
    places: &mut List<Place>,
) -> Result<(), Memory>
    requires { IsTied catalogue.now }
    ensures { OnOk result (Gathers (spec.IsMissing catalogue.now.signatures declarations.now)
        places.old places.new) }
{
    for declared in declarations {
        let signature = promised(alloc, &declared.declaration)?;
        let there = catalogue.has(&signature);
        add_where(!there, promised_at(&declared.declaration), places)?;
    }
    Ok(())
}
