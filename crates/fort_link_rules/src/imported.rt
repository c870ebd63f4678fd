//! Names of other components that are used and not imported: 706.
ghost use Rattle.std.specs.Prelude.{◌≡◌, ◌&&◌, [], Any, IfOk, OnOk, if◌then◌else◌, map, not};
ghost use Rattle.std.specs.List.{flat_map};
ghost use Rattle.fort_base.specs.Places.{IsFirst};
ghost use Rattle.fort_link_rules.specs.Imported as spec;
ghost use Rattle.fort_link_rules.specs.Marks.{HasMarks, IsStranger, MarksNames, is_marked};
ghost use Rattle.fort_link_rules.specs.Places.{Gathers};
ghost use Rattle.fort_link_rules.specs.Units.{imports};

use crate::marks::Marks;
use crate::places::{add_where, earliest};
use crate::units::imports;
use fort_base::{List, Memory, Place};
use fort_link_units::{Api, ApiDeclaration, ApiDeclared, ComponentUnit, Unit};
use fort_tree::{Declaration, Declared, FunctionName, Name};
use fort_tree_atoms::atom_names;
use fort_tree_type_names::type_names;
use std::alloc::Global;

/// The earliest place of a name that a component uses, that it neither declares nor imports, and
/// that another component declares (706).
pub(crate) fn first_not_imported(alloc: Global, units: &[Unit]) -> Result<Option<Place>, Memory>
    ensures { IfOk result (IsFirst (spec.IsNotImported units.now)) }
{
    let declared = declared_marks(alloc, units)?;
    let mut places = List::new(alloc);
    for unit in units {
        add_unknown(alloc, units, &declared, unit, &mut places)?;
    }
    Ok(earliest(places.as_slice()))
}

/// Marks on the names that some component declares.
fn declared_marks(alloc: Global, units: &[Unit]) -> Result<Marks, Memory>
    ensures { IfOk result (HasMarks (flat_map spec.names_declared_in units.now)) }
{
    let mut marks = Marks::new(alloc);
    for unit in units {
        mark_declared_in(unit, &mut marks)?;
    }
    Ok(marks)
}

/// Marks the names that a unit declares.
fn mark_declared_in(unit: &Unit, marks: &mut Marks) -> Result<(), Memory>
    ensures { OnOk result (MarksNames (spec.names_declared_in unit.now) marks.old marks.new) }
{
    match unit {
        Unit::Component(component) => {
            mark_declared(component.parsed.component.declarations.as_slice(), marks)
        }
        Unit::Api(_) => Ok(()),
    }
}

/// Marks the names of declarations.
fn mark_declared(declarations: &[Declared], marks: &mut Marks) -> Result<(), Memory>
    ensures { OnOk result (MarksNames (flat_map (λ d. spec.declared_names d.declaration)
        declarations.now) marks.old marks.new) }
{
    for declared in declarations {
        mark_declaration(&declared.declaration, marks)?;
    }
    Ok(())
}

/// Marks the name of a declaration.
fn mark_declaration(declaration: &Declaration, marks: &mut Marks) -> Result<(), Memory>
    ensures { OnOk result (MarksNames (spec.declared_names declaration.now) marks.old marks.new) }
{
    match declaration {
        Declaration::Variable(declared) => marks.add(declared.name),
        Declaration::Function(declared) => mark_function(declared.name, marks),
        Declaration::Trait(declared) => marks.add(declared.name),
        Declaration::Object(declared) => marks.add(declared.name),
    }
}

/// Marks the name of a function, where it has one.
fn mark_function(name: FunctionName, marks: &mut Marks) -> Result<(), Memory>
    ensures { OnOk result (MarksNames (spec.function_names name) marks.old marks.new) }
{
    match name {
        FunctionName::Name(name) => marks.add(name),
        FunctionName::Operator(_, _) => Ok(()),
        FunctionName::Juxtaposition(_, _) => Ok(()),
    }
}

/// Marks on the names that a component declares or imports.
fn known_marks(alloc: Global, units: &[Unit], component: &ComponentUnit) -> Result<Marks, Memory>
    ensures { IfOk result (HasMarks (spec.names_known units.now component.now)) }
{
    let mut marks = Marks::new(alloc);
    let declarations = component.parsed.component.declarations.as_slice();
    mark_declared(declarations, &mut marks)?;
    for unit in units {
        mark_imported_from(component, unit, &mut marks)?;
    }
    Ok(marks)
}

/// Marks the names that a component imports from a unit.
fn mark_imported_from(
    component: &ComponentUnit,
    unit: &Unit,
    marks: &mut Marks,
) -> Result<(), Memory>
    ensures { OnOk result (MarksNames (spec.names_imported_from component.now unit.now) marks.old
        marks.new) }
{
    match unit {
        Unit::Component(_) => Ok(()),
        Unit::Api(api) => mark_imported(component, api, marks),
    }
}

/// Marks the names of an API, where a component imports it.
fn mark_imported(component: &ComponentUnit, api: &Api, marks: &mut Marks) -> Result<(), Memory>
    ensures { OnOk result (MarksNames (if imports api.now.name component.now
        then spec.names_of_api api.now else []) marks.old marks.new) }
{
    let imported = imports(component, api.name);
    if imported {
        mark_promised(api.declarations.as_slice(), marks)
    } else {
        Ok(())
    }
}

/// Marks the names of an API's declarations.
fn mark_promised(declarations: &[ApiDeclared], marks: &mut Marks) -> Result<(), Memory>
    ensures { OnOk result (MarksNames (map (λ d. spec.api_name d.declaration) declarations.now)
        marks.old marks.new) }
{
    for declared in declarations {
        marks.add(api_name(&declared.declaration))?;
    }
    Ok(())
}

/// The name of an API's declaration.
fn api_name(declaration: &ApiDeclaration) -> Name
    ensures { result ≡ spec.api_name declaration.now }
{
    match declaration {
        ApiDeclaration::Variable { name, .. } => *name,
        ApiDeclaration::Function(head) => head.name,
        ApiDeclaration::Trait { name, .. } => *name,
        ApiDeclaration::Object { name, .. } => *name,
    }
}

/// Adds the places of the names that a unit uses and neither declares nor imports, of those that
/// some component declares.
fn add_unknown(
    alloc: Global,
    units: &[Unit],
    declared: &Marks,
    unit: &Unit,
    places: &mut List<Place>,
) -> Result<(), Memory>
    requires { HasMarks (flat_map spec.names_declared_in units.now) declared.now }
    ensures { OnOk result (Gathers (spec.UsesUnknown units.now unit.now) places.old places.new) }
{
    match unit {
        Unit::Component(component) => {
            let known = known_marks(alloc, units, component)?;
            let atoms = atom_names(alloc, &component.parsed.component)?;
            add_strangers(&known, declared, atoms.as_slice(), places)?;
            let types = type_names(alloc, &component.parsed.component)?;
            add_strangers(&known, declared, types.as_slice(), places)
        }
        Unit::Api(_) => Ok(()),
    }
}

/// Whether a name is declared and not known.
fn is_stranger(known: &Marks, declared: &Marks, name: Name) -> bool
    ensures { result ≡ (not (is_marked known.now name) && is_marked declared.now name) }
{
    let is_known = known.has(name);
    !is_known && declared.has(name)
}

/// Adds the places of those names that are declared and not known.
fn add_strangers(
    known: &Marks,
    declared: &Marks,
    names: &[Name],
    places: &mut List<Place>,
) -> Result<(), Memory>
    ensures { OnOk result (Gathers (λ place. Any (λ name. IsStranger known.now declared.now name
        place) names.now) places.old places.new) }
{
    for name in names {
        add_stranger(known, declared, *name, places)?;
    }
    Ok(())
}

/// Adds the place of a name, where it is declared and not known.
fn add_stranger(
    known: &Marks,
    declared: &Marks,
    name: Name,
    places: &mut List<Place>,
) -> Result<(), Memory>
    ensures { OnOk result (Gathers (IsStranger known.now declared.now name) places.old places.new) }
{
    let stranger = is_stranger(known, declared, name);
    add_where(stranger, name.spot.place, places)
}
