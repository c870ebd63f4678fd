//! The component that several are together.
ghost use Rattle.std.specs.Prelude.{◌≡◌, [], ◌∷◌, IfOk};
ghost use Rattle.std.specs.Option.{option_or};
ghost use Rattle.fort_tree.specs.Tokens.{is_spelled};
ghost use Rattle.fort_link.specs.Whole as spec;

use fort_base::{Bytes, List, Memory};
use fort_link_units::{ComponentUnit, Unit};
use fort_tree::{Declared, Export, Name, Spot};
use std::alloc::Global;
use std::mem;

/// The head of a component that exports `Executable`.
#[derive(Clone, Copy)]
pub struct Head {
    pub component: Spot,
    pub name: Name,
    pub export: Export,
}

/// Whether a name is `Executable`.
fn is_executable(names: &[Bytes], name: Name) -> bool
    ensures { result ≡ is_spelled "Executable" names.now name }
{
    match names.get(name.id.0 as usize) {
        Some(spelling) => spelling.as_slice() == b"Executable".as_slice(),
        None => false,
    }
}

/// The first export of `Executable`.
fn executable(names: &[Bytes], exports: &[Export]) -> Option<Export>
    ensures { result ≡ spec.executable names.now exports.now }
{
    for export in exports {
        if is_executable(names, export.name) {
            return Some(*export);
        }
    }
    None
}

/// The head of a component that exports `Executable`.
fn head_of(names: &[Bytes], unit: &ComponentUnit) -> Option<Head>
    ensures { result ≡ spec.head_of names.now unit.now }
{
    let component = &unit.parsed.component;
    match executable(names, unit.exports.as_slice()) {
        Some(export) => Some(Head {
            component: component.component,
            name: component.name,
            export,
        }),
        None => None,
    }
}

/// The head of the component that exports `Executable`.
pub fn main_head(names: &[Bytes], units: &[Unit]) -> Option<Head>
    ensures { result ≡ spec.main_head names.now (spec.components units.now) }
{
    for unit in units {
        if let Unit::Component(component) = unit {
            if let Some(head) = head_of(names, component) {
                return Some(head);
            }
        }
    }
    None
}

/// The `end` of the last component.
pub fn last_end(units: &[Unit]) -> Option<Spot>
    ensures { result ≡ spec.last_end (spec.components units.now) }
{
    let mut end = None;
    for unit in units {
        end = end_behind(end, unit);
    }
    end
}

/// The `end` of a unit that is a component, or else the one before it.
fn end_behind(before: Option<Spot>, unit: &Unit) -> Option<Spot>
    ensures { result ≡ option_or (spec.last_end (spec.components (unit.now ∷ []))) before }
{
    match unit {
        Unit::Component(component) => Some(component.parsed.component.end),
        Unit::Api(_) => before,
    }
}

/// The declarations of all components, one behind another: where the last one of a component has
/// no `;` and a declaration of a later one follows, the component's `end` is that `;`.
pub fn declarations(alloc: Global, mut units: List<Unit>) -> Result<List<Declared>, Memory>
    ensures { IfOk result
        (λ ds. ds ≡ spec.all_declared_before (spec.components units) []) }
{
    let mut others = List::new(alloc);
    while let Some(unit) = units.pop() {
        others = unit_before(alloc, unit, others)?;
    }
    Ok(others)
}

/// The declarations of a unit before others; an API has none.
fn unit_before(alloc: Global, unit: Unit, others: List<Declared>) -> Result<List<Declared>, Memory>
    ensures { IfOk result
        (λ ds. ds ≡ spec.all_declared_before (spec.components (unit ∷ [])) others) }
{
    match unit {
        Unit::Component(component) => declared_before(alloc, component, others),
        Unit::Api(_) => Ok(others),
    }
}

/// The declarations of a component before others.
fn declared_before(
    alloc: Global,
    mut unit: ComponentUnit,
    others: List<Declared>,
) -> Result<List<Declared>, Memory>
    ensures { IfOk result (λ ds. ds ≡ spec.declared_before unit others) }
{
    let end = unit.parsed.component.end;
    let component = &mut unit.parsed.component;
    let mut declarations = mem::replace(&mut component.declarations, List::new(alloc));
    if !others.is_empty() {
        declarations = closed(declarations, end)?;
        declarations.append(others)?;
    }
    Ok(declarations)
}

/// Declarations whose last one has a `;`, its own or else this one.
fn closed(mut declarations: List<Declared>, end: Spot) -> Result<List<Declared>, Memory>
    ensures { IfOk result (λ ds. ds ≡ spec.closed declarations end) }
{
    match declarations.pop() {
        Some(last) => {
            let Declared {
                declaration,
                semicolon,
            } = last;
            declarations.push(Declared {
                declaration,
                semicolon: with_semicolon(semicolon, end),
            })?;
            Ok(declarations)
        }
        None => Ok(declarations),
    }
}

/// A declaration's own `;`, or else this one.
fn with_semicolon(own: Option<Spot>, end: Spot) -> Option<Spot>
    ensures { result ≡ spec.with_semicolon own end }
{
    match own {
        Some(own) => Some(own),
        None => Some(end),
    }
}
