//! Written types and parameters.
ghost use Rattle.std.specs.Prelude.{◌≡◌, ◌++◌, map, IfOk, OnOk};
ghost use Rattle.fort_tree.specs.Measures.{measured_type, measured_simple_type};
ghost use Rattle.fort_form_meaning.specs.Forming.{next_parameter, parameter, parameters};

use crate::lookup::Lookup;
use fort_base::{List, Memory, Place};
use fort_form::Parameter;
use fort_tree::{NextParameter, Parameter as ParameterTree, Parameters, SimpleType, TypeTree};
use std::alloc::Global;

/// Where the first token of a type stands.
#[tactic(auto, using(crate::proofs::TypePlaces::type_places))]
pub fn type_place(ty: &TypeTree) -> Place
    ensures { result ≡ (measured_type ty.now).spot.place }
{
    match ty {
        TypeTree::Simple(simple) => simple_place(simple),
        TypeTree::Arrow(domain, _, _) => simple_place(domain),
    }
}

/// Where the first token of a simple type stands.
#[tactic(auto, using(crate::proofs::TypePlaces::type_places))]
fn simple_place(simple: &SimpleType) -> Place
    ensures { result ≡ (measured_simple_type simple.now).spot.place }
{
    match simple {
        SimpleType::Named(name) => name.spot.place,
        SimpleType::Array { array, .. } => array.spot.place,
        SimpleType::Parts { left, .. } => left.place,
    }
}

/// The parameters of a function with their types, or want of memory.
pub fn parameters<L: Lookup>(
    alloc: Global,
    lookup: &L,
    list: &Option<Parameters>,
) -> Result<List<Parameter>, Memory>
    ensures { IfOk result (λ made. made ≡ parameters (L.source lookup.now) list.now) }
{
    let mut made = List::new(alloc);
    if let Some(list) = list {
        made.push(parameter(alloc, lookup, &list.first)?)?;
        add_parameters(alloc, lookup, list.others.as_slice(), &mut made)?;
    }
    Ok(made)
}

/// Adds further parameters.
fn add_parameters<L: Lookup>(
    alloc: Global,
    lookup: &L,
    others: &[NextParameter],
    made: &mut List<Parameter>,
) -> Result<(), Memory>
    ensures { OnOk result (made.new
        ≡ made.old ++ map (next_parameter (L.source lookup.now)) others.now) }
{
    for next in others {
        made.push(parameter(alloc, lookup, &next.parameter)?)?;
    }
    Ok(())
}

/// A parameter with its type.
pub fn parameter<L: Lookup>(
    alloc: Global,
    lookup: &L,
    tree: &ParameterTree,
) -> Result<Parameter, Memory>
    ensures { IfOk result (λ made. made ≡ parameter (L.source lookup.now) tree.now) }
{
    Ok(Parameter {
        place: tree.name.spot.place,
        name: tree.name.id,
        ty: lookup.written_type(alloc, &tree.ty)?,
    })
}
