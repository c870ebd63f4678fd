//! What a typed form keeps of the form: names, types and parameters.
ghost use Rattle.std.specs.Prelude.{◌≡◌, IfOk, map};
ghost use Rattle.fort_typing_known.specs.Read.{facts};
ghost use Rattle.fort_typing_rules.specs.Types.{parameter_type, tuple_of};
ghost use Rattle.fort_typing_rules.specs.Typing.{clause_type, generator_name};
ghost use Rattle.fort_typing_meaning.specs.Tests.{widest as widest_type};

use fort_base::{List, Memory, NameId, Ty};
use fort_form::{Generator, Parameter, TypeBranch};
use fort_typing_known::Known;
use fort_typing_parts::widest;
use std::alloc::Global;

/// The names of generators, and whether each is in order.
pub fn names(alloc: Global, generators: &[Generator]) -> Result<List<(NameId, bool)>, Memory>
    ensures { IfOk result (λ names. names ≡ map generator_name generators.now) }
{
    let mut names = List::new(alloc);
    for generator in generators {
        names.push((generator.name, generator.sequential))?;
    }
    Ok(names)
}

/// The types of clauses.
pub fn clause_types(alloc: Global, clauses: &[TypeBranch]) -> Result<List<Ty>, Memory>
    ensures { IfOk result (λ types. types ≡ map clause_type clauses.now) }
{
    let mut types = List::new(alloc);
    for clause in clauses {
        types.push(clause.ty.copy(alloc)?)?;
    }
    Ok(types)
}

/// The types of parameters.
fn parameter_types(alloc: Global, parameters: &[Parameter]) -> Result<List<Ty>, Memory>
    ensures { IfOk result (λ types. types ≡ map parameter_type parameters.now) }
{
    let mut types = List::new(alloc);
    for parameter in parameters {
        types.push(parameter.ty.copy(alloc)?)?;
    }
    Ok(types)
}

/// What a function with these parameters takes: the type of the one, or the tuple of their types.
pub fn domain(alloc: Global, parameters: &[Parameter]) -> Result<Ty, Memory>
    ensures { IfOk result (λ ty. ty ≡ tuple_of (map parameter_type parameters.now)) }
{
    if let [parameter] = parameters {
        return parameter.ty.copy(alloc);
    }
    Ok(Ty::Tuple(parameter_types(alloc, parameters)?))
}

/// An equal parameter.
fn copied(alloc: Global, parameter: &Parameter) -> Result<Parameter, Memory>
    ensures { IfOk result (λ copy. copy ≡ parameter.now) }
{
    Ok(Parameter {
        place: parameter.place,
        name: parameter.name,
        ty: parameter.ty.copy(alloc)?,
    })
}

/// Equal parameters.
pub fn parameters(alloc: Global, parameters: &[Parameter]) -> Result<List<Parameter>, Memory>
    ensures { IfOk result (λ copies. copies ≡ parameters.now) }
{
    let mut copies = List::new(alloc);
    for parameter in parameters {
        copies.push(copied(alloc, parameter)?)?;
    }
    Ok(copies)
}

/// The widest type of several, in memory of its own.
pub fn widest_of(alloc: Global, known: &Known, types: &List<Ty>) -> Result<Option<Ty>, Memory>
    ensures { IfOk result (λ ty. ty ≡ widest_type (facts known.now) types.now) }
{
    match widest(known, types.as_slice()) {
        Some(ty) => Ok(Some(ty.copy(alloc)?)),
        None => Ok(None),
    }
}
