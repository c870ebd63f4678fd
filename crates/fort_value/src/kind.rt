//! The type of a value, and whether a value has a type.
ghost use Rattle.std.specs.Prelude.{◌≡◌, true, false, map, IfOk};
ghost use Rattle.fort_types.specs.Relation.{each_below, relation};
ghost use Rattle.fort_machine.specs.Types.{all_below, domain_of, has_type as has, type_of as type_at};

use crate::order::{related, set};
use fort_base::{Boxed, List, Memory, Ty, TypeId};
use fort_core::{Closure, Program, Value};
use std::alloc::Global;

/// The type of a value: an object's is the one that it names, an array's that of arrays of its
/// elements, a tuple's the tuple of its parts' types, a function's the arrow from what it takes to
/// its result. The chapter "Values".
///
/// # Errors
///
/// `Memory` where memory is wanting.
#[cycle(type_of)]
pub fn type_of(alloc: Global, program: &Program, value: &Value) -> Result<Ty, Memory>
    ensures { IfOk result (λ ty. ty ≡ type_at program.now value.now) }
{
    match value {
        Value::Small(_) => Ok(Ty::Named(program.built_in.small)),
        Value::Large(_) => Ok(Ty::Named(program.built_in.large)),
        Value::Truth(_) => Ok(Ty::Named(program.built_in.truth)),
        Value::Text(_) => Ok(Ty::Named(program.built_in.text)),
        Value::Tuple(parts) => Ok(Ty::Tuple(types_of(alloc, program, parts.get())?)),
        Value::Range(_, _) => Ok(Ty::Named(program.built_in.range)),
        Value::Object(ty, _) => Ok(Ty::Named(*ty)),
        Value::Array(element, _, _) => array_of(alloc, element.get()),
        Value::Function(closure) => arrow_of(alloc, closure.get()),
    }
}

#[cycle(type_of)]
fn types_of(alloc: Global, program: &Program, values: &List<Value>) -> Result<List<Ty>, Memory>
    ensures { IfOk result (λ types. types ≡ map (type_at program.now) values.now) }
{
    let mut types = List::new(alloc);
    for value in values.as_slice() {
        types.push(type_of(alloc, program, value)?)?;
    }
    Ok(types)
}

fn array_of(alloc: Global, element: &Ty) -> Result<Ty, Memory>
    ensures { IfOk result (λ ty. ty ≡ Ty.Array element.now) }
{
    Ok(Ty::Array(Boxed::new(alloc, element.copy(alloc)?)?))
}

fn arrow_of(alloc: Global, closure: &Closure) -> Result<Ty, Memory>
    ensures { IfOk result (λ ty. ty
        ≡ Ty.Arrow (domain_of closure.now.parameters) closure.now.result) }
{
    let domain = Boxed::new(alloc, domain(alloc, closure.parameters.get())?)?;
    Ok(Ty::Arrow(
        domain,
        Boxed::new(alloc, closure.result.get().copy(alloc)?)?,
    ))
}

// What a function takes.
fn domain(alloc: Global, parameters: &List<(u32, Ty)>) -> Result<Ty, Memory>
    ensures { IfOk result (λ ty. ty ≡ domain_of parameters.now) }
{
    let all = parameters.as_slice();
    if all.len() == 1 {
        return all[0].1.copy(alloc);
    }
    Ok(Ty::Tuple(parameter_types(alloc, parameters)?))
}

fn parameter_types(alloc: Global, parameters: &List<(u32, Ty)>) -> Result<List<Ty>, Memory>
    ensures { IfOk result (λ types. types ≡ map (λ parameter. parameter.1) parameters.now) }
{
    let mut types = List::new(alloc);
    for parameter in parameters.as_slice() {
        types.push(parameter.1.copy(alloc)?)?;
    }
    Ok(types)
}

/// Whether a value has a type: its own is below that one, by the program's rows. It takes no
/// memory. The chapter "Values".
#[inline(always)]
#[cycle(has_type)]
pub fn has_type(program: &Program, value: &Value, ty: &Ty) -> bool
    ensures { result ≡ has program.now value.now ty.now }
{
    match value {
        Value::Small(_) => declared_has(program, program.built_in.small, ty),
        Value::Large(_) => declared_has(program, program.built_in.large, ty),
        Value::Truth(_) => declared_has(program, program.built_in.truth, ty),
        Value::Text(_) => declared_has(program, program.built_in.text, ty),
        Value::Tuple(parts) => tuple_has(program, parts.get(), ty),
        Value::Range(_, _) => declared_has(program, program.built_in.range, ty),
        Value::Object(id, _) => declared_has(program, *id, ty),
        Value::Array(element, _, _) => array_has(program, element.get(), ty),
        Value::Function(closure) => function_has(program, closure.get(), ty),
    }
}

#[inline(always)]
fn declared_has(program: &Program, id: TypeId, ty: &Ty) -> bool
    ensures { result ≡ relation program.now.types.below (Ty.Named id) true ty.now }
{
    match ty {
        Ty::Any => true,
        Ty::Named(other) => set(&program.types.below, id, *other),
        _ => false,
    }
}

#[inline(never)]
#[cycle(has_type)]
fn tuple_has(program: &Program, parts: &List<Value>, ty: &Ty) -> bool
    ensures { result
        ≡ relation program.now.types.below (Ty.Tuple (map (type_at program.now) parts.now)) true
        ty.now }
{
    match ty {
        Ty::Any => true,
        Ty::Tuple(types) => all_have(program, parts, types),
        _ => false,
    }
}

/// Whether there are as many values as types, and each value has the type in its place. It takes no
/// memory. The chapter "Calls".
#[cycle(has_type)]
pub fn all_have(program: &Program, parts: &List<Value>, types: &List<Ty>) -> bool
    ensures { result ≡ all_below program.now (map (type_at program.now) parts.now) types.now }
{
    let left = parts.as_slice();
    let right = types.as_slice();
    if left.len() != right.len() {
        return false;
    }
    for i in 0..left.len() {
        if !has_type(program, &left[i], &right[i]) {
            return false;
        }
    }
    true
}

#[inline(never)]
fn array_has(program: &Program, element: &Ty, ty: &Ty) -> bool
    ensures { result ≡ relation program.now.types.below (Ty.Array element.now) true ty.now }
{
    match ty {
        Ty::Any => true,
        Ty::Array(other) => {
            related(&program.types.below, true, element, other.get())
                && related(&program.types.below, false, element, other.get())
        }
        _ => false,
    }
}

#[inline(never)]
fn function_has(program: &Program, closure: &Closure, ty: &Ty) -> bool
    ensures { result
        ≡ relation program.now.types.below
        (Ty.Arrow (domain_of closure.now.parameters) closure.now.result) true ty.now }
{
    match ty {
        Ty::Any => true,
        Ty::Arrow(from, to) => {
            takes(program, closure.parameters.get(), from.get())
                && related(&program.types.below, true, closure.result.get(), to.get())
        }
        _ => false,
    }
}

// Whether a type is below what a function takes.
fn takes(program: &Program, parameters: &List<(u32, Ty)>, ty: &Ty) -> bool
    ensures { result ≡ relation program.now.types.below (domain_of parameters.now) false ty.now }
{
    let all = parameters.as_slice();
    if all.len() == 1 {
        return related(&program.types.below, false, &all[0].1, ty);
    }
    match ty {
        Ty::Nothing => true,
        Ty::Tuple(types) => take_all(program, parameters, types),
        _ => false,
    }
}

fn take_all(program: &Program, parameters: &List<(u32, Ty)>, types: &List<Ty>) -> bool
    ensures { result
        ≡ each_below
        (map (relation program.now.types.below) (map (λ parameter. parameter.1) parameters.now))
        false types.now }
{
    let left = parameters.as_slice();
    let right = types.as_slice();
    if left.len() != right.len() {
        return false;
    }
    for i in 0..left.len() {
        if !related(&program.types.below, false, &left[i].1, &right[i]) {
            return false;
        }
    }
    true
}
