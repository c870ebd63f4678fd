//! Methods that have a body.
ghost use Rattle.std.specs.Prelude.{◌≡◌, ◌++◌, ◌+◌, IfOk, OnOk};
ghost use Rattle.std.specs.List.{flat_map};
ghost use Rattle.fort_hier.specs.Tops.{is_self};
ghost use Rattle.fort_member.specs.Declarations.{owner_position, self_among, self_position};
ghost use Rattle.fort_form_walk.specs.FormsOf.{method_bodies, method_body, named_parameter, named_parameters, next_named_parameter};
ghost use Rattle.fort_form_walk.specs.Reading.{tables};

use crate::bodies::function_place;
use crate::tables::Tables;
use crate::walk::form;
use fort_base::{List, Memory, TypeId};
use fort_form::{BodyForm, Parameter};
use fort_form_meaning::{Lookup, parameter};
use fort_hier::is_with_self;
use fort_tree::{Method, MethodBody, MethodParameter, MethodParameters, NextMethodParameter};
use std::alloc::Global;

/// Adds a method, where it has a body.
pub fn add_method(
    alloc: Global,
    lookup: &Tables,
    id: TypeId,
    method: &Method,
    made: &mut List<BodyForm>,
) -> Result<(), Memory>
    ensures { OnOk result (made.new
        ≡ made.old ++ method_bodies (tables lookup.now) id method.now method.now.body) }
{
    match &method.body {
        None => Ok(()),
        Some(body) => made.push(method_body(alloc, lookup, id, method, body)?),
    }
}

/// A method with its body.
fn method_body(
    alloc: Global,
    lookup: &Tables,
    id: TypeId,
    method: &Method,
    body: &MethodBody,
) -> Result<BodyForm, Memory>
    ensures { IfOk result (λ made. made ≡ method_body (tables lookup.now) id method.now body.now) }
{
    Ok(BodyForm {
        place: function_place(method.name),
        owner: Some(id),
        parameters: named_parameters(alloc, lookup, &method.parameters)?,
        receiver: Some(position(method)?),
        result: lookup.written_type(alloc, &method.result)?,
        body: form(alloc, lookup, &body.body)?,
    })
}

/// The parameters that have names.
fn named_parameters(
    alloc: Global,
    lookup: &Tables,
    list: &Option<MethodParameters>,
) -> Result<List<Parameter>, Memory>
    ensures { IfOk result (λ made. made ≡ named_parameters (tables lookup.now) list.now) }
{
    let mut made = List::new(alloc);
    if let Some(list) = list {
        add_named(alloc, lookup, &list.first, &mut made)?;
        add_others(alloc, lookup, list.others.as_slice(), &mut made)?;
    }
    Ok(made)
}

/// Adds further parameters that have names.
fn add_others(
    alloc: Global,
    lookup: &Tables,
    others: &[NextMethodParameter],
    made: &mut List<Parameter>,
) -> Result<(), Memory>
    ensures { OnOk result (made.new
        ≡ made.old ++ flat_map (next_named_parameter (tables lookup.now)) others.now) }
{
    for next in others {
        add_named(alloc, lookup, &next.parameter, made)?;
    }
    Ok(())
}

/// Adds a parameter, where it has a name.
fn add_named(
    alloc: Global,
    lookup: &Tables,
    tree: &MethodParameter,
    made: &mut List<Parameter>,
) -> Result<(), Memory>
    ensures { OnOk result (made.new ≡ made.old ++ named_parameter (tables lookup.now) tree.now) }
{
    match tree {
        MethodParameter::Parameter(tree) => made.push(parameter(alloc, lookup, tree)?),
        MethodParameter::Self_(_) => Ok(()),
    }
}

/// The position of `self` in a functional method, or 0, that of a dotted one's receiver; want of
/// memory where it is none of 32 bits.
fn position(method: &Method) -> Result<u32, Memory>
    ensures { IfOk result (λ position. position ≡ owner_position method.now) }
{
    if !is_with_self(&method.parameters) {
        return Ok(0);
    }
    position_of_self(&method.parameters)
}

/// The position of the first `self`.
fn position_of_self(parameters: &Option<MethodParameters>) -> Result<u32, Memory>
    ensures { IfOk result (λ position. position ≡ self_position parameters.now) }
{
    match parameters {
        Some(list) => {
            if is_the_self(&list.first) {
                return Ok(0);
            }
            position_behind(list.others.as_slice())
        }
        None => Ok(0),
    }
}

/// The position of the first `self` behind a first parameter that is none.
#[tactic(auto, using(fort_member::proofs::SelfLaws::self_more, fort_member::proofs::SelfLaws::self_here, fort_member::proofs::SelfLaws::self_none))]
fn position_behind(others: &[NextMethodParameter]) -> Result<u32, Memory>
    ensures { IfOk result (λ position. position ≡ 1 + self_among others.now) }
{
    let mut position = 1;
    for next in others {
        if is_the_self(&next.parameter) {
            return Ok(position);
        }
        if position == u32::MAX {
            return Err(Memory);
        }
        position += 1;
    }
    Ok(position)
}

/// Whether a parameter is `self`.
fn is_the_self(parameter: &MethodParameter) -> bool
    ensures { result ≡ is_self parameter.now }
{
    match parameter {
        MethodParameter::Parameter(_) => false,
        MethodParameter::Self_(_) => true,
    }
}
