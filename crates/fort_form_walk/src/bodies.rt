//! The functions, and the methods that have a body.
ghost use Rattle.std.specs.Prelude.{◌≡◌, ◌++◌, IfOk, OnOk};
ghost use Rattle.std.specs.List.{flat_map};
ghost use Rattle.fort_member.specs.Declarations.{function_place};
ghost use Rattle.fort_form_walk.specs.FormsOf.{bodies, declared_bodies, function_body, object_body, object_member_body, trait_body, trait_member_body};
ghost use Rattle.fort_form_walk.specs.Reading.{tables};

use crate::initials::owner;
use crate::methods::add_method;
use crate::tables::Tables;
use crate::walk::form;
use fort_base::{List, Memory, Place, TypeId};
use fort_form::BodyForm;
use fort_form_meaning::{Lookup, parameters};
use fort_tree::{
    Declaration, Declared, Function, FunctionName, ObjectEntry, ObjectMember, TraitEntry,
    TraitMember,
};
use std::alloc::Global;

/// The bodies of a component's declarations, in their order, or want of memory.
pub fn bodies(
    alloc: Global,
    lookup: &Tables,
    declarations: &[Declared],
) -> Result<List<BodyForm>, Memory>
    ensures { IfOk result (λ made. made
        ≡ flat_map (declared_bodies (tables lookup.now)) declarations.now) }
{
    let mut made = List::new(alloc);
    for declared in declarations {
        add_bodies(alloc, lookup, &declared.declaration, &mut made)?;
    }
    Ok(made)
}

/// Adds the bodies of a declaration.
fn add_bodies(
    alloc: Global,
    lookup: &Tables,
    declaration: &Declaration,
    made: &mut List<BodyForm>,
) -> Result<(), Memory>
    ensures { OnOk result (made.new ≡ made.old ++ bodies (tables lookup.now) declaration.now) }
{
    match declaration {
        Declaration::Variable(_) => Ok(()),
        Declaration::Function(function) => made.push(function_body(alloc, lookup, function)?),
        Declaration::Trait(declared) => {
            let id = owner(lookup, declared.name)?;
            add_trait_methods(alloc, lookup, id, declared.members.as_slice(), made)
        }
        Declaration::Object(declared) => {
            let id = owner(lookup, declared.name)?;
            add_object_methods(alloc, lookup, id, declared.members.as_slice(), made)
        }
    }
}

/// A function with its body.
fn function_body(alloc: Global, lookup: &Tables, function: &Function) -> Result<BodyForm, Memory>
    ensures { IfOk result (λ made. made ≡ function_body (tables lookup.now) function.now) }
{
    Ok(BodyForm {
        place: function_place(function.name),
        owner: None,
        parameters: parameters(alloc, lookup, &function.parameters)?,
        receiver: None,
        result: lookup.written_type(alloc, &function.result)?,
        body: form(alloc, lookup, &function.body)?,
    })
}

/// Adds the methods of a trait that have a body.
fn add_trait_methods(
    alloc: Global,
    lookup: &Tables,
    id: TypeId,
    members: &[TraitEntry],
    made: &mut List<BodyForm>,
) -> Result<(), Memory>
    ensures { OnOk result (made.new
        ≡ made.old ++ flat_map (trait_body (tables lookup.now) id) members.now) }
{
    for entry in members {
        add_of_trait(alloc, lookup, id, &entry.member, made)?;
    }
    Ok(())
}

/// Adds a member of a trait, where it is a method that has a body.
fn add_of_trait(
    alloc: Global,
    lookup: &Tables,
    id: TypeId,
    member: &TraitMember,
    made: &mut List<BodyForm>,
) -> Result<(), Memory>
    ensures { OnOk result (made.new
        ≡ made.old ++ trait_member_body (tables lookup.now) id member.now) }
{
    match member {
        TraitMember::Field { .. } => Ok(()),
        TraitMember::Method(method) => add_method(alloc, lookup, id, method, made),
    }
}

/// Adds the methods of an object.
fn add_object_methods(
    alloc: Global,
    lookup: &Tables,
    id: TypeId,
    members: &[ObjectEntry],
    made: &mut List<BodyForm>,
) -> Result<(), Memory>
    ensures { OnOk result (made.new
        ≡ made.old ++ flat_map (object_body (tables lookup.now) id) members.now) }
{
    for entry in members {
        add_of_object(alloc, lookup, id, &entry.member, made)?;
    }
    Ok(())
}

/// Adds a member of an object, where it is a method that has a body.
fn add_of_object(
    alloc: Global,
    lookup: &Tables,
    id: TypeId,
    member: &ObjectMember,
    made: &mut List<BodyForm>,
) -> Result<(), Memory>
    ensures { OnOk result (made.new
        ≡ made.old ++ object_member_body (tables lookup.now) id member.now) }
{
    match member {
        ObjectMember::Variable(_) => Ok(()),
        ObjectMember::Method(method) => add_method(alloc, lookup, id, method, made),
    }
}

/// The place of a function or method, that of its first token.
pub fn function_place(name: FunctionName) -> Place
    ensures { result ≡ function_place name }
{
    match name {
        FunctionName::Name(name) => name.spot.place,
        FunctionName::Operator(opr, _) => opr.place,
        FunctionName::Juxtaposition(opr, _) => opr.place,
    }
}
