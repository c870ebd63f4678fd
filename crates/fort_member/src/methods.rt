//! Methods, as declarations of overload sets.
ghost use Rattle.std.specs.Prelude.{◌≡◌, ◌++◌, ◌∷◌, ◌+◌, [], length, map, IfOk, OnOk, List as Seq};
ghost use Rattle.std.specs.List.{flat_map};
ghost use Rattle.fort_base.specs.declared.ty.Ty.TheVariants as a_type;
ghost use Rattle.fort_hier.specs.Names.{Spelling};
ghost use Rattle.fort_hier.specs.Numbers.{HoldsNumbers};
ghost use Rattle.fort_hier.specs.Tops.{is_self};
ghost use Rattle.fort_member.specs.Declarations.{method_parameter_type, next_method_parameter_type, method_types, method_parameters, self_among, self_position, owner_position, method_kind, method_member, method_entry, trait_member_entry, trait_entry, object_member_entry, object_entry};

use crate::entries::Entry;
use crate::functions::{name_of_set, place_of_function};
use fort_base::{Bytes, List, Memory, Ty, TypeId};
use fort_hier::{Numbers, is_with_self};
use fort_member_fields::written_type;
use fort_tree::{
    Method, MethodBody, MethodParameter, MethodParameters, NextMethodParameter, ObjectEntry,
    ObjectMember, TraitEntry, TraitMember,
};
use fort_types_sets::{Member, MemberKind};
use std::alloc::Global;

/// Adds the methods of a trait.
pub fn add_trait_methods(
    alloc: Global,
    names: &[Bytes],
    numbers: &Numbers,
    size: usize,
    id: TypeId,
    members: &[TraitEntry],
    entries: &mut List<Entry>,
) -> Result<(), Memory>
    ensures { OnOk result ((list : Seq Spelling) → HoldsNumbers list numbers.now
        → length list ≡ size
        → entries.new ≡ entries.old ++ flat_map (trait_entry list names.now id.0) members.now) }
{
    for entry in members {
        add_trait_member(alloc, names, numbers, size, id, &entry.member, entries)?;
    }
    Ok(())
}

/// Adds a member of a trait, where it is a method.
fn add_trait_member(
    alloc: Global,
    names: &[Bytes],
    numbers: &Numbers,
    size: usize,
    id: TypeId,
    member: &TraitMember,
    entries: &mut List<Entry>,
) -> Result<(), Memory>
    ensures { OnOk result ((list : Seq Spelling) → HoldsNumbers list numbers.now
        → length list ≡ size
        → entries.new ≡ entries.old ++ trait_member_entry list names.now id.0 member.now) }
{
    match member {
        TraitMember::Method(method) => add_method(alloc, names, numbers, size, id, method, entries),
        TraitMember::Field {
            name: _,
            colon: _,
            ty: _,
        } => Ok(()),
    }
}

/// Adds the methods of an object.
pub fn add_object_methods(
    alloc: Global,
    names: &[Bytes],
    numbers: &Numbers,
    size: usize,
    id: TypeId,
    members: &[ObjectEntry],
    entries: &mut List<Entry>,
) -> Result<(), Memory>
    ensures { OnOk result ((list : Seq Spelling) → HoldsNumbers list numbers.now
        → length list ≡ size
        → entries.new ≡ entries.old ++ flat_map (object_entry list names.now id.0) members.now) }
{
    for entry in members {
        add_object_member(alloc, names, numbers, size, id, &entry.member, entries)?;
    }
    Ok(())
}

/// Adds a member of an object, where it is a method.
fn add_object_member(
    alloc: Global,
    names: &[Bytes],
    numbers: &Numbers,
    size: usize,
    id: TypeId,
    member: &ObjectMember,
    entries: &mut List<Entry>,
) -> Result<(), Memory>
    ensures { OnOk result ((list : Seq Spelling) → HoldsNumbers list numbers.now
        → length list ≡ size
        → entries.new ≡ entries.old ++ object_member_entry list names.now id.0 member.now) }
{
    match member {
        ObjectMember::Method(method) => add_method(
            alloc, names, numbers, size, id, method, entries,
        ),
        ObjectMember::Variable(_) => Ok(()),
    }
}

/// Adds a method of a type: a functional one with the type in the place of `self`, a dotted one
/// with it as first parameter.
fn add_method(
    alloc: Global,
    names: &[Bytes],
    numbers: &Numbers,
    size: usize,
    id: TypeId,
    method: &Method,
    entries: &mut List<Entry>,
) -> Result<(), Memory>
    ensures { OnOk result ((list : Seq Spelling) → HoldsNumbers list numbers.now
        → length list ≡ size
        → entries.new ≡ entries.old ++ method_entry list names.now id.0 method.now ∷ []) }
{
    let member = member_of_method(alloc, names, numbers, size, id, method)?;
    entries.push(Entry {
        name: name_of_set(alloc, names, method.name)?,
        dotted: !is_with_self(&method.parameters),
        member,
    })
}

/// A method, without what its set has in common.
fn member_of_method(
    alloc: Global,
    names: &[Bytes],
    numbers: &Numbers,
    size: usize,
    id: TypeId,
    method: &Method,
) -> Result<Member, Memory>
    ensures { IfOk result (λ member. (list : Seq Spelling) → HoldsNumbers list numbers.now
        → length list ≡ size
        → member ≡ method_member list names.now id.0 method.now) }
{
    let parameters = types_of_method(alloc, names, numbers, size, id, method)?;
    let result = written_type(alloc, names, numbers, size, &method.result)?;
    Ok(Member {
        place: Some(place_of_function(method.name)),
        parameters,
        result,
        owner: Some((position_of_owner(method)?, id)),
        kind: kind_of(&method.body),
    })
}

/// The types of a method's parameters, of a dotted one with the receiver first.
fn types_of_method(
    alloc: Global,
    names: &[Bytes],
    numbers: &Numbers,
    size: usize,
    id: TypeId,
    method: &Method,
) -> Result<List<Ty>, Memory>
    ensures { IfOk result (λ types. (list : Seq Spelling) → HoldsNumbers list numbers.now
        → length list ≡ size
        → types ≡ method_parameters list names.now id.0 method.now) }
{
    let mut types = List::new(alloc);
    if is_with_self(&method.parameters) {
        add_parameters(
            alloc,
            names,
            numbers,
            size,
            id,
            &method.parameters,
            &mut types,
        )?;
        return Ok(types);
    }
    types.push(Ty::Named(id))?;
    add_parameters(
        alloc,
        names,
        numbers,
        size,
        id,
        &method.parameters,
        &mut types,
    )?;
    Ok(types)
}

/// The position of `self` in a functional method, or 0, that of a dotted one's receiver.
fn position_of_owner(method: &Method) -> Result<u32, Memory>
    ensures { IfOk result (λ position. position ≡ owner_position method.now) }
{
    if !is_with_self(&method.parameters) {
        return Ok(0);
    }
    position_of_self(&method.parameters)
}

/// What a method is, by its body.
fn kind_of(body: &Option<MethodBody>) -> MemberKind
    ensures { result ≡ method_kind body.now }
{
    match body {
        Some(_) => MemberKind::Concrete,
        None => MemberKind::Abstract,
    }
}

/// Adds the types of a method's parameters.
fn add_parameters(
    alloc: Global,
    names: &[Bytes],
    numbers: &Numbers,
    size: usize,
    id: TypeId,
    parameters: &Option<MethodParameters>,
    types: &mut List<Ty>,
) -> Result<(), Memory>
    ensures { OnOk result ((list : Seq Spelling) → HoldsNumbers list numbers.now
        → length list ≡ size
        → types.new ≡ types.old ++ method_types list names.now (a_type.Named id) parameters.now) }
{
    match parameters {
        Some(list) => {
            types.push(type_of_parameter(alloc, names, numbers, size, id, &list.first)?)?;
            add_next_parameters(
                alloc,
                names,
                numbers,
                size,
                id,
                list.others.as_slice(),
                types,
            )
        }
        None => Ok(()),
    }
}

/// Adds the types of a method's further parameters.
fn add_next_parameters(
    alloc: Global,
    names: &[Bytes],
    numbers: &Numbers,
    size: usize,
    id: TypeId,
    others: &[NextMethodParameter],
    types: &mut List<Ty>,
) -> Result<(), Memory>
    ensures { OnOk result ((list : Seq Spelling) → HoldsNumbers list numbers.now
        → length list ≡ size
        → types.new
        ≡ types.old
        ++ map (next_method_parameter_type list names.now (a_type.Named id)) others.now) }
{
    for next in others {
        types.push(type_of_parameter(alloc, names, numbers, size, id, &next.parameter)?)?;
    }
    Ok(())
}

/// The type of a method's parameter: the written one, or of `self` the type that declares the
/// method.
fn type_of_parameter(
    alloc: Global,
    names: &[Bytes],
    numbers: &Numbers,
    size: usize,
    id: TypeId,
    parameter: &MethodParameter,
) -> Result<Ty, Memory>
    ensures { IfOk result (λ ty. (list : Seq Spelling) → HoldsNumbers list numbers.now
        → length list ≡ size
        → ty ≡ method_parameter_type list names.now (a_type.Named id) parameter.now) }
{
    match parameter {
        MethodParameter::Parameter(written) => {
            written_type(alloc, names, numbers, size, &written.ty)
        }
        MethodParameter::Self_(_) => Ok(Ty::Named(id)),
    }
}

/// The position of the first `self`, or want of memory where it is none of 32 bits.
fn position_of_self(parameters: &Option<MethodParameters>) -> Result<u32, Memory>
    ensures { IfOk result (λ position. position ≡ self_position parameters.now) }
{
    match parameters {
        Some(list) => {
            if is_the_self(&list.first) {
                return Ok(0);
            }
            position_behind(list.others.as_slice())
        }
        None => Ok(0),
    }
}

/// The position of the first `self` behind a first parameter that is none.
fn position_behind(others: &[NextMethodParameter]) -> Result<u32, Memory>
    ensures { IfOk result (λ position. position ≡ 1 + self_among others.now) }
{
    let mut position = 1;
    for next in others {
        if is_the_self(&next.parameter) {
            return Ok(position);
        }
        if position == u32::MAX {
            return Err(Memory);
        }
        position += 1;
    }
    Ok(position)
}

/// Whether a parameter is `self`.
fn is_the_self(parameter: &MethodParameter) -> bool
    ensures { result ≡ is_self parameter.now }
{
    match parameter {
        MethodParameter::Parameter(_) => false,
        MethodParameter::Self_(_) => true,
    }
}
