//! The fields that each type declares.
ghost use Rattle.std.specs.Prelude.{◌≡◌, ◌++◌, ◌∷◌, [], length, map, replicate, IfOk, OnOk, List as Seq};
ghost use Rattle.std.specs.List.{flat_map};
ghost use Rattle.fort_hier.specs.Names.{Spelling};
ghost use Rattle.fort_hier.specs.Numbers.{HoldsNumbers};
ghost use Rattle.fort_member_fields.specs.Own.{first_place, becomes, variable_field, parameter_field, next_field, list_fields, parameter_fields, object_member_field, object_field, trait_member_field, trait_field, own_of, declared_own};

use crate::written::written_type;
use fort_base::{Bytes, List, Memory, Place};
use fort_hier::Numbers;
use fort_tree::{
    Declaration, Declared, InitialSign, Name, NextObjectParameter, ObjectEntry, ObjectMember,
    ObjectParameter, ObjectParameterList, ObjectParameters, Spot, TraitEntry, TraitMember,
    Variable,
};
use fort_types_builtin::TYPE_COUNT;
use fort_types_sets::Field;
use std::alloc::Global;

/// The fields that each type declares, by the types' numbers; the size is that of the list of
/// numbered names.
pub fn own_in(
    alloc: Global,
    names: &[Bytes],
    numbers: &Numbers,
    size: usize,
    declarations: &[Declared],
) -> Result<List<List<Field>>, Memory>
    ensures { IfOk result (λ own. (list : Seq Spelling) → HoldsNumbers list numbers.now
        → length list ≡ size
        → own ≡ replicate TYPE_COUNT []
        ++ flat_map (declared_own list names.now) declarations.now) }
{
    let mut own = none_built_in(alloc)?;
    for declared in declarations {
        add_own(alloc, names, numbers, size, &declared.declaration, &mut own)?;
    }
    Ok(own)
}

/// The built-in types declare no field.
fn none_built_in(alloc: Global) -> Result<List<List<Field>>, Memory>
    ensures { IfOk result (λ own. own ≡ replicate TYPE_COUNT []) }
{
    let mut own = List::new(alloc);
    for number in 0..TYPE_COUNT {
        own.push(List::new(alloc))?;
    }
    Ok(own)
}

/// Adds the fields of a declaration, where it declares a type.
fn add_own(
    alloc: Global,
    names: &[Bytes],
    numbers: &Numbers,
    size: usize,
    declaration: &Declaration,
    own: &mut List<List<Field>>,
) -> Result<(), Memory>
    ensures { OnOk result ((list : Seq Spelling) → HoldsNumbers list numbers.now
        → length list ≡ size
        → own.new ≡ own.old ++ own_of list names.now declaration.now) }
{
    match declaration {
        Declaration::Trait(declared) => {
            let mut fields = List::new(alloc);
            add_trait_fields(
                alloc,
                names,
                numbers,
                size,
                declared.members.as_slice(),
                &mut fields,
            )?;
            own.push(fields)
        }
        Declaration::Object(declared) => {
            let mut fields = List::new(alloc);
            add_parameters(
                alloc,
                names,
                numbers,
                size,
                &declared.parameters,
                &mut fields,
            )?;
            add_object_fields(
                alloc,
                names,
                numbers,
                size,
                declared.members.as_slice(),
                &mut fields,
            )?;
            own.push(fields)
        }
        Declaration::Variable(_) => Ok(()),
        Declaration::Function(_) => Ok(()),
    }
}

/// Adds the fields of a trait.
fn add_trait_fields(
    alloc: Global,
    names: &[Bytes],
    numbers: &Numbers,
    size: usize,
    members: &[TraitEntry],
    fields: &mut List<Field>,
) -> Result<(), Memory>
    ensures { OnOk result ((list : Seq Spelling) → HoldsNumbers list numbers.now
        → length list ≡ size
        → fields.new ≡ fields.old ++ flat_map (trait_field list names.now) members.now) }
{
    for entry in members {
        add_trait_member(alloc, names, numbers, size, &entry.member, fields)?;
    }
    Ok(())
}

/// Adds a member of a trait, where it is a field.
fn add_trait_member(
    alloc: Global,
    names: &[Bytes],
    numbers: &Numbers,
    size: usize,
    member: &TraitMember,
    fields: &mut List<Field>,
) -> Result<(), Memory>
    ensures { OnOk result ((list : Seq Spelling) → HoldsNumbers list numbers.now
        → length list ≡ size
        → fields.new ≡ fields.old ++ trait_member_field list names.now member.now) }
{
    match member {
        TraitMember::Field { name, colon: _, ty } => fields.push(Field {
            name: name.id,
            place: name.spot.place,
            ty: written_type(alloc, names, numbers, size, ty)?,
            mutable: false,
        }),
        TraitMember::Method(_) => Ok(()),
    }
}

/// Adds the fields of an object's body.
fn add_object_fields(
    alloc: Global,
    names: &[Bytes],
    numbers: &Numbers,
    size: usize,
    members: &[ObjectEntry],
    fields: &mut List<Field>,
) -> Result<(), Memory>
    ensures { OnOk result ((list : Seq Spelling) → HoldsNumbers list numbers.now
        → length list ≡ size
        → fields.new ≡ fields.old ++ flat_map (object_field list names.now) members.now) }
{
    for entry in members {
        add_object_member(alloc, names, numbers, size, &entry.member, fields)?;
    }
    Ok(())
}

/// Adds a member of an object, where it is a field.
fn add_object_member(
    alloc: Global,
    names: &[Bytes],
    numbers: &Numbers,
    size: usize,
    member: &ObjectMember,
    fields: &mut List<Field>,
) -> Result<(), Memory>
    ensures { OnOk result ((list : Seq Spelling) → HoldsNumbers list numbers.now
        → length list ≡ size
        → fields.new ≡ fields.old ++ object_member_field list names.now member.now) }
{
    match member {
        ObjectMember::Variable(variable) => {
            fields.push(field_of_variable(alloc, names, numbers, size, variable)?)
        }
        ObjectMember::Method(_) => Ok(()),
    }
}

/// A variable, at the top or in an object.
pub fn field_of_variable(
    alloc: Global,
    names: &[Bytes],
    numbers: &Numbers,
    size: usize,
    variable: &Variable,
) -> Result<Field, Memory>
    ensures { IfOk result (λ field. (list : Seq Spelling) → HoldsNumbers list numbers.now
        → length list ≡ size
        → field ≡ variable_field list names.now variable.now) }
{
    Ok(Field {
        name: variable.name.id,
        place: place_of(variable.var, variable.name),
        ty: written_type(alloc, names, numbers, size, &variable.ty)?,
        mutable: variable.var.is_some() || is_becomes(variable.sign),
    })
}

/// Adds the value parameters of an object, which are fields.
fn add_parameters(
    alloc: Global,
    names: &[Bytes],
    numbers: &Numbers,
    size: usize,
    parameters: &Option<ObjectParameters>,
    fields: &mut List<Field>,
) -> Result<(), Memory>
    ensures { OnOk result ((list : Seq Spelling) → HoldsNumbers list numbers.now
        → length list ≡ size
        → fields.new ≡ fields.old ++ parameter_fields list names.now parameters.now) }
{
    match parameters {
        Some(held) => add_list(alloc, names, numbers, size, &held.parameters, fields),
        None => Ok(()),
    }
}

/// Adds a list of value parameters.
fn add_list(
    alloc: Global,
    names: &[Bytes],
    numbers: &Numbers,
    size: usize,
    parameters: &Option<ObjectParameterList>,
    fields: &mut List<Field>,
) -> Result<(), Memory>
    ensures { OnOk result ((list : Seq Spelling) → HoldsNumbers list numbers.now
        → length list ≡ size
        → fields.new ≡ fields.old ++ list_fields list names.now parameters.now) }
{
    match parameters {
        Some(held) => {
            fields.push(field_of_parameter(alloc, names, numbers, size, &held.first)?)?;
            add_next_parameters(alloc, names, numbers, size, held.others.as_slice(), fields)
        }
        None => Ok(()),
    }
}

/// Adds the further value parameters of a list.
fn add_next_parameters(
    alloc: Global,
    names: &[Bytes],
    numbers: &Numbers,
    size: usize,
    others: &[NextObjectParameter],
    fields: &mut List<Field>,
) -> Result<(), Memory>
    ensures { OnOk result ((list : Seq Spelling) → HoldsNumbers list numbers.now
        → length list ≡ size
        → fields.new ≡ fields.old ++ map (next_field list names.now) others.now) }
{
    for next in others {
        fields.push(field_of_parameter(alloc, names, numbers, size, &next.parameter)?)?;
    }
    Ok(())
}

/// A value parameter of an object.
fn field_of_parameter(
    alloc: Global,
    names: &[Bytes],
    numbers: &Numbers,
    size: usize,
    parameter: &ObjectParameter,
) -> Result<Field, Memory>
    ensures { IfOk result (λ field. (list : Seq Spelling) → HoldsNumbers list numbers.now
        → length list ≡ size
        → field ≡ parameter_field list names.now parameter.now) }
{
    Ok(Field {
        name: parameter.name.id,
        place: place_of(parameter.var, parameter.name),
        ty: written_type(alloc, names, numbers, size, &parameter.ty)?,
        mutable: parameter.var.is_some(),
    })
}

/// The place of a variable or field: of its `var`, where it has one, or else of its name.
fn place_of(var: Option<Spot>, name: Name) -> Place
    ensures { result ≡ first_place var name }
{
    match var {
        Some(spot) => spot.place,
        None => name.spot.place,
    }
}

/// Whether the sign before an initial is `:=`.
fn is_becomes(sign: InitialSign) -> bool
    ensures { result ≡ becomes sign }
{
    match sign {
        InitialSign::Equals(_) => false,
        InitialSign::Becomes(_) => true,
    }
}
