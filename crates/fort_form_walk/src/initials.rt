//! The initials of the variables at the top and of the fields in the bodies of objects.
ghost use Rattle.std.specs.Prelude.{◌≡◌, ◌++◌, IfOk, OnOk};
ghost use Rattle.std.specs.List.{flat_map};
ghost use Rattle.fort_form_walk.specs.FormsOf.{declared_initials, entry_initial, initial, initials, member_initial, owner};
ghost use Rattle.fort_form_walk.specs.Reading.{tables};

use crate::tables::Tables;
use crate::walk::form;
use fort_base::{List, Memory, TypeId};
use fort_form::InitialForm;
use fort_form_meaning::Lookup;
use fort_hier::spelled;
use fort_member_fields::type_id;
use fort_tree::{Declaration, Declared, Name, ObjectEntry, ObjectMember, Variable};
use std::alloc::Global;

/// The initials of a component's declarations, in their order, or want of memory.
pub fn initials(
    alloc: Global,
    lookup: &Tables,
    declarations: &[Declared],
) -> Result<List<InitialForm>, Memory>
    ensures { IfOk result (λ made. made
        ≡ flat_map (declared_initials (tables lookup.now)) declarations.now) }
{
    let mut made = List::new(alloc);
    for declared in declarations {
        add_initials(alloc, lookup, &declared.declaration, &mut made)?;
    }
    Ok(made)
}

/// Adds the initials of a declaration.
fn add_initials(
    alloc: Global,
    lookup: &Tables,
    declaration: &Declaration,
    made: &mut List<InitialForm>,
) -> Result<(), Memory>
    ensures { OnOk result (made.new ≡ made.old ++ initials (tables lookup.now) declaration.now) }
{
    match declaration {
        Declaration::Variable(variable) => made.push(initial(alloc, lookup, None, variable)?),
        Declaration::Function(_) => Ok(()),
        Declaration::Trait(_) => Ok(()),
        Declaration::Object(object) => {
            let id = owner(lookup, object.name)?;
            add_fields(alloc, lookup, id, object.members.as_slice(), made)
        }
    }
}

/// Adds the initials of the fields of an object.
fn add_fields(
    alloc: Global,
    lookup: &Tables,
    id: TypeId,
    members: &[ObjectEntry],
    made: &mut List<InitialForm>,
) -> Result<(), Memory>
    ensures { OnOk result (made.new
        ≡ made.old ++ flat_map (entry_initial (tables lookup.now) id) members.now) }
{
    for entry in members {
        add_field(alloc, lookup, id, &entry.member, made)?;
    }
    Ok(())
}

/// Adds the initial of a member of an object, where it is a field.
fn add_field(
    alloc: Global,
    lookup: &Tables,
    id: TypeId,
    member: &ObjectMember,
    made: &mut List<InitialForm>,
) -> Result<(), Memory>
    ensures { OnOk result (made.new
        ≡ made.old ++ member_initial (tables lookup.now) id member.now) }
{
    match member {
        ObjectMember::Variable(variable) => made.push(initial(alloc, lookup, Some(id), variable)?),
        ObjectMember::Method(_) => Ok(()),
    }
}

/// The initial of a variable at the top, or of a field of that object.
fn initial(
    alloc: Global,
    lookup: &Tables,
    id: Option<TypeId>,
    variable: &Variable,
) -> Result<InitialForm, Memory>
    ensures { IfOk result (λ made. made ≡ initial (tables lookup.now) id variable.now) }
{
    Ok(InitialForm {
        owner: id,
        name: variable.name.id,
        ty: lookup.written_type(alloc, &variable.ty)?,
        value: form(alloc, lookup, &variable.value)?,
    })
}

/// The type of that name, or want of memory where its number is none of 32 bits.
pub fn owner(lookup: &Tables, name: Name) -> Result<TypeId, Memory>
    ensures { IfOk result (λ id. id ≡ owner (tables lookup.now) name) }
{
    let spelling = spelled(lookup.names, name);
    let found = lookup.numbers.number(spelling, lookup.size);
    let id = type_id(found)?;
    Ok(id)
}
