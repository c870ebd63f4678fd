//! The names at the top of a component: its variables, types and functions.
ghost use Rattle.std.specs.Prelude.{◌≡◌, ◌++◌, IfOk, OnOk};
ghost use Rattle.std.specs.List.{flat_map};
ghost use Rattle.fort_hier.specs.Tops.{tops_of, top_of, named_top, function_top, trait_top, trait_member_top, object_top, object_member_top, method_top, is_functional, has_self, is_self};

use fort_base::{List, Memory};
use fort_tree::{
    Component, Declaration, FunctionName, Method, MethodParameter, MethodParameters, Name,
    NextMethodParameter, ObjectEntry, ObjectMember, TraitEntry, TraitMember,
};
use std::alloc::Global;

/// A name at the top of a component: a function's, or a variable's or type's.
#[derive(Clone, Copy, Debug, PartialEq, Eq)]
pub struct Top {
    pub name: Name,
    pub is_function: bool,
}

/// The names at the top of a component, in their order.
pub fn tops_in(alloc: Global, component: &Component) -> Result<List<Top>, Memory>
    ensures { IfOk result (λ list. list ≡ tops_of component.now) }
{
    let mut list = List::new(alloc);
    let declarations = component.declarations.as_slice();
    for declared in declarations {
        add_top(&declared.declaration, &mut list)?;
    }
    Ok(list)
}

/// Adds the names of a declaration.
fn add_top(declaration: &Declaration, list: &mut List<Top>) -> Result<(), Memory>
    ensures { OnOk result (list.new ≡ list.old ++ top_of declaration.now) }
{
    match declaration {
        Declaration::Variable(variable) => add_named(variable.name, list),
        Declaration::Function(function) => add_function(function.name, list),
        Declaration::Trait(declared) => {
            add_named(declared.name, list)?;
            add_trait_members(declared.members.as_slice(), list)
        }
        Declaration::Object(declared) => {
            add_named(declared.name, list)?;
            add_object_members(declared.members.as_slice(), list)
        }
    }
}

/// Adds the name of a variable or type.
fn add_named(name: Name, list: &mut List<Top>) -> Result<(), Memory>
    ensures { OnOk result (list.new ≡ list.old ++ named_top name) }
{
    list.push(Top {
        name,
        is_function: false,
    })
}

/// Adds the name of a function, where it has one and no operator.
fn add_function(name: FunctionName, list: &mut List<Top>) -> Result<(), Memory>
    ensures { OnOk result (list.new ≡ list.old ++ function_top name) }
{
    match name {
        FunctionName::Name(name) => list.push(Top {
            name,
            is_function: true,
        }),
        FunctionName::Operator(_, _) => Ok(()),
        FunctionName::Juxtaposition(_, _) => Ok(()),
    }
}

/// Adds the functional methods of a trait.
fn add_trait_members(members: &[TraitEntry], list: &mut List<Top>) -> Result<(), Memory>
    ensures { OnOk result (list.new ≡ list.old ++ flat_map trait_top members.now) }
{
    for entry in members {
        add_trait_member(&entry.member, list)?;
    }
    Ok(())
}

/// Adds a member of a trait, where it is a functional method.
fn add_trait_member(member: &TraitMember, list: &mut List<Top>) -> Result<(), Memory>
    ensures { OnOk result (list.new ≡ list.old ++ trait_member_top member.now) }
{
    match member {
        TraitMember::Method(method) => add_method(method, list),
        TraitMember::Field {
            name: _,
            colon: _,
            ty: _,
        } => Ok(()),
    }
}

/// Adds the functional methods of an object.
fn add_object_members(members: &[ObjectEntry], list: &mut List<Top>) -> Result<(), Memory>
    ensures { OnOk result (list.new ≡ list.old ++ flat_map object_top members.now) }
{
    for entry in members {
        add_object_member(&entry.member, list)?;
    }
    Ok(())
}

/// Adds a member of an object, where it is a functional method.
fn add_object_member(member: &ObjectMember, list: &mut List<Top>) -> Result<(), Memory>
    ensures { OnOk result (list.new ≡ list.old ++ object_member_top member.now) }
{
    match member {
        ObjectMember::Method(method) => add_method(method, list),
        ObjectMember::Variable(_) => Ok(()),
    }
}

/// Adds a method, where it is functional.
fn add_method(method: &Method, list: &mut List<Top>) -> Result<(), Memory>
    ensures { OnOk result (list.new ≡ list.old ++ method_top method.now) }
{
    if !is_with_self(&method.parameters) {
        return Ok(());
    }
    add_function(method.name, list)
}

/// Whether a method has `self` among its parameters.
pub fn is_with_self(parameters: &Option<MethodParameters>) -> bool
    ensures { result ≡ is_functional parameters.now }
{
    match parameters {
        Some(list) => is_the_self(&list.first) || any_self(list.others.as_slice()),
        None => false,
    }
}

/// Whether some parameter of a list is `self`.
fn any_self(others: &[NextMethodParameter]) -> bool
    ensures { result ≡ has_self others.now }
{
    for next in others {
        if is_the_self(&next.parameter) {
            return true;
        }
    }
    false
}

/// Whether a parameter is `self`.
fn is_the_self(parameter: &MethodParameter) -> bool
    ensures { result ≡ is_self parameter.now }
{
    match parameter {
        MethodParameter::Parameter(_) => false,
        MethodParameter::Self_(_) => true,
    }
}
