//! The names that stand as types in declarations.
ghost use Rattle.std.specs.Prelude.{◌≡◌, ◌++◌, OnOk, map};
ghost use Rattle.std.specs.List.{flat_map};
ghost use Rattle.fort_tree_type_names.specs.Mentions.{mentioned_type};
ghost use Rattle.fort_tree_type_names.specs.TypeNames.{comprised, excluded, extended, listed_names, mentioned_body, mentioned_declaration, mentioned_function, mentioned_method, mentioned_method_parameter, mentioned_method_parameters, mentioned_object, mentioned_object_member, mentioned_object_parameter_list, mentioned_object_parameters, mentioned_trait, mentioned_trait_member};

use crate::blocks::add_variable;
use crate::exprs::add_expr;
use crate::types::{add_parameters, add_type};
use fort_base::{List, Memory};
use fort_tree::{
    Comprises, Declaration, Declared, Excludes, Extends, Function, Method, MethodBody,
    MethodParameter, MethodParameters, Name, Names, NextMethodParameter, NextName,
    NextObjectParameter, Object, ObjectEntry, ObjectMember, ObjectParameterList, ObjectParameters,
    Trait, TraitEntry, TraitMember,
};

/// Walks over declarations.
pub fn add_declarations(declarations: &[Declared], names: &mut List<Name>) -> Result<(), Memory>
    ensures { OnOk result (names.new
        ≡ names.old ++ flat_map (λ d. mentioned_declaration d.declaration) declarations.now) }
{
    for declared in declarations {
        add_declaration(&declared.declaration, names)?;
    }
    Ok(())
}

fn add_declaration(declaration: &Declaration, names: &mut List<Name>) -> Result<(), Memory>
    ensures { OnOk result (names.new ≡ names.old ++ mentioned_declaration declaration.now) }
{
    match declaration {
        Declaration::Variable(variable) => add_variable(variable, names)?,
        Declaration::Function(function) => add_function(function, names)?,
        Declaration::Trait(tr) => add_trait(tr, names)?,
        Declaration::Object(object) => add_object(object, names)?,
    }
    Ok(())
}

fn add_function(function: &Function, names: &mut List<Name>) -> Result<(), Memory>
    ensures { OnOk result (names.new ≡ names.old ++ mentioned_function function.now) }
{
    add_parameters(&function.parameters, names)?;
    add_type(&function.result, names)?;
    add_expr(&function.body, names)?;
    Ok(())
}

fn add_method(method: &Method, names: &mut List<Name>) -> Result<(), Memory>
    ensures { OnOk result (names.new ≡ names.old ++ mentioned_method method.now) }
{
    add_method_parameters(&method.parameters, names)?;
    add_type(&method.result, names)?;
    add_method_body(&method.body, names)?;
    Ok(())
}

fn add_method_parameters(
    parameters: &Option<MethodParameters>,
    names: &mut List<Name>,
) -> Result<(), Memory>
    ensures { OnOk result (names.new ≡ names.old ++ mentioned_method_parameters parameters.now) }
{
    if let Some(list) = parameters {
        add_method_parameter(&list.first, names)?;
        add_next_method_parameters(list.others.as_slice(), names)?;
    }
    Ok(())
}

fn add_method_parameter(parameter: &MethodParameter, names: &mut List<Name>) -> Result<(), Memory>
    ensures { OnOk result (names.new ≡ names.old ++ mentioned_method_parameter parameter.now) }
{
    match parameter {
        MethodParameter::Parameter(parameter) => add_type(&parameter.ty, names)?,
        MethodParameter::Self_(_) => {}
    }
    Ok(())
}

fn add_next_method_parameters(
    parameters: &[NextMethodParameter],
    names: &mut List<Name>,
) -> Result<(), Memory>
    ensures { OnOk result (names.new
        ≡ names.old
        ++ flat_map (λ next. mentioned_method_parameter next.parameter) parameters.now) }
{
    for next in parameters {
        add_method_parameter(&next.parameter, names)?;
    }
    Ok(())
}

fn add_method_body(body: &Option<MethodBody>, names: &mut List<Name>) -> Result<(), Memory>
    ensures { OnOk result (names.new ≡ names.old ++ mentioned_body body.now) }
{
    if let Some(body) = body {
        add_expr(&body.body, names)?;
    }
    Ok(())
}

fn add_trait(tr: &Trait, names: &mut List<Name>) -> Result<(), Memory>
    ensures { OnOk result (names.new ≡ names.old ++ mentioned_trait tr.now) }
{
    add_extends(&tr.extends, names)?;
    add_excludes(&tr.excludes, names)?;
    add_comprises(&tr.comprises, names)?;
    add_trait_members(tr.members.as_slice(), names)?;
    Ok(())
}

fn add_trait_members(members: &[TraitEntry], names: &mut List<Name>) -> Result<(), Memory>
    ensures { OnOk result (names.new
        ≡ names.old ++ flat_map (λ e. mentioned_trait_member e.member) members.now) }
{
    for entry in members {
        add_trait_member(&entry.member, names)?;
    }
    Ok(())
}

fn add_trait_member(member: &TraitMember, names: &mut List<Name>) -> Result<(), Memory>
    ensures { OnOk result (names.new ≡ names.old ++ mentioned_trait_member member.now) }
{
    match member {
        TraitMember::Field { ty, .. } => add_type(ty, names)?,
        TraitMember::Method(method) => add_method(method, names)?,
    }
    Ok(())
}

fn add_object(object: &Object, names: &mut List<Name>) -> Result<(), Memory>
    ensures { OnOk result (names.new ≡ names.old ++ mentioned_object object.now) }
{
    add_object_parameters(&object.parameters, names)?;
    add_extends(&object.extends, names)?;
    add_object_members(object.members.as_slice(), names)?;
    Ok(())
}

fn add_object_parameters(
    parameters: &Option<ObjectParameters>,
    names: &mut List<Name>,
) -> Result<(), Memory>
    ensures { OnOk result (names.new ≡ names.old ++ mentioned_object_parameters parameters.now) }
{
    if let Some(parameters) = parameters {
        add_object_parameter_list(&parameters.parameters, names)?;
    }
    Ok(())
}

fn add_object_parameter_list(
    list: &Option<ObjectParameterList>,
    names: &mut List<Name>,
) -> Result<(), Memory>
    ensures { OnOk result (names.new ≡ names.old ++ mentioned_object_parameter_list list.now) }
{
    if let Some(list) = list {
        add_type(&list.first.ty, names)?;
        add_next_object_parameters(list.others.as_slice(), names)?;
    }
    Ok(())
}

fn add_next_object_parameters(
    parameters: &[NextObjectParameter],
    names: &mut List<Name>,
) -> Result<(), Memory>
    ensures { OnOk result (names.new
        ≡ names.old ++ flat_map (λ next. mentioned_type next.parameter.ty) parameters.now) }
{
    for next in parameters {
        add_type(&next.parameter.ty, names)?;
    }
    Ok(())
}

fn add_object_members(members: &[ObjectEntry], names: &mut List<Name>) -> Result<(), Memory>
    ensures { OnOk result (names.new
        ≡ names.old ++ flat_map (λ e. mentioned_object_member e.member) members.now) }
{
    for entry in members {
        add_object_member(&entry.member, names)?;
    }
    Ok(())
}

fn add_object_member(member: &ObjectMember, names: &mut List<Name>) -> Result<(), Memory>
    ensures { OnOk result (names.new ≡ names.old ++ mentioned_object_member member.now) }
{
    match member {
        ObjectMember::Variable(variable) => add_variable(variable, names)?,
        ObjectMember::Method(method) => add_method(method, names)?,
    }
    Ok(())
}

fn add_extends(extends: &Option<Extends>, names: &mut List<Name>) -> Result<(), Memory>
    ensures { OnOk result (names.new ≡ names.old ++ extended extends.now) }
{
    if let Some(extends) = extends {
        add_names(&extends.names, names)?;
    }
    Ok(())
}

fn add_excludes(excludes: &Option<Excludes>, names: &mut List<Name>) -> Result<(), Memory>
    ensures { OnOk result (names.new ≡ names.old ++ excluded excludes.now) }
{
    if let Some(excludes) = excludes {
        add_names(&excludes.names, names)?;
    }
    Ok(())
}

fn add_comprises(comprises: &Option<Comprises>, names: &mut List<Name>) -> Result<(), Memory>
    ensures { OnOk result (names.new ≡ names.old ++ comprised comprises.now) }
{
    if let Some(comprises) = comprises {
        add_names(&comprises.names, names)?;
    }
    Ok(())
}

fn add_names(list: &Names, names: &mut List<Name>) -> Result<(), Memory>
    ensures { OnOk result (names.new ≡ names.old ++ listed_names list.now) }
{
    match list {
        Names::One(name) => names.push(*name)?,
        Names::Braces { first, others, .. } => {
            names.push(*first)?;
            add_next_names(others.as_slice(), names)?;
        }
    }
    Ok(())
}

fn add_next_names(others: &[NextName], names: &mut List<Name>) -> Result<(), Memory>
    ensures { OnOk result (names.new ≡ names.old ++ map (λ next. next.name) others.now) }
{
    for next in others {
        names.push(next.name)?;
    }
    Ok(())
}
