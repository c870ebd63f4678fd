//! The names that stand as types in types.
ghost use Rattle.std.specs.Prelude.{◌≡◌, ◌++◌, OnOk, map, option_map};
ghost use Rattle.std.specs.List.{flat_map};
ghost use Rattle.fort_tree_type_names.specs.Mentioned.{all_mentioned, maybe_mentioned};
ghost use Rattle.fort_tree_type_names.specs.Mentions.{mentioned_type, mentioned_simple_type, mentioned_next_type, mentioned_type_list, mentioned_parameters};

use fort_base::{List, Memory};
use fort_tree::{Name, NextParameter, NextType, Parameters, SimpleType, TypeList, TypeTree};

/// Walks over a type.
#[cycle(types)]
pub fn add_type(ty: &TypeTree, names: &mut List<Name>) -> Result<(), Memory>
    ensures { OnOk result (names.new ≡ names.old ++ mentioned_type ty.now) }
{
    match ty {
        TypeTree::Simple(simple) => add_simple_type(simple, names)?,
        TypeTree::Arrow(domain, _, result) => {
            add_simple_type(domain, names)?;
            add_simple_type(result, names)?;
        }
    }
    Ok(())
}

#[cycle(types)]
fn add_simple_type(simple: &SimpleType, names: &mut List<Name>) -> Result<(), Memory>
    ensures { OnOk result (names.new ≡ names.old ++ mentioned_simple_type simple.now) }
{
    match simple {
        SimpleType::Named(name) => names.push(*name)?,
        SimpleType::Array { element, .. } => add_type(element.get(), names)?,
        SimpleType::Parts { parts, .. } => add_maybe_types(parts, names)?,
    }
    Ok(())
}

#[cycle(types)]
fn add_maybe_types(parts: &Option<TypeList>, names: &mut List<Name>) -> Result<(), Memory>
    ensures { OnOk result (names.new
        ≡ names.old ++ maybe_mentioned (option_map mentioned_type_list parts.now)) }
{
    if let Some(list) = parts {
        add_type(list.first.get(), names)?;
        add_next_types(list.others.as_slice(), names)?;
    }
    Ok(())
}

#[cycle(types)]
fn add_next_types(types: &[NextType], names: &mut List<Name>) -> Result<(), Memory>
    ensures { OnOk result (names.new
        ≡ names.old ++ all_mentioned (map mentioned_next_type types.now)) }
{
    for next in types {
        add_type(&next.ty, names)?;
    }
    Ok(())
}

/// Walks over the types of parameters.
pub fn add_parameters(parameters: &Option<Parameters>, names: &mut List<Name>) -> Result<(), Memory>
    ensures { OnOk result (names.new ≡ names.old ++ mentioned_parameters parameters.now) }
{
    if let Some(list) = parameters {
        add_type(&list.first.ty, names)?;
        add_next_parameters(list.others.as_slice(), names)?;
    }
    Ok(())
}

fn add_next_parameters(parameters: &[NextParameter], names: &mut List<Name>) -> Result<(), Memory>
    ensures { OnOk result (names.new
        ≡ names.old ++ flat_map (λ next. mentioned_type next.parameter.ty) parameters.now) }
{
    for next in parameters {
        add_type(&next.parameter.ty, names)?;
    }
    Ok(())
}
