//! The names that stand as atoms in declarations.
ghost use Rattle.std.specs.Prelude.{◌≡◌, ◌++◌, OnOk};
ghost use Rattle.std.specs.List.{flat_map};
ghost use Rattle.fort_tree_atoms.specs.AtomNames.{atoms_of_declaration, atoms_of_method_body, atoms_of_object_member, atoms_of_trait_member};

use crate::exprs::add_expr;
use fort_base::{List, Memory};
use fort_tree::{
    Declaration, Declared, MethodBody, Name, ObjectEntry, ObjectMember, TraitEntry, TraitMember,
};

/// Walks over declarations.
pub fn add_declarations(declarations: &[Declared], names: &mut List<Name>) -> Result<(), Memory>
    ensures { OnOk result (names.new
        ≡ names.old ++ flat_map (λ d. atoms_of_declaration d.declaration) declarations.now) }
{
    for declared in declarations {
        add_declaration(&declared.declaration, names)?;
    }
    Ok(())
}

fn add_declaration(declaration: &Declaration, names: &mut List<Name>) -> Result<(), Memory>
    ensures { OnOk result (names.new ≡ names.old ++ atoms_of_declaration declaration.now) }
{
    match declaration {
        Declaration::Variable(variable) => add_expr(&variable.value, names)?,
        Declaration::Function(function) => add_expr(&function.body, names)?,
        Declaration::Trait(tr) => add_trait_members(tr.members.as_slice(), names)?,
        Declaration::Object(object) => add_object_members(object.members.as_slice(), names)?,
    }
    Ok(())
}

fn add_method_body(body: &Option<MethodBody>, names: &mut List<Name>) -> Result<(), Memory>
    ensures { OnOk result (names.new ≡ names.old ++ atoms_of_method_body body.now) }
{
    if let Some(body) = body {
        add_expr(&body.body, names)?;
    }
    Ok(())
}

fn add_trait_members(members: &[TraitEntry], names: &mut List<Name>) -> Result<(), Memory>
    ensures { OnOk result (names.new
        ≡ names.old ++ flat_map (λ e. atoms_of_trait_member e.member) members.now) }
{
    for entry in members {
        add_trait_member(&entry.member, names)?;
    }
    Ok(())
}

fn add_trait_member(member: &TraitMember, names: &mut List<Name>) -> Result<(), Memory>
    ensures { OnOk result (names.new ≡ names.old ++ atoms_of_trait_member member.now) }
{
    match member {
        TraitMember::Field { .. } => {}
        TraitMember::Method(method) => add_method_body(&method.body, names)?,
    }
    Ok(())
}

fn add_object_members(members: &[ObjectEntry], names: &mut List<Name>) -> Result<(), Memory>
    ensures { OnOk result (names.new
        ≡ names.old ++ flat_map (λ e. atoms_of_object_member e.member) members.now) }
{
    for entry in members {
        add_object_member(&entry.member, names)?;
    }
    Ok(())
}

fn add_object_member(member: &ObjectMember, names: &mut List<Name>) -> Result<(), Memory>
    ensures { OnOk result (names.new ≡ names.old ++ atoms_of_object_member member.now) }
{
    match member {
        ObjectMember::Variable(variable) => add_expr(&variable.value, names)?,
        ObjectMember::Method(method) => add_method_body(&method.body, names)?,
    }
    Ok(())
}
