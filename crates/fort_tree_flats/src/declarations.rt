ghost use Rattle.std.specs.Prelude.{◌≡◌, ◌++◌, OnOk, IfOk, map};
ghost use Rattle.fort_tree.specs.Measured.{all_flats};
ghost use Rattle.fort_tree.specs.Limits.{measured_trait_member, measured_object_member, measured_method, measured_body, measured_declaration, flats};

use crate::blocks::add_variable;
use crate::expressions::add_expr;
use fort_base::{List, Memory};
use fort_tree::{
    Component, Declaration, Declared, Method, MethodBody, ObjectEntry, ObjectMember, Row,
    TraitEntry, TraitMember,
};
use std::alloc::Global;

/// What the grouping of each flat expression of a component depends on, in the order of their first
/// tokens.
///
/// A flat expression comes before those that stand in it. The chapter "Operators".
pub fn rows(alloc: Global, component: &Component) -> Result<List<Row>, Memory>
    ensures { IfOk result (λ rows. rows ≡ flats component.now) }
{
    let mut rows = List::new(alloc);
    add_declarations(component.declarations.as_slice(), &mut rows)?;
    Ok(rows)
}

/// Adds the flat expressions of the declarations of a component.
fn add_declarations(declarations: &[Declared], rows: &mut List<Row>) -> Result<(), Memory>
    ensures { OnOk result (rows.new
        ≡ rows.old
        ++ all_flats (map (λ d. measured_declaration d.declaration) declarations.now)) }
{
    for declared in declarations {
        add_declaration(&declared.declaration, rows)?;
    }
    Ok(())
}

/// Adds the flat expressions of a declaration.
fn add_declaration(declaration: &Declaration, rows: &mut List<Row>) -> Result<(), Memory>
    ensures { OnOk result (rows.new ≡ rows.old ++ (measured_declaration declaration.now).flats) }
{
    match declaration {
        Declaration::Variable(variable) => add_variable(variable, rows)?,
        Declaration::Function(function) => add_expr(&function.body, rows)?,
        Declaration::Trait(tr) => add_trait_members(tr.members.as_slice(), rows)?,
        Declaration::Object(object) => add_object_members(object.members.as_slice(), rows)?,
    }
    Ok(())
}

/// Adds the flat expressions of the members of a trait.
fn add_trait_members(members: &[TraitEntry], rows: &mut List<Row>) -> Result<(), Memory>
    ensures { OnOk result (rows.new
        ≡ rows.old ++ all_flats (map (λ e. measured_trait_member e.member) members.now)) }
{
    for entry in members {
        add_trait_member(&entry.member, rows)?;
    }
    Ok(())
}

/// Adds the flat expressions of a member of a trait.
fn add_trait_member(member: &TraitMember, rows: &mut List<Row>) -> Result<(), Memory>
    ensures { OnOk result (rows.new ≡ rows.old ++ (measured_trait_member member.now).flats) }
{
    match member {
        TraitMember::Field { .. } => {}
        TraitMember::Method(method) => add_method(method, rows)?,
    }
    Ok(())
}

/// Adds the flat expressions of the members of an object.
fn add_object_members(members: &[ObjectEntry], rows: &mut List<Row>) -> Result<(), Memory>
    ensures { OnOk result (rows.new
        ≡ rows.old ++ all_flats (map (λ e. measured_object_member e.member) members.now)) }
{
    for entry in members {
        add_object_member(&entry.member, rows)?;
    }
    Ok(())
}

/// Adds the flat expressions of a member of an object.
fn add_object_member(member: &ObjectMember, rows: &mut List<Row>) -> Result<(), Memory>
    ensures { OnOk result (rows.new ≡ rows.old ++ (measured_object_member member.now).flats) }
{
    match member {
        ObjectMember::Variable(variable) => add_variable(variable, rows)?,
        ObjectMember::Method(method) => add_method(method, rows)?,
    }
    Ok(())
}

/// Adds the flat expressions of a method.
fn add_method(method: &Method, rows: &mut List<Row>) -> Result<(), Memory>
    ensures { OnOk result (rows.new ≡ rows.old ++ (measured_method method.now).flats) }
{
    add_maybe_body(&method.body, rows)?;
    Ok(())
}

/// Adds the flat expressions of a body that may be left out.
fn add_maybe_body(body: &Option<MethodBody>, rows: &mut List<Row>) -> Result<(), Memory>
    ensures { OnOk result (rows.new ≡ rows.old ++ all_flats (measured_body body.now)) }
{
    if let Some(body) = body {
        add_expr(&body.body, rows)?;
    }
    Ok(())
}
