//! Where declarations and their members stand.
ghost use Rattle.std.specs.Prelude.{◌≡◌, ◌++◌, OnOk, map};
ghost use Rattle.std.specs.List.{flat_map};
ghost use Rattle.fort_tree.specs.Declarations.{name_first};
ghost use Rattle.fort_tree.specs.Limits.{declaration_places, measured_declaration, measured_object_member, measured_trait_member, type_places};
ghost use Rattle.fort_tree.specs.Measures.{spot_of};
ghost use Rattle.fort_tree.specs.Measuring.{measured_variable};

use fort_base::{List, Memory, Place};
use fort_tree::{
    Declaration, Declared, FunctionName, ObjectEntry, ObjectMember, TraitEntry, TraitMember,
    Variable,
};

/// Adds the places of declarations, and behind each those of its members.
pub(crate) fn add_declarations(
    declarations: &[Declared],
    places: &mut List<Place>,
) -> Result<(), Memory>
    ensures { OnOk result (places.new
        ≡ places.old ++ flat_map declaration_places declarations.now) }
{
    for declared in declarations {
        add_declaration(declared, places)?;
    }
    Ok(())
}

fn add_declaration(declared: &Declared, places: &mut List<Place>) -> Result<(), Memory>
    ensures { OnOk result (places.new ≡ places.old ++ declaration_places declared.now) }
{
    places.push(place_of_declaration(&declared.declaration))?;
    match &declared.declaration {
        Declaration::Variable(_) => Ok(()),
        Declaration::Function(_) => Ok(()),
        Declaration::Trait(tr) => add_trait_members(tr.members.as_slice(), places),
        Declaration::Object(object) => add_object_members(object.members.as_slice(), places),
    }
}

fn add_trait_members(members: &[TraitEntry], places: &mut List<Place>) -> Result<(), Memory>
    ensures { OnOk result (places.new
        ≡ places.old ++ map (λ e. (measured_trait_member e.member).spot.place) members.now) }
{
    for entry in members {
        places.push(place_of_trait_member(&entry.member))?;
    }
    Ok(())
}

fn add_object_members(members: &[ObjectEntry], places: &mut List<Place>) -> Result<(), Memory>
    ensures { OnOk result (places.new
        ≡ places.old ++ map (λ e. (measured_object_member e.member).spot.place) members.now) }
{
    for entry in members {
        places.push(place_of_object_member(&entry.member))?;
    }
    Ok(())
}

/// Adds the places of declarations of types.
pub(crate) fn add_types(declarations: &[Declared], places: &mut List<Place>) -> Result<(), Memory>
    ensures { OnOk result (places.new
        ≡ places.old ++ flat_map (λ d. type_places d.declaration) declarations.now) }
{
    for declared in declarations {
        add_type(&declared.declaration, places)?;
    }
    Ok(())
}

fn add_type(declaration: &Declaration, places: &mut List<Place>) -> Result<(), Memory>
    ensures { OnOk result (places.new ≡ places.old ++ type_places declaration.now) }
{
    match declaration {
        Declaration::Variable(_) => Ok(()),
        Declaration::Function(_) => Ok(()),
        Declaration::Trait(tr) => places.push(tr.trait_.place),
        Declaration::Object(object) => places.push(object.object.place),
    }
}

fn place_of_declaration(declaration: &Declaration) -> Place
    ensures { result ≡ (measured_declaration declaration.now).spot.place }
{
    match declaration {
        Declaration::Variable(variable) => place_of_variable(variable),
        Declaration::Function(function) => place_of_function(function.name),
        Declaration::Trait(tr) => tr.trait_.place,
        Declaration::Object(object) => object.object.place,
    }
}

fn place_of_trait_member(member: &TraitMember) -> Place
    ensures { result ≡ (measured_trait_member member.now).spot.place }
{
    match member {
        TraitMember::Field { name, .. } => name.spot.place,
        TraitMember::Method(method) => place_of_function(method.name),
    }
}

fn place_of_object_member(member: &ObjectMember) -> Place
    ensures { result ≡ (measured_object_member member.now).spot.place }
{
    match member {
        ObjectMember::Variable(variable) => place_of_variable(variable),
        ObjectMember::Method(method) => place_of_function(method.name),
    }
}

fn place_of_variable(variable: &Variable) -> Place
    ensures { result ≡ (measured_variable variable.now).spot.place }
{
    match variable.var {
        Some(spot) => spot.place,
        None => variable.name.spot.place,
    }
}

fn place_of_function(name: FunctionName) -> Place
    ensures { result ≡ (spot_of (name_first name)).place }
{
    match name {
        FunctionName::Name(name) => name.spot.place,
        FunctionName::Operator(opr, _) => opr.place,
        FunctionName::Juxtaposition(opr, _) => opr.place,
    }
}
