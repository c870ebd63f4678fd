//! How many declarations and types a component has.
ghost use Rattle.std.specs.Prelude.{◌≡◌, ◌∷◌, [], map};
ghost use Rattle.std.specs.List.{flat_map};
ghost use Rattle.fort_tree.specs.Limits.{declaration_places, measured_declaration, measured_object_member, measured_trait_member, type_places};
ghost use Rattle.fort_tree_limits.specs.Census.{counted};

use crate::places::{place_of_function, place_of_variable};
use fort_base::{List, Place};
use fort_tree::{Declaration, Declared, ObjectEntry, ObjectMember, TraitEntry, TraitMember};

/// How many of some places may still stand, and the first one too many.
#[derive(Drop)]
pub(crate) struct Count {
    pub(crate) left: usize,
    pub(crate) late: Option<Place>,
}

impl Count {
    /// Counts one more.
    fn see(&mut self, at: Place)
        ensures { self.new ≡ counted self.old (at ∷ []) }
    {
        if self.left > 0 {
            self.left -= 1;
        } else {
            match self.late {
                Some(_) => {}
                None => self.late = Some(at),
            }
        }
    }

    /// Counts declarations, and behind each its members.
    pub(crate) fn declarations(&mut self, declarations: &List<Declared>)
        ensures { self.new ≡ counted self.old (flat_map declaration_places declarations.now) }
    {
        for declared in declarations.as_slice() {
            self.declaration(declared);
        }
    }

    fn declaration(&mut self, declared: &Declared)
        ensures { self.new ≡ counted self.old (declaration_places declared.now) }
    {
        self.see(place_of_declaration(&declared.declaration));
        match &declared.declaration {
            Declaration::Variable(_) => {}
            Declaration::Function(_) => {}
            Declaration::Trait(tr) => self.trait_members(&tr.members),
            Declaration::Object(object) => self.object_members(&object.members),
        }
    }

    fn trait_members(&mut self, members: &List<TraitEntry>)
        ensures { self.new
            ≡ counted self.old
            (map (λ e. (measured_trait_member e.member).spot.place) members.now) }
    {
        for entry in members.as_slice() {
            self.see(place_of_trait_member(&entry.member));
        }
    }

    fn object_members(&mut self, members: &List<ObjectEntry>)
        ensures { self.new
            ≡ counted self.old
            (map (λ e. (measured_object_member e.member).spot.place) members.now) }
    {
        for entry in members.as_slice() {
            self.see(place_of_object_member(&entry.member));
        }
    }

    /// Counts traits and objects.
    pub(crate) fn types(&mut self, declarations: &List<Declared>)
        ensures { self.new
            ≡ counted self.old (flat_map (λ d. type_places d.declaration) declarations.now) }
    {
        for declared in declarations.as_slice() {
            self.type_(&declared.declaration);
        }
    }

    fn type_(&mut self, declaration: &Declaration)
        ensures { self.new ≡ counted self.old (type_places declaration.now) }
    {
        match declaration {
            Declaration::Variable(_) => {}
            Declaration::Function(_) => {}
            Declaration::Trait(tr) => self.see(tr.trait_.place),
            Declaration::Object(object) => self.see(object.object.place),
        }
    }
}

fn place_of_declaration(declaration: &Declaration) -> Place
    ensures { result ≡ (measured_declaration declaration.now).spot.place }
{
    match declaration {
        Declaration::Variable(variable) => place_of_variable(variable),
        Declaration::Function(function) => place_of_function(function.name),
        Declaration::Trait(tr) => tr.trait_.place,
        Declaration::Object(object) => object.object.place,
    }
}

fn place_of_trait_member(member: &TraitMember) -> Place
    ensures { result ≡ (measured_trait_member member.now).spot.place }
{
    match member {
        TraitMember::Field { name, .. } => name.spot.place,
        TraitMember::Method(method) => place_of_function(method.name),
    }
}

fn place_of_object_member(member: &ObjectMember) -> Place
    ensures { result ≡ (measured_object_member member.now).spot.place }
{
    match member {
        ObjectMember::Variable(variable) => place_of_variable(variable),
        ObjectMember::Method(method) => place_of_function(method.name),
    }
}
