//! The fields that a trait is known to have so far.
ghost use Rattle.std.specs.Prelude.{◌≡◌, ◌++◌, ◌⊎◌, ◌∷◌, [], ◌↔◌, IsTrue, IfOk, OnOk, List as Seq};
ghost use Rattle.fort_types_sets.specs.declared.field.Field.{Field as AField};
ghost use Rattle.fort_member_fields.specs.Walks.{SomeIn, HasFieldNamed, IsLike, LikeAt, KnowsNames, Gathers};

use fort_base::{List, Memory, NameId};
use fort_types_sets::Field;
use indexmap::IndexMap;
use std::alloc::Global;

/// The fields that a trait is known to have so far: first those that it declares.
#[derive(Drop)]
pub struct Gathering {
    pub fields: List<Field>,
    /// The place in the list of the first field of each name.
    pub first: IndexMap<u32, usize>,
}

impl Gathering {
    /// The fields that a trait declares.
    pub fn new(alloc: Global, own: &[Field]) -> Result<Gathering, Memory>
        ensures knows { IfOk result KnowsNames }
        ensures gathers { IfOk result (λ gathering. Gathers own.now [] gathering.fields) }
    {
        let mut gathering = Gathering {
            fields: List::new(alloc),
            first: IndexMap::new(alloc),
        };
        for field in own {
            gathering.push(alloc, field)?;
        }
        Ok(gathering)
    }

    /// Adds the fields of a type that the trait extends, but for those of a name that it declares.
    pub fn inherit(&mut self, alloc: Global, own: &[Field], fields: &[Field]) -> Result<(), Memory>
        requires { KnowsNames self.old }
        ensures knows { OnOk result (KnowsNames self.new) }
        ensures gathers { OnOk result ((further : Seq AField)
            → Gathers own.now further self.old.fields
            → Gathers own.now (further ++ fields.now) self.new.fields) }
    {
        for field in fields {
            if self.is_held(own, field) {
                continue;
            }
            self.push(alloc, field)?;
        }
        Ok(())
    }

    /// Puts a field at the end.
    fn push(&mut self, alloc: Global, field: &Field) -> Result<(), Memory>
        ensures pushed { OnOk result (self.new.fields ≡ self.old.fields ++ field.now ∷ []) }
        ensures knows { OnOk result (KnowsNames self.old → KnowsNames self.new) }
    {
        let at = self.fields.len();
        self.fields.push(field.copy(alloc)?)?;
        match self.first.get(&field.name.0) {
            Some(_) => Ok(()),
            None => {
                self.first.insert(field.name.0, at)?;
                Ok(())
            }
        }
    }

    /// Whether the trait declares a field of that name, or there is one of that name and type.
    fn is_held(&self, own: &[Field], field: &Field) -> bool
        requires { KnowsNames self.now }
        ensures { IsTrue result
            ↔ (HasFieldNamed own.now field.now.name ⊎ SomeIn (IsLike field.now) self.now.fields) }
    {
        declares(own, field.name) || self.has(field)
    }

    /// Whether there is a field of that name and type. The first of that name is asked before all
    /// others.
    fn has(&self, field: &Field) -> bool
        requires { KnowsNames self.now }
        ensures { IsTrue result ↔ SomeIn (IsLike field.now) self.now.fields }
    {
        match self.first.get(&field.name.0) {
            None => false,
            Some(at) => {
                is_like(self.fields.as_slice(), *at, field)
                    || any_like(self.fields.as_slice(), field)
            }
        }
    }
}

/// Whether the field at a place has this name and type.
fn is_like(fields: &[Field], at: usize, field: &Field) -> bool
    ensures { IsTrue result ↔ LikeAt fields.now at field.now }
{
    match fields.get(at) {
        Some(other) => same_field(other, field),
        None => false,
    }
}

/// Whether some field of a list has this name and type.
fn any_like(fields: &[Field], field: &Field) -> bool
    ensures { IsTrue result ↔ SomeIn (IsLike field.now) fields.now }
{
    for other in fields {
        if same_field(other, field) {
            return true;
        }
    }
    false
}

/// Whether two fields have one name and one type.
fn same_field(other: &Field, field: &Field) -> bool
    ensures { IsTrue result ↔ IsLike field.now other.now }
{
    other.name == field.name && other.ty.same(&field.ty)
}

/// Whether some field of a list has that name.
pub fn declares(own: &[Field], name: NameId) -> bool
    ensures { IsTrue result ↔ HasFieldNamed own.now name }
{
    for field in own {
        if field.name == name {
            return true;
        }
    }
    false
}
