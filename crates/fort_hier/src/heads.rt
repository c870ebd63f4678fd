//! The heads of the declared types: what stands before their members.
ghost use Rattle.std.specs.Prelude.{◌≡◌, ◌++◌, [], ◌∷◌, map, IfOk, OnOk};
ghost use Rattle.fort_hier.specs.Heads.{names_of, name_of, extends_of, excludes_of, comprises_of, trait_head, object_head, head_of, heads_of};

use fort_base::{List, Memory};
use fort_tree::{
    Component, Comprises, Declaration, Excludes, Extends, Name, Names, NextName, Object, Trait,
};
use fort_types::TypeKind;
use std::alloc::Global;

/// The head of a declaration of a trait or object.
#[derive(Drop)]
pub struct TypeHead {
    pub name: Name,
    pub kind: TypeKind,
    /// Which declaration of the component it is, counted from 0.
    pub body: usize,
    /// The names of its `extends`, where it has one.
    pub extends: Option<List<Name>>,
    /// The names of its `excludes`; none where it has none.
    pub excludes: List<Name>,
    /// The names of its `comprises`; none where it has none.
    pub comprises: List<Name>,
}

/// The heads of a component's types, in their order.
pub fn heads_in(alloc: Global, component: &Component) -> Result<List<TypeHead>, Memory>
    ensures { IfOk result (λ list. list ≡ heads_of component.now) }
{
    let mut list = List::new(alloc);
    let declarations = component.declarations.as_slice();
    for body in 0..declarations.len() {
        add_head(alloc, body, &declarations[body].declaration, &mut list)?;
    }
    Ok(list)
}

/// Adds the head of a declaration, where it declares a type.
fn add_head(
    alloc: Global,
    body: usize,
    declaration: &Declaration,
    list: &mut List<TypeHead>,
) -> Result<(), Memory>
    ensures { OnOk result (list.new ≡ list.old ++ head_of body declaration.now) }
{
    match declaration {
        Declaration::Trait(declared) => list.push(head_of_trait(alloc, body, declared)?),
        Declaration::Object(declared) => list.push(head_of_object(alloc, body, declared)?),
        Declaration::Variable(_) => Ok(()),
        Declaration::Function(_) => Ok(()),
    }
}

/// The head of a trait.
fn head_of_trait(alloc: Global, body: usize, declared: &Trait) -> Result<TypeHead, Memory>
    ensures { IfOk result (λ head. head ≡ trait_head body declared.now) }
{
    Ok(TypeHead {
        name: declared.name,
        kind: TypeKind::Trait,
        body,
        extends: extended(alloc, &declared.extends)?,
        excludes: excluded(alloc, &declared.excludes)?,
        comprises: comprised(alloc, &declared.comprises)?,
    })
}

/// The head of an object.
fn head_of_object(alloc: Global, body: usize, declared: &Object) -> Result<TypeHead, Memory>
    ensures { IfOk result (λ head. head ≡ object_head body declared.now) }
{
    Ok(TypeHead {
        name: declared.name,
        kind: TypeKind::Object,
        body,
        extends: extended(alloc, &declared.extends)?,
        excludes: List::new(alloc),
        comprises: List::new(alloc),
    })
}

/// The names of an `extends`, where there is one.
fn extended(alloc: Global, extends: &Option<Extends>) -> Result<Option<List<Name>>, Memory>
    ensures { IfOk result (λ names. names ≡ extends_of extends.now) }
{
    match extends {
        Some(part) => Ok(Some(names_in(alloc, &part.names)?)),
        None => Ok(None),
    }
}

/// The names of an `excludes`.
fn excluded(alloc: Global, excludes: &Option<Excludes>) -> Result<List<Name>, Memory>
    ensures { IfOk result (λ names. names ≡ excludes_of excludes.now) }
{
    match excludes {
        Some(part) => names_in(alloc, &part.names),
        None => Ok(List::new(alloc)),
    }
}

/// The names of a `comprises`.
fn comprised(alloc: Global, comprises: &Option<Comprises>) -> Result<List<Name>, Memory>
    ensures { IfOk result (λ names. names ≡ comprises_of comprises.now) }
{
    match comprises {
        Some(part) => names_in(alloc, &part.names),
        None => Ok(List::new(alloc)),
    }
}

/// The names of a list.
fn names_in(alloc: Global, names: &Names) -> Result<List<Name>, Memory>
    ensures { IfOk result (λ list. list ≡ names_of names.now) }
{
    match names {
        Names::One(name) => one_name(alloc, *name),
        Names::Braces {
            left: _,
            first,
            others,
            right: _,
        } => {
            let mut list = one_name(alloc, *first)?;
            add_names(others.as_slice(), &mut list)?;
            Ok(list)
        }
    }
}

/// A list of one name.
fn one_name(alloc: Global, name: Name) -> Result<List<Name>, Memory>
    ensures { IfOk result (λ list. list ≡ name ∷ []) }
{
    let mut list = List::new(alloc);
    list.push(name)?;
    Ok(list)
}

/// Adds the further names of a list.
fn add_names(others: &[NextName], list: &mut List<Name>) -> Result<(), Memory>
    ensures { OnOk result (list.new ≡ list.old ++ map name_of others.now) }
{
    for next in others {
        list.push(next.name)?;
    }
    Ok(())
}
