//! Items of blocks.
ghost use Rattle.std.specs.Prelude.{◌≡◌, ◌∷◌, ◌||◌, [], is_some, map, IfOk};
ghost use Rattle.fort_tree.specs.declared.declarations.Variable.{out-Variable};
ghost use Rattle.fort_tree.specs.Measures.{var_spot};
ghost use Rattle.fort_tree.specs.declared.spot.NextName.{NextName as ANextName};
ghost use Rattle.fort_form_meaning.specs.Formed.{formed_block_item, formed_expr, formed_variable};
ghost use Rattle.fort_form_meaning.specs.Forming.{becomes as sign_becomes, binder as bound};
ghost use Rattle.fort_form_tasks.specs.Tasks.{item_value};
ghost use Rattle.fort_form_build.specs.Taking.{Gives, placed_as};

use crate::taking::take;
use fort_base::{List, Memory, NameId, Place};
use fort_base_stack::Stack;
use fort_form::{Form, Item};
use fort_form_meaning::{Lookup, place_of};
use fort_tree::{BlockItem, InitialSign, Item as ItemTree, Name, NextName, Variable};
use std::alloc::Global;

/// An item of a block, and the place of its first token.
#[derive(Drop)]
pub struct PlacedItem {
    pub place: Place,
    pub item: Item,
}

/// An item of a block, with its place.
pub fn placed<L: Lookup>(
    alloc: Global,
    lookup: &L,
    entry: &BlockItem,
    forms: &mut Stack<Form>,
) -> Result<PlacedItem, Memory>
    ensures { IfOk result
        (λ made. Gives (item_value (L.source lookup.now) entry.now ∷ [])
        (formed_block_item (L.source lookup.now) entry.now) forms.old forms.new
        (placed_as made.place made.item)) }
{
    let value = take(forms)?;
    match &entry.item {
        ItemTree::Variable(variable) => Ok(local(alloc, lookup, variable.get(), value)?),
        ItemTree::Names {
            left,
            first,
            others,
            ty,
            ..
        } => {
            let names = binders(alloc, first, others.as_slice())?;
            let wanted = lookup.written_type(alloc, ty.get())?;
            Ok(PlacedItem {
                place: left.place,
                item: Item::Locals(left.place, names, wanted, value),
            })
        }
        ItemTree::Expr(_) => {
            let place = place_of(&value);
            Ok(PlacedItem {
                place,
                item: Item::Expression(value),
            })
        }
    }
}

/// A local variable, whose initial this is.
fn local<L: Lookup>(
    alloc: Global,
    lookup: &L,
    variable: &Variable,
    value: Form,
) -> Result<PlacedItem, Memory>
    ensures { IfOk result (λ made. value
        ≡ formed_expr (L.source lookup.now) (out-Variable variable.now).value
        → placed_as made.place made.item ≡ formed_variable (L.source lookup.now) variable.now) }
{
    let ty = lookup.written_type(alloc, &variable.ty)?;
    let name = variable.name;
    let mutable = is_mutable(variable);
    Ok(PlacedItem {
        place: variable_place(variable),
        item: Item::Local(name.spot.place, name.id, mutable, ty, value),
    })
}

/// Where a declaration of a variable begins.
fn variable_place(variable: &Variable) -> Place
    ensures { result
        ≡ (var_spot (out-Variable variable.now).var (out-Variable variable.now).name.spot).place }
{
    match variable.var {
        Some(spot) => spot.place,
        None => variable.name.spot.place,
    }
}

/// Whether a declaration of a variable is that of a mutable one: with `var` or with `:=`.
fn is_mutable(variable: &Variable) -> bool
    ensures { result
        ≡ (is_some (out-Variable variable.now).var
        || sign_becomes (out-Variable variable.now).sign) }
{
    variable.var.is_some() || becomes(variable.sign)
}

/// Whether a sign makes what it initialises mutable.
fn becomes(sign: InitialSign) -> bool
    ensures { result ≡ sign_becomes sign }
{
    match sign {
        InitialSign::Equals(_) => false,
        InitialSign::Becomes(_) => true,
    }
}

/// The names of a local tuple.
fn binders(
    alloc: Global,
    first: &Name,
    others: &[NextName],
) -> Result<List<(Place, NameId)>, Memory>
    ensures { IfOk result (λ names. names ≡ bound first.now ∷ map (λ
        (next : ANextName). bound next.name) others.now) }
{
    let mut names = List::new(alloc);
    names.push(named(first))?;
    for next in others {
        names.push(named(&next.name))?;
    }
    Ok(names)
}

/// A name that is bound, behind its place.
pub fn named(name: &Name) -> (Place, NameId)
    ensures { result ≡ bound name.now }
{
    (name.spot.place, name.id)
}
