//! The forms of blocks and of what ends with `end`.
ghost use Rattle.std.specs.Prelude.{◌≡◌, ◌∷◌, [], is_some, map, option_map, IfOk};
ghost use Rattle.fort_tree.specs.declared.delimited.Delimited.{out-Delimited};
ghost use Rattle.fort_form_meaning.specs.Formed.{formed_block_item, formed_catch, formed_delimited, formed_type_clause};
ghost use Rattle.fort_form_meaning.specs.Forming.{caught as caught_by};
ghost use Rattle.fort_form_tasks.specs.Tasks.{delimited_at, formed_block, inside_catch, item_value, type_clause_value};
ghost use Rattle.fort_form_build.specs.Taking.{Gives, binder_of, entry_item, maybe_form};

use crate::expressions::generators;
use crate::items::{PlacedItem, named, placed};
use crate::taking::{take, take_boxed, take_branches, take_forms};
use fort_base::{Boxed, List, Memory, NameId, Place};
use fort_base_stack::Stack;
use fort_form::{Form, Item, TypeBranch};
use fort_form_meaning::{Lookup, type_place};
use fort_tree::{BlockItem, Catch, Delimited, Spot, TypeClause};
use std::alloc::Global;

/// A form that ends with `end`.
pub fn delimited<L: Lookup>(
    alloc: Global,
    lookup: &L,
    form: &Delimited,
    forms: &mut Stack<Form>,
) -> Result<Form, Memory>
    ensures { IfOk result
        (Gives (delimited_at (L.source lookup.now) (out-Delimited form.now))
        (formed_delimited (L.source lookup.now) form.now) forms.old forms.new) }
{
    match form {
        Delimited::Do { do_, others, .. } => {
            let blocks = take_forms(alloc, forms, 1 + others.as_slice().len())?;
            Ok(Form::Do(do_.place, blocks))
        }
        Delimited::If {
            if_,
            elifs,
            otherwise,
            ..
        } => {
            let branches = take_branches(alloc, forms, 1 + elifs.as_slice().len())?;
            let last = maybe(alloc, otherwise.is_some(), forms)?;
            Ok(Form::If(if_.place, branches, last))
        }
        Delimited::While { while_, .. } => {
            let condition = take_boxed(alloc, forms)?;
            let block = take_boxed(alloc, forms)?;
            Ok(Form::While(while_.place, condition, block))
        }
        Delimited::For {
            for_,
            generator,
            others,
            ..
        } => {
            let binders = generators(alloc, generator.get(), others.as_slice(), forms)?;
            let block = take_boxed(alloc, forms)?;
            Ok(Form::For(for_.place, binders, block))
        }
        Delimited::Case {
            case,
            clauses,
            otherwise,
            ..
        } => {
            let subject = take_boxed(alloc, forms)?;
            let branches = take_branches(alloc, forms, clauses.len())?;
            let last = maybe(alloc, otherwise.is_some(), forms)?;
            Ok(Form::Case(case.place, subject, branches, last))
        }
        Delimited::Typecase {
            typecase,
            name,
            clauses,
            otherwise,
            ..
        } => {
            let subject = take_boxed(alloc, forms)?;
            let branches = type_branches(alloc, lookup, clauses.as_slice(), forms)?;
            let last = maybe(alloc, otherwise.is_some(), forms)?;
            Ok(Form::Typecase(
                typecase.place,
                name.spot.place,
                name.id,
                subject,
                branches,
                last,
            ))
        }
        Delimited::Try {
            try_,
            catch,
            finally,
            ..
        } => {
            let block = take_boxed(alloc, forms)?;
            let branches = caught(alloc, lookup, catch, forms)?;
            let last = maybe(alloc, finally.is_some(), forms)?;
            Ok(Form::Try(try_.place, block, binder(catch), branches, last))
        }
    }
}

/// The top where there is to be one.
fn maybe(alloc: Global, is: bool, forms: &mut Stack<Form>) -> Result<Option<Boxed<Form>>, Memory>
    ensures { IfOk result (λ made. (last : _) → is_some last ≡ is
        → Gives (maybe_form last) last forms.old forms.new made) }
{
    if is {
        let last = take_boxed(alloc, forms)?;
        return Ok(Some(last));
    }
    Ok(None)
}

/// What a `catch` that may be left out binds.
fn binder(catch: &Option<Catch>) -> Option<(Place, NameId)>
    ensures { (k : _) → result ≡ binder_of (option_map (formed_catch k) catch.now) }
{
    match catch {
        None => None,
        Some(catch) => Some(named(&catch.name)),
    }
}

/// The clauses of a `catch` that may be left out.
fn caught<L: Lookup>(
    alloc: Global,
    lookup: &L,
    catch: &Option<Catch>,
    forms: &mut Stack<Form>,
) -> Result<List<TypeBranch>, Memory>
    ensures { IfOk result
        (Gives (inside_catch (L.source lookup.now) catch.now)
        (caught_by (option_map (formed_catch (L.source lookup.now)) catch.now)) forms.old
        forms.new) }
{
    match catch {
        None => Ok(List::new(alloc)),
        Some(catch) => {
            let made = type_branches(alloc, lookup, catch.clauses.as_slice(), forms)?;
            Ok(made)
        }
    }
}

/// The clauses of a `typecase` or a `catch`.
fn type_branches<L: Lookup>(
    alloc: Global,
    lookup: &L,
    clauses: &[TypeClause],
    forms: &mut Stack<Form>,
) -> Result<List<TypeBranch>, Memory>
    ensures { IfOk result
        (Gives (map (type_clause_value (L.source lookup.now)) clauses.now)
        (map (formed_type_clause (L.source lookup.now)) clauses.now) forms.old forms.new) }
{
    let mut made = List::new(alloc);
    for clause in clauses {
        made.push(type_branch(alloc, lookup, clause, forms)?)?;
    }
    Ok(made)
}

/// A clause of a `typecase` or a `catch`.
fn type_branch<L: Lookup>(
    alloc: Global,
    lookup: &L,
    clause: &TypeClause,
    forms: &mut Stack<Form>,
) -> Result<TypeBranch, Memory>
    ensures { IfOk result
        (Gives (type_clause_value (L.source lookup.now) clause.now ∷ [])
        (formed_type_clause (L.source lookup.now) clause.now) forms.old forms.new) }
{
    let ty = lookup.written_type(alloc, &clause.ty)?;
    let value = take(forms)?;
    Ok(TypeBranch {
        place: type_place(&clause.ty),
        ty,
        value,
    })
}

/// A block behind a word.
pub fn block<L: Lookup>(
    alloc: Global,
    lookup: &L,
    word: Spot,
    entries: &[BlockItem],
    forms: &mut Stack<Form>,
) -> Result<Form, Memory>
    ensures { IfOk result
        (Gives (map (item_value (L.source lookup.now)) entries.now)
        (formed_block (L.source lookup.now) word entries.now) forms.old forms.new) }
{
    match entries.split_first() {
        None => Ok(Form::Block(word.place, List::new(alloc))),
        Some((first, others)) => Ok(filled(alloc, lookup, first, others, forms)?),
    }
}

/// A block that has an item.
fn filled<L: Lookup>(
    alloc: Global,
    lookup: &L,
    first: &BlockItem,
    others: &[BlockItem],
    forms: &mut Stack<Form>,
) -> Result<Form, Memory>
    ensures { IfOk result (λ form. (word : _)
        → Gives (map (item_value (L.source lookup.now)) (first.now ∷ others.now))
        (formed_block (L.source lookup.now) word (first.now ∷ others.now)) forms.old forms.new
        form) }
{
    let begun = placed(alloc, lookup, first, forms)?;
    let PlacedItem { place, item } = begun;
    let mut items = List::new(alloc);
    items.push(item)?;
    let further = further_items(alloc, lookup, others, forms)?;
    items.append(further)?;
    Ok(Form::Block(place, items))
}

/// Items of a block.
fn further_items<L: Lookup>(
    alloc: Global,
    lookup: &L,
    entries: &[BlockItem],
    forms: &mut Stack<Form>,
) -> Result<List<Item>, Memory>
    ensures { IfOk result
        (Gives (map (item_value (L.source lookup.now)) entries.now)
        (map (entry_item (L.source lookup.now)) entries.now) forms.old forms.new) }
{
    let mut made = List::new(alloc);
    for entry in entries {
        made.push(next_item(alloc, lookup, entry, forms)?)?;
    }
    Ok(made)
}

/// An item of a block.
fn next_item<L: Lookup>(
    alloc: Global,
    lookup: &L,
    entry: &BlockItem,
    forms: &mut Stack<Form>,
) -> Result<Item, Memory>
    ensures { IfOk result
        (Gives (item_value (L.source lookup.now) entry.now ∷ [])
        (entry_item (L.source lookup.now) entry.now) forms.old forms.new) }
{
    let made = placed(alloc, lookup, entry, forms)?;
    let PlacedItem { item, .. } = made;
    Ok(item)
}
