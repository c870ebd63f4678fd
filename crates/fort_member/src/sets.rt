//! The overload sets, of their declarations.
ghost use Rattle.std.specs.Prelude.{◌≡◌, ◌++◌, ◌∷◌, [], ◌↔◌, IsTrue, IfOk, OnOk, List as Seq};
ghost use Rattle.fort_member.specs.declared.entries.Entry.{Entry as AnEntry};
ghost use Rattle.fort_member.specs.Sets.{sets_of, same_key, key_of, set_key, width_of as first_width, PlaceIs, one_set};

use crate::entries::Entry;
use fort_base::{List, Memory};
use fort_types_sets::MemberSet;
use std::alloc::Global;

/// The sets of declarations, in the order of their first ones.
pub fn sets_in(alloc: Global, entries: List<Entry>) -> Result<List<MemberSet>, Memory>
    ensures { IfOk result (λ sets. sets ≡ sets_of entries) }
{
    let mut sets = Vec::new(alloc);
    for entry in entries.into_vec() {
        add(alloc, entry, &mut sets)?;
    }
    Ok(List::from_vec(sets))
}

/// Puts a declaration into its set.
fn add(alloc: Global, entry: Entry, sets: &mut Vec<MemberSet>) -> Result<(), Memory>
    ensures { OnOk result ((before : Seq AnEntry) → sets.old.items ≡ sets_of before
        → sets.new.items ≡ sets_of (before ++ entry ∷ [])) }
{
    match place_of_set(sets.as_slice(), &entry) {
        Some(at) => {
            sets[at].members.push(entry.member)?;
            Ok(())
        }
        None => {
            sets.push(set_of_one(alloc, entry)?)?;
            Ok(())
        }
    }
}

/// A set of one declaration.
fn set_of_one(alloc: Global, entry: Entry) -> Result<MemberSet, Memory>
    ensures { IfOk result (λ set. set ≡ one_set entry) }
{
    let Entry {
        name,
        dotted,
        member,
    } = entry;
    let mut members = List::new(alloc);
    members.push(member)?;
    Ok(MemberSet {
        name,
        dotted,
        members,
    })
}

/// The place of a declaration's set among the sets so far, or `None` where there is none yet.
fn place_of_set(sets: &[MemberSet], entry: &Entry) -> Option<usize>
    ensures { PlaceIs sets.now entry.now result }
{
    for (at, set) in sets.iter().enumerate() {
        if is_of_set(set, entry) {
            return Some(at);
        }
    }
    None
}

/// Whether a declaration has a set's name, kind and number of parameters.
fn is_of_set(set: &MemberSet, entry: &Entry) -> bool
    ensures { result ≡ same_key (set_key set.now) (key_of entry.now) }
{
    set.name.as_slice() == entry.name.as_slice()
        && set.dotted == entry.dotted
        && width_of(set) == entry.member.parameters.len()
}

/// The number of parameters of a set's declarations.
fn width_of(set: &MemberSet) -> usize
    ensures { result ≡ first_width set.now.members }
{
    match set.members.get(0) {
        Some(member) => member.parameters.len(),
        None => 0,
    }
}
