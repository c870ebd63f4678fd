//! Which set a call is of.
ghost use Rattle.std.specs.Prelude.{◌≡◌, IfOk, get_or, []};
ghost use Rattle.fort_typing_known.specs.Sets.{width_of, has_name, is_set_of, any_set, first_set, spelled, set_of, is_method, is_function};
ghost use Rattle.fort_typing_known.specs.Read.{facts};

use crate::index::Index;
use crate::known::Known;
use fort_base::{Memory, NameId, SetId};
use fort_types_sets::MemberSet;

/// The spelling of a name, or no bytes where the component hasn't the name.
pub fn spelled<'a>(known: &Known<'a>, name: NameId) -> &'a [u8]
    ensures { result.now ≡ spelled (facts known.now) name }
{
    match known.names.get(name.0 as usize) {
        Some(spelling) => spelling.as_slice(),
        None => &[],
    }
}

/// The number of parameters of a set's declarations.
fn width_of(set: &MemberSet) -> usize
    ensures { result ≡ width_of set.now.members }
{
    match set.members.as_slice().first() {
        Some(member) => member.parameters.len(),
        None => 0,
    }
}

/// Whether a set has this name and is of this kind.
pub fn has_name(name: &[u8], dotted: bool, set: &MemberSet) -> bool
    ensures { result ≡ has_name name.now dotted set.now }
{
    set.name.as_slice() == name && set.dotted == dotted
}

/// Whether a set has this name, this kind and this number of parameters.
fn is_set_of(name: &[u8], dotted: bool, width: usize, set: &MemberSet) -> bool
    ensures { result ≡ is_set_of name.now dotted width set.now }
{
    has_name(name, dotted, set) && width_of(set) == width
}

/// Whether some set has this name and is of this kind.
fn any_named(index: &Index, name: &[u8], dotted: bool) -> bool
    ensures { result ≡ any_set (has_name name.now dotted) index.now.members.now.sets }
{
    let sets = index.members.sets.as_slice();
    let mut next = index.set_named(name);
    while let Some(number) = next {
        if has_name(name, dotted, &sets[number]) {
            return true;
        }
        next = index.set_behind(number);
    }
    false
}

/// Where the first set of this name, this kind and this number of parameters stands; past the last
/// one where there is none.
fn first_set(index: &Index, name: &[u8], dotted: bool, width: usize) -> usize
    ensures { result ≡ first_set (is_set_of name.now dotted width) index.now.members.now.sets }
{
    let sets = index.members.sets.as_slice();
    let mut next = index.set_named(name);
    while let Some(number) = next {
        if is_set_of(name, dotted, width, &sets[number]) {
            return number;
        }
        next = index.set_behind(number);
    }
    sets.len()
}

/// The same, by going along all sets.
fn first_among(sets: &[MemberSet], name: &[u8], dotted: bool, width: usize) -> usize
    ensures { result ≡ first_set (is_set_of name.now dotted width) sets.now }
{
    let mut number = 0;
    for set in sets {
        if is_set_of(name, dotted, width, set) {
            return number;
        }
        number += 1;
    }
    number
}

/// A set's number, or `Memory` where it is past all numbers.
fn numbered(number: usize) -> Result<SetId, Memory>
    ensures { IfOk result (λ set. set ≡ record { 0 = number }) }
{
    if number > u32::MAX as usize {
        return Err(Memory);
    }
    Ok(SetId(number as u32))
}

/// Whether some dotted method has the name.
pub fn is_method(known: &Known, name: NameId) -> bool
    ensures { result ≡ is_method (facts known.now) name }
{
    any_named(known.index, spelled(known, name), true)
}

/// Whether some function has the name.
pub fn is_function(known: &Known, name: NameId) -> bool
    ensures { result ≡ is_function (facts known.now) name }
{
    any_named(known.index, spelled(known, name), false)
}

/// The number of the set of a name, a kind and a number of parameters; that of no set where there
/// is none. It answers `Memory` where there are more sets than numbers.
#[tactic(auto, unfolding(crate::specs::Sets::set_of))]
pub fn set_of(known: &Known, name: &[u8], dotted: bool, width: usize) -> Result<SetId, Memory>
    ensures { IfOk result (λ set. set ≡ set_of (facts known.now) name.now dotted width) }
{
    numbered(first_set(known.index, name, dotted, width))
}

/// The same among a component's sets alone, at the cost of going along all of them: for who asks
/// but once.
pub fn set_among(
    sets: &[MemberSet],
    name: &[u8],
    dotted: bool,
    width: usize,
) -> Result<SetId, Memory>
    ensures { IfOk result (λ set. set
        ≡ record { 0 = first_set (is_set_of name.now dotted width) sets.now }) }
{
    numbered(first_among(sets, name, dotted, width))
}
