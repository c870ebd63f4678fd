//! Index of sets and types by name.
ghost use Rattle.std.specs.Prelude.{◌≡◌, suc, drop, slice_get, Some, IfOk};
ghost use Rattle.fort_types_sets.specs.declared.member.MemberSet.{MemberSet};
ghost use Rattle.std.proofs.Props.{props};
ghost use Rattle.fort_typing_known.specs.Spellings.{Spelling};
ghost use Rattle.fort_typing_known.specs.Places.{placed_as, place_by, is_itself, set_name, IsChain};

use crate::places::Places;
use fort_base::{Bytes, Memory};
use fort_types_sets::{MemberSet, Members};
use std::alloc::Global;

/// The declared types and the members of a component, and where the types and the sets of each
/// spelling stand. It is made once for a component; then what is looked up by a spelling costs as
/// much as there are sets of that very spelling.
#[derive(Drop)]
pub struct Index<'a> {
    /// The names of the declared types, by their numbers.
    pub types: &'a [Bytes],
    /// The component's fields, its overload sets, and its variables at the top.
    pub members: &'a Members,
    numbers: Places<'a>,
    firsts: Places<'a>,
    nexts: Vec<Option<usize>>,
    // A spelling has the number of the first type that is spelled so.
    ghost by_type: { (s : Spelling) → placed_as numbers s ≡ place_by is_itself 0 types.now s } by { Prim.hlevel props },
    // A spelling has the number of the first set that is spelled so.
    ghost by_set: { (s : Spelling) → placed_as firsts s ≡ place_by set_name 0 members.now.sets s } by { Prim.hlevel props },
    // A set has the number of the next one that is spelled as it is.
    ghost chained: { IsChain members.now.sets nexts.items } by { Prim.hlevel props },
}

/// The number of the first type of each spelling.
fn numbers_of<'a>(alloc: Global, types: &'a [Bytes]) -> Result<Places<'a>, Memory>
    ensures { IfOk result (λ numbers. (s : Spelling)
        → placed_as numbers s ≡ place_by is_itself 0 types.now s) }
{
    let mut numbers = Places::new(alloc);
    let mut number = types.len();
    while number > 0 {
        number -= 1;
        numbers.put(types[number].as_slice(), number)?;
    }
    Ok(numbers)
}

/// The number of the first set of each spelling, and behind each set that of the next one of its
/// spelling.
fn firsts_of<'a>(
    alloc: Global,
    sets: &'a [MemberSet],
) -> Result<(Places<'a>, Vec<Option<usize>>), Memory>
    ensures firsts { IfOk result (λ made. (s : Spelling)
        → placed_as made.0 s ≡ place_by set_name 0 sets.now s) }
    ensures nexts { IfOk result (λ made. IsChain sets.now made.1.items) }
{
    let mut firsts = Places::new(alloc);
    let mut nexts = vec![in alloc; None; sets.len()]?;
    let mut number = sets.len();
    while number > 0 {
        number -= 1;
        nexts[number] = firsts.put(sets[number].name.as_slice(), number)?;
    }
    Ok((firsts, nexts))
}

/// The index of a component with these types and members; or want of memory.
pub fn index_of<'a>(
    alloc: Global,
    types: &'a [Bytes],
    members: &'a Members,
) -> Result<Index<'a>, Memory>
    ensures types { IfOk result (λ index. index.types.now ≡ types.now) }
    ensures members { IfOk result (λ index. index.members.now ≡ members.now) }
{
    let numbers = numbers_of(alloc, types)?;
    let (firsts, nexts) = firsts_of(alloc, members.sets.as_slice())?;
    Ok(Index {
        types,
        members,
        numbers,
        firsts,
        nexts,
    })
}

impl<'a> Index<'a> {
    /// The number of the first type that is spelled so.
    pub fn type_named(&self, spelling: &[u8]) -> Option<usize>
        ensures { result ≡ place_by is_itself 0 self.now.types.now spelling.now }
    {
        self.numbers.get(spelling)
    }

    /// The number of the first set that is spelled so.
    pub fn set_named(&self, spelling: &[u8]) -> Option<usize>
        ensures { result ≡ place_by set_name 0 self.now.members.now.sets spelling.now }
    {
        self.firsts.get(spelling)
    }

    /// The number of the next set that is spelled as the one of a number is.
    pub fn set_behind(&self, number: usize) -> Option<usize>
        ensures { (set : MemberSet) → slice_get self.now.members.now.sets number ≡ Some set
            → result ≡ place_by set_name (suc number) (drop (suc number) self.now.members.now.sets)
            set.name }
    {
        match self.nexts.get(number) {
            Some(next) => *next,
            None => None,
        }
    }
}
