//! The numbers of types by their spellings.
ghost use Rattle.std.specs.Prelude.{◌≡◌, ◌++◌, ◌∷◌, ◌<◌, ◌^◌, [], length, map, IfOk, OnOk, List as Seq};
ghost use Rattle.fort_types_builtin.specs.Types.{declared_spellings};
ghost use Rattle.fort_hier.specs.Names.{Spelling};
ghost use Rattle.fort_hier.specs.Numbers.{NumberIs, HoldsNumbers, all_types, number_of, head_spelling};

use crate::heads::TypeHead;
use crate::spellings::spelled;
use fort_base::{Bytes, Memory};
use fort_types_builtin::{TYPE_COUNT, type_name};
use indexmap::IndexMap;
use std::alloc::Global;

/// The number of each type by its spelling.
#[derive(Drop)]
pub struct Numbers<'a> {
    pub known: IndexMap<&'a [u8], usize>,
}

/// The numbers of the declared types, and behind them that of `Any`.
pub fn numbers_in<'a>(
    alloc: Global,
    names: &'a [Bytes],
    heads: &[TypeHead],
) -> Result<Numbers<'a>, Memory>
    requires { length heads.now < 2 ^ 31 }
    ensures { IfOk result (HoldsNumbers (all_types names.now heads.now)) }
{
    let mut numbers = Numbers::new(alloc);
    add_built_in(&mut numbers)?;
    add_heads(names, heads, &mut numbers)?;
    numbers.add(type_name(TYPE_COUNT), TYPE_COUNT + heads.len())?;
    Ok(numbers)
}

/// Adds the built-in declared types to none.
fn add_built_in<'a>(numbers: &mut Numbers<'a>) -> Result<(), Memory>
    requires { HoldsNumbers [] numbers.old }
    ensures { OnOk result (HoldsNumbers declared_spellings numbers.new) }
{
    for number in 0..TYPE_COUNT {
        numbers.add(type_name(number), number)?;
    }
    Ok(())
}

/// Adds the types of a component to the built-in ones.
fn add_heads<'a>(
    names: &'a [Bytes],
    heads: &[TypeHead],
    numbers: &mut Numbers<'a>,
) -> Result<(), Memory>
    requires few { length heads.now < 2 ^ 31 }
    requires built_in { HoldsNumbers declared_spellings numbers.old }
    ensures { OnOk result
        (HoldsNumbers (declared_spellings ++ map (head_spelling names.now) heads.now) numbers.new) }
{
    for i in 0..heads.len() {
        numbers.add(spelled(names, heads[i].name), TYPE_COUNT + i)?;
    }
    Ok(())
}

impl<'a> Numbers<'a> {
    /// No spelling yet.
    fn new(alloc: Global) -> Numbers<'a>
        ensures { HoldsNumbers [] result }
    {
        Numbers {
            known: IndexMap::new(alloc),
        }
    }

    /// Gives a spelling the next number, where it has none yet.
    fn add(&mut self, spelling: &'a [u8], number: usize) -> Result<(), Memory>
        ensures { OnOk result ((list : Seq Spelling) → HoldsNumbers list self.old
            → length list ≡ number
            → HoldsNumbers (list ++ spelling.now ∷ []) self.new) }
    {
        match self.known.get(spelling) {
            Some(_) => Ok(()),
            None => {
                self.known.insert(spelling, number)?;
                Ok(())
            }
        }
    }

    /// The number of a spelling, or none where it is no type's.
    pub fn get(&self, spelling: &[u8]) -> Option<usize>
        ensures { (list : Seq Spelling) → HoldsNumbers list self.now
            → NumberIs list spelling.now result }
    {
        match self.known.get(spelling) {
            Some(number) => Some(*number),
            None => None,
        }
    }

    /// The number of a spelling, or the number behind all where it is no type's.
    pub fn number(&self, spelling: &[u8], size: usize) -> usize
        ensures { (list : Seq Spelling) → HoldsNumbers list self.now → length list ≡ size
            → result ≡ number_of list spelling.now }
    {
        match self.get(spelling) {
            Some(number) => number,
            None => size,
        }
    }
}
