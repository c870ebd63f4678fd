//! The numbers of names by their spellings.
ghost use Rattle.std.specs.Prelude.{◌≡◌, ◌++◌, ◌∷◌, [], length, IfOk, OnOk, List as Seq};
ghost use Rattle.fort_link_table.specs.Names.{Spelling};
ghost use Rattle.fort_link_table.specs.Numbers.{NumberIs, HoldsNumbers};

use fort_base::{Bytes, Memory};
use indexmap::IndexMap;
use std::alloc::Global;

/// A length as a number of 32 bits.
///
/// # Errors
///
/// `Memory` where it is none.
pub fn number_for(length: usize) -> Result<u32, Memory>
    ensures { IfOk result (λ number. number ≡ length) }
{
    match u32::try_from(length) {
        Ok(number) => Ok(number),
        Err(_) => Err(Memory),
    }
}

/// The number of each name by its spelling.
#[derive(Drop)]
pub struct Numbers<'a> {
    pub known: IndexMap<&'a [u8], u32>,
}

impl<'a> Numbers<'a> {
    /// No name yet, and room for so many.
    fn with_room(alloc: Global, room: usize) -> Result<Numbers<'a>, Memory>
        ensures { IfOk result (HoldsNumbers []) }
    {
        Ok(Numbers {
            known: IndexMap::with_capacity(alloc, room)?,
        })
    }

    /// The numbers of names.
    ///
    /// # Errors
    ///
    /// `Memory`, also where a number doesn't fit in 32 bits.
    pub fn of(alloc: Global, names: &'a [Bytes]) -> Result<Numbers<'a>, Memory>
        ensures { IfOk result (HoldsNumbers names.now) }
    {
        let mut numbers = Numbers::with_room(alloc, names.len())?;
        for i in 0..names.len() {
            numbers.add(names[i].as_slice(), number_for(i)?)?;
        }
        Ok(numbers)
    }

    /// Gives a spelling the next number, where it has none yet. Most have none: so the map is asked
    /// once, and gets the older number back where there was one.
    pub fn add(&mut self, spelling: &'a [u8], number: u32) -> Result<(), Memory>
        ensures { OnOk result ((names : Seq Spelling) → HoldsNumbers names self.old
            → length names ≡ number
            → HoldsNumbers (names ++ spelling.now ∷ []) self.new) }
    {
        if let Some(first) = self.known.insert(spelling, number)? {
            self.known.insert(spelling, first)?;
        }
        Ok(())
    }

    /// The number of a spelling, or none where no name is spelled so.
    pub fn get(&self, spelling: &[u8]) -> Option<u32>
        ensures { (names : Seq Spelling) → HoldsNumbers names self.now
            → NumberIs names spelling.now result }
    {
        match self.known.get(spelling) {
            Some(number) => Some(*number),
            None => None,
        }
    }
}
