//! A stack, which contracts see as the list of its items, the top first.
#![tactic(auto)]

ghost use Rattle.std.specs.Prelude.{◌≡◌, [], ◌∷◌, MatchOption, OnOk};

use fort_base::Memory;
use std::alloc::Global;
use std::marker::Model;

/// A stack, seen as the list of its items, the top first.
#[derive(Drop)]
pub struct Stack<T> {
    items: Vec<T>,
}

impl<T> Model for Stack<T> {
    ghost use Rattle.std.specs.Prelude.{List as Seq, reverse};
    ghost use Rattle.std.specs.Coded.{coded_list};

    ghost Value = { Seq T };

    ghost coded = { coded_list T.code };

    ghost view = { λ it. reverse it.items.items };
}

impl<T: Drop> Stack<T> {
    /// The stack of no items; it takes no memory.
    pub fn new(alloc: Global) -> Stack<T>
        ensures { result ≡ [] }
    {
        Stack {
            items: Vec::new(alloc),
        }
    }

    /// Puts an item on the top, or answers want of memory.
    pub fn push(&mut self, item: T) -> Result<(), Memory>
        ensures { OnOk result (self.new ≡ item ∷ self.old) }
    {
        self.items.push(item)?;
        Ok(())
    }

    /// Takes the top off, or answers `None` where there is none.
    pub fn pop(&mut self) -> Option<T>
        ensures { MatchOption result ((self.old ≡ [])
            × (self.new ≡ [])) (λ top. self.old ≡ top ∷ self.new) }
    {
        self.items.pop()
    }
}
