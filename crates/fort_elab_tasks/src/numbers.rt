//! Numbers whose terms aren't finished.
ghost use Rattle.std.specs.Prelude.{◌≡◌, [], ◌∷◌, MatchOption, OnOk};
ghost use Rattle.fort_elab_tasks.specs.States.{latest, newest};

use fort_base::Memory;
use std::alloc::Global;
use std::marker::Model;

/// The numbers of variables and of functions whose terms aren't finished, seen as a list with the
/// newest first.
#[derive(Drop)]
pub struct Numbers {
    held: Vec<u32>,
}

impl Model for Numbers {
    ghost use Rattle.std.specs.Prelude.{ℕ, List as Seq, reverse};

    ghost Value = { Seq ℕ };

    ghost view = { λ it. reverse it.held.items };
}

impl Numbers {
    /// No numbers; it takes no memory.
    pub fn new(alloc: Global) -> Numbers
        ensures { result ≡ [] }
    {
        Numbers {
            held: Vec::new(alloc),
        }
    }

    /// A number becomes the newest, or want of memory.
    pub fn push(&mut self, number: u32) -> Result<(), Memory>
        ensures { OnOk result (self.new ≡ number ∷ self.old) }
    {
        self.held.push(number)?;
        Ok(())
    }

    /// Takes the newest number off, or answers `None` where there is none.
    pub fn pop(&mut self) -> Option<u32>
        ensures { MatchOption result ((self.old ≡ [])
            × (self.new ≡ [])) (λ number. self.old ≡ number ∷ self.new) }
    {
        self.held.pop()
    }

    /// The newest number, or 0 where there is none.
    pub fn newest(&self) -> u32
        ensures { result ≡ newest self.now }
    {
        match self.held.last() {
            Some(number) => *number,
            None => 0,
        }
    }

    /// So many of the newest numbers, the oldest of them first, or all where there are fewer.
    pub fn latest(&self, count: usize) -> &[u32]
        ensures { result.now ≡ latest count self.now }
    {
        let all = self.held.len();
        if all <= count {
            &self.held[..]
        } else {
            &self.held[all - count..]
        }
    }
}
