//! The names in scope.
ghost use Rattle.std.specs.Prelude.{◌≡◌, [], ◌∷◌, OnOk, drop, reverse};
ghost use Rattle.fort_elab_meaning.specs.Making.{number_of};

use fort_base::{Memory, NameId};
use std::alloc::Global;
use std::marker::Model;

/// The names in scope with their variables, seen as a list with the innermost first.
#[derive(Drop)]
pub struct Names {
    bound: Vec<(NameId, u32)>,
}

impl Model for Names {
    ghost use Rattle.std.specs.Prelude.{ℕ, List as Seq, reverse};
    ghost use Rattle.fort_base.specs.declared.ids.NameId.{NameId as Id};

    ghost Value = { Seq (Id × ℕ) };

    ghost view = { λ it. reverse it.bound.items };
}

impl Names {
    /// No names; it takes no memory.
    pub fn new(alloc: Global) -> Names
        ensures { result ≡ [] }
    {
        Names {
            bound: Vec::new(alloc),
        }
    }

    /// A name comes into scope, or want of memory.
    pub fn bind(&mut self, name: NameId, number: u32) -> Result<(), Memory>
        ensures { OnOk result (self.new ≡ (name, number) ∷ self.old) }
    {
        self.bound.push((name, number))?;
        Ok(())
    }

    /// So many names go out of scope, the innermost first.
    pub fn leave(&mut self, count: usize)
        ensures { self.new ≡ drop count self.old }
    {
        let all = self.bound.len();
        if all <= count {
            self.bound.truncate(0);
        } else {
            self.bound.truncate(all - count);
        }
    }

    /// The variable of the innermost binding of a name, or 0 where it isn't in scope.
    pub fn number_of(&self, name: NameId) -> u32
        ensures { result ≡ number_of self.now name }
    {
        innermost(&self.bound, name)
    }
}

/// The variable of the last binding of a name, or 0 where it has none.
fn innermost(bound: &[(NameId, u32)], name: NameId) -> u32
    ensures { result ≡ number_of (reverse bound.now) name }
{
    let all = bound.len();
    for back in 0..all {
        let binding = &bound[all - back - 1];
        if binding.0.0 == name.0 {
            return binding.1;
        }
    }
    0
}
