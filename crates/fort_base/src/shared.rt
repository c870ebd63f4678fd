ghost use Rattle.std.specs.Prelude.{◌≡◌, IfOk, IfSome, MatchResult};
ghost use Rattle.std.specs.Arc.{arc_value};

use crate::list::List;
use crate::refusal::Memory;
use std::alloc::Global;
use std::marker::Model;
use std::mem;
use std::sync::Arc;

/// A value with several owners, in any threads, that contracts see as the value; a copy is one
/// count more.
#[derive(Drop)]
pub struct Shared<T> {
    inner: Arc<T>,
}

impl<T> Model for Shared<T> {
    ghost Value = { T };

    ghost coded = { T.code };

    ghost view = { λ b. b.inner.value };
}

impl<T> Shared<T> {
    ghost use Rattle.std.specs.Borrow.{LendsIf, sem};
    ghost use Rattle.fort_base.specs.contracts.shared.Shared.{the_row};

    /// The value, lent.
    pub fn get(&self) -> &T
        ensures { result.now ≡ self.now }
    {
        &self.inner
    }

    /// One more owner of the same value; it takes no memory, and fails where there are 2^63 owners.
    pub fn share(&self) -> Result<Shared<T>, Memory>
        ensures { IfOk result (λ b. b ≡ self.now) }
    {
        Ok(Shared {
            inner: Arc::try_clone(&self.inner)?,
        })
    }

    /// The value, where this is its only owner; else itself again.
    pub fn alone(self) -> Result<T, Shared<T>>
        ensures { MatchResult result (λ v. v ≡ self) (λ s. s ≡ self) }
    {
        let Shared { inner } = self;
        match Arc::try_unwrap(inner) {
            Ok(value) => Ok(value),
            Err(inner) => Err(Shared { inner }),
        }
    }

    /// Puts a value in the place of its own, which it hands out, where this is its only owner; else
    /// hands the other value back. It takes no memory.
    pub fn replace(&mut self, value: T) -> Result<T, T>
        ensures { MatchResult result (λ own. (own ≡ self.old)
            × (self.new ≡ value)) (λ back. (back ≡ value) × (self.new ≡ self.old)) }
    {
        match Arc::get_mut(&mut self.inner) {
            Some(place) => Ok(mem::replace(place, value)),
            None => Err(value),
        }
    }

    /// The value, lent to be changed, where this is its only owner; else `None`, and nothing
    /// changes. It takes no memory.
    pub fn lent(&mut self) -> Option<&mut T>
        ensures* writes_back { sem 𝓛
            (LendsIf (the_row T.row) T.row self.entry result (λ w. w) self.entry.now) }
        ensures value { IfSome result (λ v. v.now ≡ self.old) }
    {
        Arc::get_mut(&mut self.inner)
    }

    /// The value, where this was its last owner; else this owner is given up.
    pub fn last(self) -> Option<T>
        ensures { IfSome result (λ v. v ≡ self) }
    {
        let Shared { inner } = self;
        Arc::into_inner(inner)
    }
}

impl<T: Drop> Shared<T> {
    /// Puts a value where it may have several owners; where memory is wanting the value is dropped.
    pub fn new(alloc: Global, value: T) -> Result<Shared<T>, Memory>
        ensures { IfOk result (λ b. b ≡ value) }
    {
        match Arc::new(alloc, value) {
            Ok(inner) => Ok(Shared { inner }),
            Err(_) => Err(Memory),
        }
    }
}

impl<T: Drop> List<Shared<T>> {
    /// A list of the same items in the same order, each with one owner more.
    pub fn share(&self, alloc: Global) -> Result<List<Shared<T>>, Memory>
        ensures { IfOk result (λ list. list ≡ self.now) }
    {
        let mut all = List::new(alloc);
        for item in self.as_slice() {
            all.push(item.share()?)?;
        }
        Ok(all)
    }
}
