//! What is kept of a run.
ghost use Rattle.std.specs.Prelude.{◌≡◌, IfOk};

use crate::pick::Pick;
use crate::value::Value;
use fort_base::{List, Memory};
use std::alloc::Global;

/// How a run ended.
#[derive(Drop)]
pub enum Ending {
    /// There was no run.
    NotRun,
    /// At `()`.
    Completed,
    /// At a throw of this value.
    Uncaught(Value),
    /// This pick was next, and what it costs passes the fuel that was left.
    OutOfFuel(Pick),
}

/// A run, by its fuel, the picks that were taken in their order, and its ending.
#[derive(Drop)]
pub struct Journal {
    pub fuel: u64,
    pub picks: List<Pick>,
    pub ending: Ending,
}

impl Ending {
    /// An equal ending in memory of its own, or want of memory.
    pub fn copy(&self, alloc: Global) -> Result<Ending, Memory>
        ensures { IfOk result (λ copy. copy ≡ self.now) }
    {
        match self {
            Ending::NotRun => Ok(Ending::NotRun),
            Ending::Completed => Ok(Ending::Completed),
            Ending::Uncaught(value) => Ok(Ending::Uncaught(value.copy(alloc)?)),
            Ending::OutOfFuel(pick) => Ok(Ending::OutOfFuel(pick.copy(alloc)?)),
        }
    }
}

impl Journal {
    /// An equal journal in memory of its own, or want of memory.
    pub fn copy(&self, alloc: Global) -> Result<Journal, Memory>
        ensures { IfOk result (λ copy. copy ≡ self.now) }
    {
        Ok(Journal {
            fuel: self.fuel,
            picks: copy_picks(alloc, &self.picks)?,
            ending: self.ending.copy(alloc)?,
        })
    }
}

fn copy_picks(alloc: Global, picks: &List<Pick>) -> Result<List<Pick>, Memory>
    ensures { IfOk result (λ copy. copy ≡ picks.now) }
{
    let mut all = List::new(alloc);
    for pick in picks.as_slice() {
        all.push(pick.copy(alloc)?)?;
    }
    Ok(all)
}
