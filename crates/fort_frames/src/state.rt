//! A term taken apart at one place.
ghost use Rattle.std.specs.Prelude.{◌≡◌, ℕ, [], IfOk};
ghost use Rattle.fort_frames.specs.States.{Stands};

use crate::place::Place;
use fort_base::{Memory, Shared};
use fort_core::{Term, Value};
use std::alloc::Global;

/// What stands inside all frames.
#[derive(Drop)]
pub enum At {
    /// A value: the part is finished.
    Value(Value),
    /// A throw of a value: the part is finished.
    Throw(Value),
    /// A form that is to be gone into, or that has its step.
    Form(Shared<Term>),
    /// A form that isn't finished and is left for now: what can go on is sought beside it.
    Left(Shared<Term>),
}

/// A term taken apart at one place: the place, and what stands there.
#[derive(Drop)]
pub struct State {
    pub place: Place,
    pub at: At,
}

impl At {
    /// The same place, with one owner more for what stands there.
    pub fn share(&self) -> Result<At, Memory>
        ensures { IfOk result (λ place. place ≡ self.now) }
    {
        match self {
            At::Value(value) => Ok(At::Value(value.share()?)),
            At::Throw(value) => Ok(At::Throw(value.share()?)),
            At::Form(term) => Ok(At::Form(term.share()?)),
            At::Left(term) => Ok(At::Left(term.share()?)),
        }
    }
}

impl State {
    /// A whole term, that is to be gone into; it takes no memory, whatever the term.
    pub fn of(alloc: Global, term: Shared<Term>) -> State
        ensures { (clock : ℕ) → Stands clock term result }
    {
        State {
            place: Place::root(alloc),
            at: At::Form(term),
        }
    }

    /// The same state: the path is made anew, all else has one owner more.
    pub fn share(&self, alloc: Global) -> Result<State, Memory>
        ensures { IfOk result (λ state. state ≡ self.now) }
    {
        Ok(State {
            place: self.place.share(alloc)?,
            at: self.at.share()?,
        })
    }
}
