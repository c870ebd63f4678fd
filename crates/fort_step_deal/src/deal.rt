//! What a form does at its next step, before a store is asked.
ghost use Rattle.std.specs.Prelude.{◌≡◌};
ghost use Rattle.fort_machine.specs.Acts.{becomes};
ghost use Rattle.fort_step_deal.specs.Deals.{act_of, making_cost};

use fort_base::{Bytes, List, Loc, SetId, Shared, Ty, TypeId};
use fort_core::{Term, Value};
use std::alloc::Global;

/// What a form does at its next step; who carries it out has the store. It is an act of the chapter
/// "Steps and costs", with data where the chapter has functions.
#[derive(Drop)]
pub enum Deal {
    /// Nothing: it has no step of its own.
    Stuck,
    /// It goes on as a term, with a text that it prints, in UTF-8, at a cost.
    Turns(Shared<Term>, Bytes, u64),
    /// It runs a body, here as it is written, and goes on as the term behind it, at the cost of 1.
    Enters(Shared<Term>, Shared<Term>),
    /// It reads a location, and goes on by what stands there, at the cost of 1.
    Asks(Loc, Goes),
    /// It writes a value to a location, and is `()`, at the cost of 1.
    Sets(Loc, Value),
    /// It makes locations, or one with `()` where it has no values for them, and goes on by the
    /// first.
    Makes(Makes),
    /// It calls a set with values: what is to be done is what the declaration does that the call
    /// runs.
    Calls(SetId, List<Value>),
    /// It ends its machine.
    Ends,
}

/// How a form goes on by a value that it reads.
#[derive(Drop)]
pub enum Goes {
    /// As the value.
    Value,
    /// As a body, with the value in the place of a variable: the variable, the body.
    Body(u32, Shared<Term>),
    /// As such a body, and then as the rest of a `seq`: the variable, the body, the rest.
    First(u32, Shared<Term>, Shared<Term>),
}

/// What a form makes at fresh locations, and how it goes on by the first of them.
#[derive(Drop)]
pub enum Makes {
    /// A mutable local, at the cost of 1: its value, its variable, the rest of the block, in which
    /// the location takes the variable's place.
    Local(Value, u32, Shared<Term>),
    /// An object, at the cost of 1: its type, and the values of its fields in their order.
    Object(TypeId, List<Value>),
    /// An array, at the cost of 1 and its size: the type of its elements, their value, and how many
    /// there are.
    Array(Shared<Ty>, Value, u32),
}

impl Deal {
    /// It goes on as a term and prints nothing, at the cost of 1. It takes no memory.
    pub fn becomes(alloc: Global, term: Shared<Term>) -> Deal
        ensures { act_of result ≡ becomes term }
    {
        Deal::Turns(term, List::new(alloc), 1)
    }
}

impl Makes {
    /// What it costs to make the locations.
    pub fn cost(&self) -> u64
        ensures { result ≡ making_cost self.now }
    {
        match self {
            Makes::Local(_, _, _) => 1,
            Makes::Object(_, _) => 1,
            Makes::Array(_, _, count) => 1 + *count as u64,
        }
    }
}
