//! Moves of a state.
ghost use Rattle.std.specs.Prelude.{◌≡◌, map, IfOk};
ghost use Rattle.fort_frames.specs.Frames.{Reaches, frames, rebuilt};
ghost use Rattle.fort_frames.specs.States.{term_at};
ghost use Rattle.fort_frames_moves.specs.Turns.{IsMade, IsStop, IsTurn, ready_term};
ghost use Rattle.fort_frames_moves.specs.Sweeps.{Keeps, MissesNone, SweptTo};

use crate::across::open_form;
use crate::enter::enter;
use crate::leave::{fall, leave, left};
use fort_base::{List, Memory, SetId, Shared};
use fort_core::{Term, Value};
use fort_frames::{At, Frame, Head, Place, State};
use std::alloc::Global;

/// A form that waits for none of its parts, each of which is finished or passed over: it has its
/// step, or none.
#[derive(Drop)]
pub enum Ready {
    /// A form without parts that go before it, or a tuple as a form.
    Form(Shared<Term>),
    /// A parallel form, each part finished or passed over.
    Node(Head, List<Shared<Term>>),
    /// A call of an operator, with the values of all its operands.
    Operands(SetId, List<Value>),
    /// Another form that goes from left to right, its last part at this value.
    Value(Frame, Value),
    /// A form that goes from left to right, its next part at a throw of this value.
    Throw(Frame, Value),
}

/// Where moves come to.
#[derive(Drop)]
pub enum Stop {
    /// To a thread: a form that has its step, or none; the place has the thread's path.
    Steps(Place, Ready),
    /// To a tuple, each part finished or passed over: it is a value or a form, as `group` of its
    /// parts is.
    Groups(Place, List<Shared<Term>>),
    /// To the thread of an atomic form, before an attempt or asleep after one.
    Tries(Place, Shared<Term>),
    /// To a mark that stands somewhere else than round an open part of a parallel form, where no
    /// step puts one.
    Odd(Place, Shared<Term>),
    /// Out of the whole term: a value, a throw, or what is left of it.
    Ends(At),
}

/// Where one move leads.
#[derive(Drop)]
pub enum Turn {
    /// To another place of the same term.
    Moves(State),
    /// To where moves come to.
    Stops(Stop),
}

/// Moves a state, at what the machine's clock shows, until it comes to a thread, to such a tuple,
/// to a mark at an odd place, or out of the whole term. It goes into the form that stands at the
/// state's place, or out of what is finished or left there, and in a parallel form on to the next
/// part to the right that may go on; it misses no thread. It sees no store. A move takes constant
/// time, but in a parallel form, where it looks at each part.
///
/// # Errors
///
/// `Memory` where memory is wanting.
#[tactic(auto, using(crate::proofs::Kept::kept_turns))]
pub fn moved(alloc: Global, clock: u64, state: State) -> Result<Stop, Memory>
    requires { Reaches clock (frames state.place.stack) (term_at state.«at») }
    ensures stops { IfOk result
        (IsStop clock (rebuilt clock (frames state.place.stack) (term_at state.«at»))) }
    ensures sweeps { IfOk result (MissesNone state) }
{
    let mut state = state;
    for _turn in 0..u64::MAX {
        match one_move(alloc, clock, state)? {
            Turn::Moves(next) => state = next,
            Turn::Stops(stop) => return Ok(stop),
        }
    }
    Err(Memory)
}

#[tactic(auto, using(crate::proofs::Kept::kept_at))]
fn one_move(alloc: Global, clock: u64, state: State) -> Result<Turn, Memory>
    requires { Reaches clock (frames state.place.stack) (term_at state.«at») }
    ensures turns { IfOk result
        (IsTurn clock (rebuilt clock (frames state.place.stack) (term_at state.«at»))) }
    ensures sweeps { IfOk result (Keeps (λ met. SweptTo met state)) }
{
    let State { place, at } = state;
    match at {
        At::Form(term) => enter(alloc, clock, place, term),
        At::Value(value) => leave(alloc, clock, place, value),
        At::Throw(value) => fall(alloc, clock, place, value),
        At::Left(term) => left(alloc, clock, place, term),
    }
}

impl Ready {
    /// The form of the thread.
    ///
    /// # Errors
    ///
    /// `Memory` where memory is wanting.
    #[tactic(auto, using(crate::proofs::Parts::node_form))]
    pub fn term(self, alloc: Global) -> Result<Shared<Term>, Memory>
        requires { IsMade self }
        ensures { IfOk result (λ term. term ≡ ready_term self) }
    {
        match self {
            Ready::Form(term) => Ok(term),
            Ready::Node(head, parts) => Shared::new(alloc, open_form(head, parts)?),
            Ready::Operands(set, values) => {
                let operands = as_terms(alloc, values)?;
                Shared::new(alloc, Term::Operator(set, operands))
            }
            Ready::Value(frame, value) => {
                let part = Shared::new(alloc, Term::Value(value))?;
                frame.around(alloc, part)
            }
            Ready::Throw(frame, thrown) => {
                let value = Shared::new(alloc, Term::Value(thrown))?;
                let part = Shared::new(alloc, Term::Throw(value))?;
                frame.around(alloc, part)
            }
        }
    }
}

// Values as terms.
fn as_terms(alloc: Global, values: List<Value>) -> Result<List<Shared<Term>>, Memory>
    ensures { IfOk result (λ all. all ≡ map Term.Value values) }
{
    let mut all = List::new(alloc);
    for value in values.as_slice() {
        all.push(Shared::new(alloc, Term::Value(value.share()?))?)?;
    }
    Ok(all)
}
