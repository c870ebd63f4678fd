//! A worker's seat in the turn: with it the worker works on the root's book, one hold for each call.
ghost use Rattle.std.specs.Prelude.{◌≡◌};
ghost use Rattle.fort_turn.specs.Passes.{number_of};
ghost use Rattle.fort_hall_work.specs.Seats.{IsSeated};

use crate::lent::{Back, Lent};
use crate::outcome::Outcome;
use crate::rooted::Rooted;
use fort_base::{Memory, TaskId};
use fort_hall_machine::Machine;
use fort_turn::{Pass, Turn};
use std::sync::Wait;

/// A pass, and how many legs were appended with it.
#[derive(Drop)]
pub struct Seat<M: Machine> {
    pub pass: Pass<Rooted<M>>,
    pub legs: u64,
}

/// Lends a task of the root's book.
///
/// # Errors
///
/// `Memory` where memory is wanting.
pub fn checkout<M: Machine, R: Wait>(
    rt: &R,
    machine: &M,
    turn: &Turn<Rooted<M>>,
    seat: &mut Seat<M>,
    task: TaskId,
) -> Result<Lent<M>, Memory>
    requires { IsSeated M.history M.by turn.now seat.old.pass seat.old.legs }
    ensures seated { IsSeated M.history M.by turn.now seat.new.pass seat.new.legs }
    ensures number { number_of seat.new.pass ≡ number_of seat.old.pass }
{
    let mut rooted = turn.take(rt, &mut seat.pass);
    let lent = rooted.checkout(machine, task);
    turn.give(&mut seat.pass, rooted);
    lent
}

/// Lends a task of the root's book that can be lent, and says whether the book has ended.
///
/// # Errors
///
/// `Memory` where memory is wanting.
pub fn seek<M: Machine, R: Wait>(
    rt: &R,
    machine: &M,
    turn: &Turn<Rooted<M>>,
    seat: &mut Seat<M>,
    from: u64,
) -> Result<(Option<Lent<M>>, bool), Memory>
    requires { IsSeated M.history M.by turn.now seat.old.pass seat.old.legs }
    ensures seated { IsSeated M.history M.by turn.now seat.new.pass seat.new.legs }
    ensures number { number_of seat.new.pass ≡ number_of seat.old.pass }
{
    let mut rooted = turn.take(rt, &mut seat.pass);
    let found = rooted.seek(machine, from);
    let ended = rooted.ended(machine);
    turn.give(&mut seat.pass, rooted);
    Ok((found?, ended))
}

/// Takes a lent task of the root's book back, and says whether the book has ended.
pub fn take_back<M: Machine, R: Wait>(
    rt: &R,
    machine: &M,
    turn: &Turn<Rooted<M>>,
    seat: &mut Seat<M>,
    task: TaskId,
    back: Back,
) -> bool
    requires { IsSeated M.history M.by turn.now seat.old.pass seat.old.legs }
    ensures seated { IsSeated M.history M.by turn.now seat.new.pass seat.new.legs }
    ensures number { number_of seat.new.pass ≡ number_of seat.old.pass }
{
    let mut rooted = turn.take(rt, &mut seat.pass);
    rooted.take_back(machine, task, back);
    let ended = rooted.ended(machine);
    turn.give(&mut seat.pass, rooted);
    ended
}

/// Submits a leg to the root's book, and says whether the book has ended. The seat counts the leg
/// where it was appended.
///
/// # Errors
///
/// `Memory` where memory is wanting.
pub fn submit<M: Machine, R: Wait>(
    rt: &R,
    machine: &M,
    turn: &Turn<Rooted<M>>,
    seat: &mut Seat<M>,
    leg: M::Leg,
    wanted: u32,
) -> Result<(Outcome<M>, bool), Memory>
    requires seated { IsSeated M.history M.by turn.now seat.old.pass seat.old.legs }
    requires leg { M.is_leg leg }
    ensures seated { IsSeated M.history M.by turn.now seat.new.pass seat.new.legs }
    ensures number { number_of seat.new.pass ≡ number_of seat.old.pass }
{
    let mut rooted = turn.take(rt, &mut seat.pass);
    let number = seat.pass.number();
    let answer = rooted.submit(machine, leg, number, wanted);
    let ended = rooted.ended(machine);
    rooted.counted();
    turn.give(&mut seat.pass, rooted);
    let outcome = answer?;
    if outcome.done {
        seat.legs += 1;
    }
    Ok((outcome, ended))
}
