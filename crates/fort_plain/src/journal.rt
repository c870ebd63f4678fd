//! The replay of a journal.
ghost use Rattle.std.specs.Prelude.{◌≡◌, ◌<◌, ◌≤◌, ◌↔◌, ℕ, [], IfOk, IsTrue};
ghost use Rattle.fort_machine.specs.Acts.{unit};
ghost use Rattle.fort_machine.specs.Written.{WrittenProgram};
ghost use Rattle.fort_walk_course.specs.Courses.{IsGoing};
ghost use Rattle.fort_store_effects.specs.Levels.{levels_of};
ghost use Rattle.fort_plain.specs.Paths.{IsSettled};
ghost use Rattle.fort_plain.specs.Replays.{EndsAt, EndsSo, IsNoPick, Replays};
ghost use Rattle.fort_plain.specs.Takes.{IsCost};

use crate::settled::{Settled, settle};
use crate::take::{Taken, take};
use fort_base::{Bytes, List, Memory};
use fort_core::{Ending, Journal, Pick, Program, Value};
use fort_walk_course::{Execution, Going};
use std::alloc::Global;

/// What a replay of a journal comes to.
#[derive(Drop)]
pub enum Replayed {
    /// The journal is that of a run: what the run printed, in UTF-8, and what it cost.
    Run(Bytes, u64),
    /// It is none: the number, from 0, of the first pick that isn't legal, makes a location of 2 to
    /// the 64 or more, or passes the fuel; or the number of picks where only the ending is wrong.
    Broken(u64),
}

/// Replays a journal of a program, pick by pick. The chapter "Journals".
///
/// # Errors
///
/// `Memory` where memory is wanting, or where the numbers of picks are at their end; also where the
/// journal ends out of fuel with an attempt that, without its last inner pick, costs with all
/// before it 2 to the 64 or more.
pub fn replay(alloc: Global, program: &Program, journal: &Journal) -> Result<Replayed, Memory>
    requires { WrittenProgram program.now }
    ensures { IfOk result (Replays program.now journal.now) }
{
    let mut going = Going::first(alloc, program, journal.fuel)?;
    for pick in journal.picks.as_slice() {
        let count = going.course.get().picks.len() as u64;
        match take(alloc, program, going, pick, false)? {
            Taken::Out(later) => going = later,
            Taken::Illegal => return Ok(Replayed::Broken(count)),
            Taken::Passes => return Ok(Replayed::Broken(count)),
            Taken::Last(_course, _cost) => unreachable!(),
        }
    }
    ended(
        alloc,
        program,
        going,
        &journal.ending,
        journal.picks.len() as u64,
    )
}

// The run's end, behind all picks.
fn ended(
    alloc: Global,
    program: &Program,
    going: Going,
    ending: &Ending,
    count: u64,
) -> Result<Replayed, Memory>
    requires written { WrittenProgram program.now }
    requires going { IsGoing program.now going }
    requires outside { going.course.outer ≡ [] }
    ensures { IfOk result
        (EndsAt program.now going.course.fuel going.course.picks ending.now count) }
{
    match ending {
        Ending::OutOfFuel(pick) => out_of_fuel(alloc, program, going, pick, count),
        other => finished(alloc, program, going, other, count),
    }
}

// The term to which the run came is to be that of the ending.
#[tactic(auto, using(crate::proofs::Ending::right_end, crate::proofs::Ending::wrong_end))]
fn finished(
    alloc: Global,
    program: &Program,
    going: Going,
    ending: &Ending,
    count: u64,
) -> Result<Replayed, Memory>
    requires going { IsGoing program.now going }
    requires outside { going.course.outer ≡ [] }
    requires no_pick { IsNoPick ending.now }
    ensures { IfOk result
        (EndsAt program.now going.course.fuel going.course.picks ending.now count) }
{
    let _program = program;
    let Going { course, state } = going;
    let term = settle(alloc, course.clock(), state)?;
    if ends_so(&term, ending) {
        Ok(run(course))
    } else {
        Ok(Replayed::Broken(count))
    }
}

fn ends_so(term: &Settled, ending: &Ending) -> bool
    ensures { IsTrue result ↔ EndsSo term.now ending.now }
{
    match (term, ending) {
        (Settled::Value(value), Ending::Completed) => is_unit(value),
        (Settled::Throw(thrown), Ending::Uncaught(value)) => thrown.same(value),
        _ => false,
    }
}

fn is_unit(value: &Value) -> bool
    ensures { IsTrue result ↔ (value.now ≡ unit) }
{
    match value {
        Value::Tuple(parts) => parts.get().is_empty(),
        _ => false,
    }
}

// What the root's machine printed and cost.
fn run(course: Execution) -> Replayed
    ensures { result
        ≡ Replayed.Run (levels_of course.layers).output (levels_of course.layers).cost }
{
    let account = course.account();
    Replayed::Run(account.output, account.cost)
}

// The pick that is next is to be legal, or an attempt that is begun, and to pass the fuel. Its
// inner picks may go far beyond, so the fuel doesn't bind them.
fn out_of_fuel(
    alloc: Global,
    program: &Program,
    going: Going,
    pick: &Pick,
    count: u64,
) -> Result<Replayed, Memory>
    requires written { WrittenProgram program.now }
    requires going { IsGoing program.now going }
    requires outside { going.course.outer ≡ [] }
    ensures { IfOk result
        (EndsAt program.now going.course.fuel going.course.picks (Ending.OutOfFuel pick.now)
        count) }
{
    let Going { course, state } = going;
    let fuel = course.get().fuel;
    let course = course.with_fuel(most(fuel));
    let going = Going { course, state };
    match take(alloc, program, going, pick, true)? {
        Taken::Last(course, cost) => {
            if is_over(cost, fuel) {
                Ok(run(course))
            } else {
                Ok(Replayed::Broken(count))
            }
        }
        Taken::Illegal => Ok(Replayed::Broken(count)),
        Taken::Passes => Err(Memory),
        Taken::Out(_going) => unreachable!(),
    }
}

// Whether what all costs is above a fuel.
fn is_over(cost: Option<u64>, fuel: u64) -> bool
    ensures { (n : ℕ) → IsCost n cost → IsTrue result ↔ (fuel < n) }
{
    match cost {
        None => true,
        Some(cost) => fuel < cost,
    }
}

// The most fuel that there is.
fn most(fuel: u64) -> u64
    ensures { fuel ≤ result }
{
    let _fuel = fuel;
    u64::MAX
}
