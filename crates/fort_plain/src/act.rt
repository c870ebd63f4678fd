//! One pick of the innermost machine.
ghost use Rattle.std.specs.Prelude.{IfOk};
ghost use Rattle.fort_machine.specs.Written.{WrittenProgram};
ghost use Rattle.fort_walk_course.specs.Courses.{IsGoing};
ghost use Rattle.fort_core.specs.declared.pick.Pick.{Attempt as an_attempt, Step as a_step};
ghost use Rattle.fort_plain.specs.Paths.{whole};
ghost use Rattle.fort_plain.specs.Takes.{ActsOn, IsTurn};

use crate::attempts::begin;
use crate::find::{Found, find};
use crate::steps::step;
use fort_base::{List, Loc, Memory};
use fort_core::{Path, Pick, Program};
use fort_frames::State;
use fort_walk_course::{Execution, Going};
use std::alloc::Global;

/// Where a pick stands in a journal.
#[derive(Clone, Copy, Debug, PartialEq, Eq)]
pub struct Turn {
    /// Whether it is the last one of its machine.
    pub is_last: bool,
    /// Whether it is the last one of all, and passes the fuel: then it needn't be finished.
    pub is_end: bool,
}

/// What a pick of the innermost machine comes to.
#[derive(Drop)]
pub enum Acted {
    /// The machine goes on.
    Goes(Going),
    /// An attempt begins.
    Opens(Going),
    /// A step of `abort()` ended the machine, and the one round it goes on.
    Leaves(Going),
    /// Such a step, and the program has no single object to throw: the attempt has no end.
    Unclosed,
    /// It isn't legal, or makes a location of 2 to the 64 or more.
    Illegal,
    /// It costs more than what is left of the fuel.
    Passes,
    /// The last of all is legal, and isn't carried out: the run before it, and what all costs with
    /// it; `None` where that is 2 to the 64 or more, which is above each fuel.
    Last(Execution, Option<u64>),
}

/// Takes a pick of the innermost machine.
///
/// # Errors
///
/// `Memory` where memory is wanting.
pub fn act(
    alloc: Global,
    program: &Program,
    going: Going,
    turn: Turn,
    pick: &Pick,
) -> Result<Acted, Memory>
    requires written { WrittenProgram program.now }
    requires going { IsGoing program.now going }
    requires turn { IsTurn turn }
    ensures { IfOk result
        (ActsOn program.now going.course (whole going.course.clock going.state) turn pick.now) }
{
    let Going { course, state } = going;
    match pick {
        Pick::Step(path, loc) => step_at(alloc, program, course, state, turn, path, *loc),
        Pick::Attempt(path, within) => {
            attempt_at(alloc, program, course, state, turn, path, within)
        }
    }
}

fn step_at(
    alloc: Global,
    program: &Program,
    course: Execution,
    state: State,
    turn: Turn,
    path: &Path,
    loc: Loc,
) -> Result<Acted, Memory>
    requires written { WrittenProgram program.now }
    requires going { IsGoing program.now (record { course = course; state = state }) }
    requires turn { IsTurn turn }
    ensures { IfOk result
        (ActsOn program.now course (whole course.clock state) turn (a_step path.now loc)) }
{
    match find(alloc, course.clock(), state, path)? {
        Found::Steps(place, ready) => step(alloc, program, course, turn, place, ready, loc),
        Found::Tries(_place, _form) => Ok(Acted::Illegal),
        Found::Nothing => Ok(Acted::Illegal),
    }
}

fn attempt_at(
    alloc: Global,
    program: &Program,
    course: Execution,
    state: State,
    turn: Turn,
    path: &Path,
    within: &List<Pick>,
) -> Result<Acted, Memory>
    requires written { WrittenProgram program.now }
    requires going { IsGoing program.now (record { course = course; state = state }) }
    requires turn { IsTurn turn }
    ensures { IfOk result
        (ActsOn program.now course (whole course.clock state) turn
        (an_attempt path.now within.now)) }
{
    let _within = within;
    let _turn = turn;
    match find(alloc, course.clock(), state, path)? {
        Found::Tries(place, form) => begin(alloc, program, course, place, form),
        Found::Steps(_place, _ready) => Ok(Acted::Illegal),
        Found::Nothing => Ok(Acted::Illegal),
    }
}
