//! A leg of a task, outside every lock.
ghost use Rattle.std.specs.Prelude.{◌≡◌, ◌≢◌, [], IfOk};
ghost use Rattle.fort_machine.specs.Written.{WrittenProgram};
ghost use Rattle.fort_disp.specs.Rows.{MayPick};
ghost use Rattle.fort_store_effects.specs.Levels.{levels_of, seen};
ghost use Rattle.fort_walk_stretch.specs.Goes.{Goes};
ghost use Rattle.fort_hall_machine.specs.Words.{IsMade};
ghost use Rattle.fort_hall_program.specs.States.{IsGood, IsLegOfTask};

use crate::depth::is_deep;
use crate::state::{State, TaskLeg};
use fort_base::Memory;
use fort_core::Program;
use fort_disp::Tables;
use fort_hall_books::{Kind, Leg};
use fort_hall_forms::first_form;
use fort_hall_machine::{Made, Room};
use fort_port::Point;
use fort_walk_stretch::{Leg as Stretch, Room as Span, leaf};
use std::alloc::Global;

// How many numbers for new locations a worker's range has.
const RANGE: u64 = 1 << 50;

// How many times as much a leg may cost which had no step only for want of that, and how often.
const MORE: u64 = 16;

const TRIES: u32 = 16;

/// Where a leg of a state begins, made by this worker.
pub(crate) fn point_of(state: &State, worker: u32) -> Point {
    let child = match state.path.0.as_slice().last() {
        Some(number) => number.saturating_add(1),
        None => 0,
    };
    Point {
        worker,
        depth: state.depth,
        child,
    }
}

/// Steps of the task's threads, as far as there is room for them; or the task at an atomic form of
/// which an attempt is to be opened, where no thread has a step; or nothing, of a part that is too
/// deep too. With the number behind the last one that was used for a new location.
///
/// # Errors
///
/// `Memory` where memory is wanting.
pub(crate) fn advance(
    alloc: Global,
    tables: &Tables,
    most: u64,
    base: u64,
    state: State,
    room: Room,
) -> Result<(Made<TaskLeg, State>, u64), Memory>
    requires written { WrittenProgram tables.now.program.now }
    requires tables { MayPick tables.now }
    requires good { IsGood tables.now.program.now most state }
    ensures { IfOk result (λ r. IsMade (IsLegOfTask tables.now.program.now)
        (IsGood tables.now.program.now most) r.0) }
{
    if is_deep(alloc, &state.part)? {
        return Ok((Made::Nothing, room.from));
    }
    let span = span_of(room, base, state.left);
    let mut cost = span.cost.min(state.slice);
    for _try in 0..TRIES {
        let short = Span { cost, ..span };
        let leg = stretch(alloc, tables, most, &state, short)?;
        if !leg.picks.is_empty() || leg.left_out || cost == span.cost {
            return made(alloc, tables.program, most, state, leg, short, room.from);
        }
        cost = cost.saturating_mul(MORE).min(span.cost);
    }
    Ok((at_form(alloc, tables.program, most, state)?, room.from))
}

// What a leg may take: the numbers of the worker's range from its base on, and what its book may
// still cost.
fn span_of(room: Room, base: u64, left: u64) -> Span {
    let own = room.from % RANGE;
    let until = room.from.saturating_add(RANGE - own);
    let skipped = (base % RANGE).saturating_sub(own);
    Span {
        from: room.from.saturating_add(skipped),
        until,
        cost: room.most.min(left),
    }
}

// Steps of the task's threads within a span.
fn stretch(
    alloc: Global,
    tables: &Tables,
    most: u64,
    state: &State,
    span: Span,
) -> Result<Stretch, Memory>
    requires written { WrittenProgram tables.now.program.now }
    requires tables { MayPick tables.now }
    requires good { IsGood tables.now.program.now most state.now }
    ensures { IfOk result (Goes tables.now.program.now state.now.inner
        (seen (levels_of state.now.view)) state.now.part span) }
{
    let _most = most;
    let part = state.part.share()?;
    leaf(alloc, tables, state.view.get(), state.inner, part, span)
}

// Steps as a leg of the task; or, where there are none, the task at a form.
fn made(
    alloc: Global,
    program: &Program,
    most: u64,
    state: State,
    leg: Stretch,
    span: Span,
    from: u64,
) -> Result<(Made<TaskLeg, State>, u64), Memory>
    requires written { WrittenProgram program.now }
    requires good { IsGood program.now most state }
    requires goes { Goes program.now state.inner (seen (levels_of state.view)) state.part span leg }
    ensures { IfOk result (λ r. IsMade (IsLegOfTask program.now) (IsGood program.now most) r.0) }
{
    if leg.picks.is_empty() {
        return Ok((at_form(alloc, program, most, state)?, from));
    }
    let fresh = leg.fresh;
    Ok((Made::Leg(taken(program, most, state, leg, span)), fresh))
}

// The steps as a leg of the task.
#[tactic(auto, using(crate::proofs::Advancing::leg_of_steps))]
fn taken(program: &Program, most: u64, state: State, leg: Stretch, span: Span) -> TaskLeg
    requires good { IsGood program.now most state }
    requires goes { Goes program.now state.inner (seen (levels_of state.view)) state.part span leg }
    requires some { leg.picks ≢ [] }
    ensures { IsLegOfTask program.now result }
{
    let _program = program;
    let _most = most;
    let _span = span;
    let _view = state.view;
    let leg = Leg {
        inner: state.inner,
        path: state.path,
        part: state.part,
        kind: Kind::Steps,
        done: leg.done,
        picks: leg.picks,
        term: leg.term,
    };
    TaskLeg {
        task: state.task,
        leg,
    }
}

// The task at the first atomic form of its part that may be tried. None where its book can't afford
// an attempt.
#[tactic(auto, using(crate::proofs::Advancing::at_found_form))]
fn at_form(
    alloc: Global,
    program: &Program,
    most: u64,
    state: State,
) -> Result<Made<TaskLeg, State>, Memory>
    requires written { WrittenProgram program.now }
    requires good { IsGood program.now most state }
    ensures { IfOk result (IsMade (IsLegOfTask program.now) (IsGood program.now most)) }
{
    let _most = most;
    if state.left == 0 {
        return Ok(Made::Nothing);
    }
    let part = state.part.share()?;
    match first_form(alloc, program, part, state.view.get())? {
        None => Ok(Made::Nothing),
        Some(form) => {
            let mut state = state;
            state.form = Some(form);
            Ok(Made::Form(state))
        }
    }
}
