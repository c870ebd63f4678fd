//! A hall of workers, where a walk is at the left end of the root's term.
ghost use Rattle.std.specs.Prelude.{◌≡◌, ◌≢◌, ◌+◌, ◌++◌, ◌≤◌, ℕ, List, Option, [], false, length, IfOk, IsTrue};
ghost use Rattle.fort_machine.specs.Ends.{has_stepped};
ghost use Rattle.fort_machine.specs.Written.{WrittenProgram};
ghost use Rattle.fort_disp.specs.Rows.{MayPick};
ghost use Rattle.fort_port_output.specs.Written.{Change, HasWritten};
ghost use Rattle.fort_store_effects.specs.Levels.{effect_of};
ghost use Rattle.fort_walk_turns.specs.Defined.{AlwaysOne};
ghost use Rattle.fort_walk_turns.specs.Grows.{GrowsFrom};
ghost use Rattle.fort_walk_turns.specs.Idles.{IsWalking};
ghost use Rattle.fort_walk.specs.Halls.{AreNext, GoesOn, HasTakenIn, IsAtRoot, IsFormOf, IsUnmarked};
ghost use Rattle.fort_walk.specs.Written.{printed_by};

use crate::output::write_root;
use crate::pace::Pace;
use fort_base::{Memory, Shared};
use fort_core::{Program, Term};
use fort_disp::Tables;
use fort_frames::{At, Stack, State};
use fort_hall_books::Closed;
use fort_hall_legs::{Assignment, Crew, HallForm, HallLegs, legs_by};
use fort_port::{Gate, Sink};
use fort_port_output::Progress;
use fort_walk_course::Going;
use fort_walk_turns::{Sweep, Walking};
use std::alloc::Global;
use std::sync::Wait;
use std::thread::Threads;

/// A walk, when its next hall comes, and how far its output was written.
#[derive(Drop)]
pub(crate) struct Round {
    pub walking: Walking,
    pub pace: Pace,
    pub progress: Progress,
    /// Whether there was a hall that made legs.
    pub got_on: bool,
}

/// Where a walk is at the left end of the root's term, and it is time for it, workers take the
/// whole term on side by side, attempts at any depth among what they do, until none of its threads
/// can go on beside the others. What was printed before is written first, and what they print while
/// they work.
///
/// # Errors
///
/// `Memory` where memory is wanting.
pub(crate) fn side_by_side<R: Threads + Wait + Sync, G: Gate + Sync, K: Sink>(
    rt: &R,
    gate: &G,
    alloc: Global,
    tables: &Tables,
    round: Round,
    workers: u32,
    out: &mut K,
) -> Result<Round, Memory>
    requires written { WrittenProgram tables.now.program.now }
    requires tables { MayPick tables.now }
    requires one { AlwaysOne tables.now.program.now }
    requires walking { IsWalking tables.now.program.now round.walking }
    requires ready { round.progress.failed ≡ false → K.can_write out.old }
    requires within { round.progress.failed ≡ false
        → round.progress.bytes ≤ length (printed_by round.walking.going.course) }
    ensures goes_on { IfOk result (GoesOn tables.now.program.now round.walking.going.course) }
    ensures written { IfOk result (λ after. (was : Option (List ℕ)) → (faults_were : ℕ)
        → HasWritten (K.can_write out.old) (record {
          was = was;
          is = K.written out.old;
          faults_were = faults_were;
          faults_are = K.faults out.old;
        }) (printed_by round.walking.going.course) round.progress
        → HasWritten (K.can_write out.new) (record {
          was = was;
          is = K.written out.new;
          faults_were = faults_were;
          faults_are = K.faults out.new;
        }) (printed_by after.walking.going.course) after.progress) }
{
    let Round {
        walking,
        pace,
        progress,
        got_on: _,
    } = round;
    if workers < 2 || !pace.is_time(walking.sweep) || !is_at_root(&walking) {
        return Ok(as_before(tables.program, walking, pace.passed(), progress));
    }
    let progress = write_root(out, progress, &walking.going.course);
    let crew = Crew {
        workers,
        base: pace.base(),
    };
    let form = form_at(alloc, tables.program, &walking)?;
    let work = Assignment { form, crew };
    let legs = legs_by(rt, gate, alloc, tables, work, out, progress.failed)?;
    take_in(alloc, tables.program, walking, pace, progress, legs)
}

// Whether it stands at the whole term of the root's machine, which is no mark.
fn is_at_root(walking: &Walking) -> bool
    ensures { IsTrue result → IsAtRoot walking.now }
{
    match walking.going.course.turn() {
        Some(_) => false,
        None => match &walking.going.state.place.stack {
            Stack::Empty => is_unmarked(&walking.going.state.at),
            _ => false,
        },
    }
}

// Whether it is a form that is to be gone into, and no mark.
fn is_unmarked(at: &At) -> bool
    ensures { IsTrue result → IsUnmarked at.now }
{
    match at {
        At::Form(form) => !is_mark(form.get()),
        _ => false,
    }
}

fn is_mark(term: &Term) -> bool
    ensures { result ≡ has_stepped term.now }
{
    match term {
        Term::Stepped(_) => true,
        _ => false,
    }
}

// Nothing was done.
fn as_before(program: &Program, walking: Walking, pace: Pace, progress: Progress) -> Round
    requires { IsWalking program.now walking }
    ensures goes_on { GoesOn program.now walking.going.course result }
    ensures course { result.walking ≡ walking }
    ensures progress { result.progress ≡ progress }
{
    let _program = program;
    Round {
        walking,
        pace,
        progress,
        got_on: false,
    }
}

// The form at which it stands, as it goes into a hall: over the layers as they are, for what is
// left of the fuel.
fn form_at(alloc: Global, program: &Program, walking: &Walking) -> Result<HallForm, Memory>
    requires walking { IsWalking program.now walking.now }
    requires root { IsAtRoot walking.now }
    ensures { IfOk result (IsFormOf program.now walking.now) }
{
    let _program = program;
    let course = walking.going.course.get();
    let At::Form(form) = &walking.going.state.at else {
        unreachable!()
    };
    let view = course.layers.again(alloc)?;
    Ok(HallForm {
        inner: false,
        view: Shared::new(alloc, view)?,
        first: form.share()?,
        most: course.fuel - course.spent,
    })
}

// The legs are taken in, where there are some; the hall is one pick of the thread's turn. What they
// printed stands behind what was printed before, and so does what was written of it.
fn take_in(
    alloc: Global,
    program: &Program,
    walking: Walking,
    pace: Pace,
    progress: Progress,
    legs: HallLegs,
) -> Result<Round, Memory>
    requires walking { IsWalking program.now walking }
    requires root { IsAtRoot walking }
    requires next { AreNext program.now walking legs.closed }
    requires whole { progress.failed ≡ false
        → progress.bytes ≡ length (printed_by walking.going.course) }
    requires within { legs.progress.failed ≡ false → (progress.failed ≡ false)
        × (legs.progress.bytes ≤ length (effect_of legs.closed.done).output) }
    ensures { IfOk result (HasTakenIn program.now walking legs) }
{
    let HallLegs {
        closed,
        legs: counts,
        progress: more,
    } = legs;
    if closed.picks.is_empty() {
        let progress = behind(progress, more, progress.bytes);
        return Ok(as_before(program, walking, pace.after(0, 0), progress));
    }
    let pace = pace.after(closed.done.cost(), sum(&counts));
    let walking = taken(alloc, program, walking, closed)?;
    let end = walking.going.course.get().layers.output().len() as u64;
    let progress = behind(progress, more, end);
    Ok(Round {
        walking,
        pace,
        progress,
        got_on: true,
    })
}

// What was written of a text, and of the one behind it, up to their end at most.
fn behind(before: Progress, more: Progress, end: u64) -> Progress
    requires { more.failed ≡ false → before.bytes + more.bytes ≤ end }
    ensures failed { result.failed ≡ more.failed }
    ensures bytes { more.failed ≡ false → result.bytes ≡ before.bytes + more.bytes }
{
    if more.failed {
        return more;
    }
    Progress {
        bytes: before.bytes + more.bytes,
        failed: false,
    }
}

// The walk behind legs.
fn taken(
    alloc: Global,
    program: &Program,
    walking: Walking,
    closed: Closed,
) -> Result<Walking, Memory>
    requires walking { IsWalking program.now walking }
    requires root { IsAtRoot walking }
    requires next { AreNext program.now walking closed }
    requires some { closed.picks ≢ [] }
    ensures walking { IfOk result (IsWalking program.now) }
    ensures fuel { IfOk result
        (λ after. after.going.course.fuel ≡ walking.going.course.fuel) }
    ensures grows { IfOk result (λ after. GrowsFrom walking.going.course after.going.course) }
    ensures output { IfOk result (λ after. printed_by after.going.course
        ≡ printed_by walking.going.course ++ (effect_of closed.done).output) }
{
    let Walking { going, sweep } = walking;
    let Going { course, state } = going;
    let State { place, at: _at } = state;
    let Closed {
        view: _view,
        done,
        picks,
        term,
    } = closed;
    let course = course.take(alloc, program, &place, &term, done, picks)?;
    let at = At::Form(term);
    let state = State { place, at };
    Ok(Walking {
        going: Going { course, state },
        sweep: Sweep::picked(sweep.taken),
    })
}

// How many legs the workers have together.
fn sum(legs: &Vec<u64>) -> u64 {
    let mut all: u64 = 0;
    for count in legs.as_slice() {
        all = all.saturating_add(*count);
    }
    all
}
