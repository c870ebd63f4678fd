//! The walk.
ghost use Rattle.std.specs.Prelude.{◌≡◌, IfOk, false, length};
ghost use Rattle.fort_machine.specs.Written.{WrittenProgram};
ghost use Rattle.fort_disp.specs.Rows.{MayPick};
ghost use Rattle.fort_walk_turns.specs.Defined.{AlwaysOne};
ghost use Rattle.fort_port_output.specs.Written.{Change, HasWritten};
ghost use Rattle.fort_walk_course.specs.Calls.{IsRun};
ghost use Rattle.fort_walk_turns.specs.Stops.{StopsShort};
ghost use Rattle.fort_walk_turns.specs.Walks.{Walks};
ghost use Rattle.fort_walk_turns.specs.Grows.{Onward};
ghost use Rattle.fort_walk_turns.specs.Idles.{Follows, IsWalking};
ghost use Rattle.fort_walk.specs.Written.{HasWrittenOf};

use crate::beside::{Round, side_by_side};
use crate::ends::at_end;
use crate::output::{after_turn, is_time, unwritten, write_rest};
use crate::pace::Pace;
use fort_base::{Memory, Shared};
use fort_disp::Tables;
use fort_frames_moves::{Stop, moved};
use fort_port::{Gate, Sink};
use fort_port_output::Progress;
use fort_step_subst::group;
use fort_walk_course::{Going, Ran};
use fort_walk_turns::{Next, Sweep, Walked, Walking, at_atomic, at_form, at_thread};
use std::alloc::Global;
use std::sync::Wait;
use std::thread::Threads;

/// A run to its end, and how far its output was written.
#[derive(Drop)]
pub struct WrittenRun {
    pub ran: Ran,
    pub progress: Progress,
}

/// Walks a program with a fuel, to the end of a run, by one worker: each thread that is awake has
/// its turn of at most 1,024 picks, from left to right; an attempt whose threads all sleep is left,
/// and begun anew later; and where nobody is awake the sleepers are tried. The declaration of a
/// call is found by the program's tables. It waits for nobody. The chapter "Journals".
///
/// What the root's run prints is written while the walk goes on, up to the output's first fault.
/// After a fault the walk goes on to the run's end, and nothing more is written.
///
/// # Errors
///
/// `Memory` where memory is wanting. The first bytes of a run's output may have been written then.
pub fn walk<K: Sink>(
    alloc: Global,
    tables: &Tables,
    fuel: u64,
    out: &mut K,
) -> Result<WrittenRun, Memory>
    requires written { WrittenProgram tables.now.program.now }
    requires tables { MayPick tables.now }
    requires one { AlwaysOne tables.now.program.now }
    requires never { StopsShort tables.now.program.now → ⊥ }
    requires out { K.can_write out.old }
    ensures run { IfOk result (λ done. IsRun tables.now.program.now fuel done.ran) }
    ensures written { IfOk result (λ done. HasWritten (K.can_write out.new) (record {
      was = K.written out.old;
      is = K.written out.new;
      faults_were = K.faults out.old;
      faults_are = K.faults out.new;
    }) done.ran.output done.progress) }
    ensures whole { IfOk result (λ done. done.progress.failed ≡ false
        → done.progress.bytes ≡ length done.ran.output) }
{
    let (walked, progress) = walked(alloc, tables, fuel, out)?;
    match walked {
        Walked::Ran(ran) => {
            let progress = write_rest(out, progress, ran.output.as_slice());
            Ok(WrittenRun { ran, progress })
        }
        Walked::Stuck => unreachable!(),
    }
}

/// The same by several workers, who take the program on side by side in a hall, attempts at any
/// depth among what they do, and wait for one another there; the gate is told where each of them
/// begins a leg. Which run it is depends on who comes first. The chapter "Legs".
///
/// # Errors
///
/// `Memory` where memory is wanting. The first bytes of a run's output may have been written then.
pub fn walk_side_by_side<R: Threads + Wait + Sync, G: Gate + Sync, K: Sink>(
    rt: &R,
    gate: &G,
    alloc: Global,
    tables: &Tables,
    fuel: u64,
    workers: u32,
    out: &mut K,
) -> Result<WrittenRun, Memory>
    requires written { WrittenProgram tables.now.program.now }
    requires tables { MayPick tables.now }
    requires one { AlwaysOne tables.now.program.now }
    requires never { StopsShort tables.now.program.now → ⊥ }
    requires out { K.can_write out.old }
    ensures run { IfOk result (λ done. IsRun tables.now.program.now fuel done.ran) }
    ensures written { IfOk result (λ done. HasWritten (K.can_write out.new) (record {
      was = K.written out.old;
      is = K.written out.new;
      faults_were = K.faults out.old;
      faults_are = K.faults out.new;
    }) done.ran.output done.progress) }
    ensures whole { IfOk result (λ done. done.progress.failed ≡ false
        → done.progress.bytes ≡ length done.ran.output) }
{
    let (walked, progress) = walked_by(rt, gate, alloc, tables, fuel, workers, out)?;
    match walked {
        Walked::Ran(ran) => {
            let progress = write_rest(out, progress, ran.output.as_slice());
            Ok(WrittenRun { ran, progress })
        }
        Walked::Stuck => unreachable!(),
    }
}

// The walk of a program of which a run might stop short.
fn walked<K: Sink>(
    alloc: Global,
    tables: &Tables,
    fuel: u64,
    out: &mut K,
) -> Result<(Walked, Progress), Memory>
    requires written { WrittenProgram tables.now.program.now }
    requires tables { MayPick tables.now }
    requires one { AlwaysOne tables.now.program.now }
    requires out { K.can_write out.old }
    ensures walks { IfOk result (λ both. Walks tables.now.program.now fuel both.0) }
    ensures written { IfOk result (λ both. HasWrittenOf (K.can_write out.new) (record {
      was = K.written out.old;
      is = K.written out.new;
      faults_were = K.faults out.old;
      faults_are = K.faults out.new;
    }) both.0 both.1) }
{
    let going = Going::first(alloc, tables.program, fuel)?;
    let sweep = Sweep::new(false);
    let mut walking = Walking { going, sweep };
    let mut pace = Pace::new();
    let mut progress = unwritten();
    for turn in 0..u64::MAX {
        let before = pace.before(walking.sweep, walking.going.course.turn().is_some());
        let (next, later) = go(alloc, tables, walking, before)?;
        pace = later;
        match next {
            Next::Goes(next) => {
                progress = after_turn(out, progress, &next.going.course, is_time(turn));
                walking = next;
            }
            Next::Ends(walked) => return Ok((walked, progress)),
        }
    }
    Err(Memory)
}

// The same by several workers.
fn walked_by<R: Threads + Wait + Sync, G: Gate + Sync, K: Sink>(
    rt: &R,
    gate: &G,
    alloc: Global,
    tables: &Tables,
    fuel: u64,
    workers: u32,
    out: &mut K,
) -> Result<(Walked, Progress), Memory>
    requires written { WrittenProgram tables.now.program.now }
    requires tables { MayPick tables.now }
    requires one { AlwaysOne tables.now.program.now }
    requires out { K.can_write out.old }
    ensures walks { IfOk result (λ both. Walks tables.now.program.now fuel both.0) }
    ensures written { IfOk result (λ both. HasWrittenOf (K.can_write out.new) (record {
      was = K.written out.old;
      is = K.written out.new;
      faults_were = K.faults out.old;
      faults_are = K.faults out.new;
    }) both.0 both.1) }
{
    let going = Going::first(alloc, tables.program, fuel)?;
    let sweep = Sweep::new(false);
    let mut walking = Walking { going, sweep };
    let mut pace = Pace::new();
    let mut progress = unwritten();
    for turn in 0..u64::MAX {
        let before = pace.before(walking.sweep, walking.going.course.turn().is_some());
        let round = Round {
            walking,
            pace: before,
            progress,
            got_on: false,
        };
        let round = side_by_side(rt, gate, alloc, tables, round, workers, out)?;
        let had_hall = round.got_on;
        let (next, later, far) = ahead(alloc, tables, round)?;
        pace = later;
        match next {
            Next::Goes(next) => {
                progress = after_turn(out, far, &next.going.course, is_time(turn) || had_hall);
                walking = next;
            }
            Next::Ends(walked) => return Ok((walked, far)),
        }
    }
    Err(Memory)
}

// One turn, where there was no hall.
fn ahead(alloc: Global, tables: &Tables, round: Round) -> Result<(Next, Pace, Progress), Memory>
    requires written { WrittenProgram tables.now.program.now }
    requires tables { MayPick tables.now }
    requires one { AlwaysOne tables.now.program.now }
    requires walking { IsWalking tables.now.program.now round.walking }
    ensures follows { IfOk result
        (λ all. Follows tables.now.program.now round.walking.going.course.fuel all.0) }
    ensures grows { IfOk result (λ all. Onward round.walking.going.course all.0) }
    ensures progress { IfOk result (λ all. all.2 ≡ round.progress) }
{
    let Round {
        walking,
        pace,
        progress,
        got_on,
    } = round;
    if got_on {
        return Ok((Next::Goes(walking), pace, progress));
    }
    let (next, pace) = go(alloc, tables, walking, pace)?;
    Ok((next, pace, progress))
}

// One turn.
fn go(alloc: Global, tables: &Tables, walking: Walking, pace: Pace) -> Result<(Next, Pace), Memory>
    requires written { WrittenProgram tables.now.program.now }
    requires tables { MayPick tables.now }
    requires one { AlwaysOne tables.now.program.now }
    requires walking { IsWalking tables.now.program.now walking }
    ensures follows { IfOk result
        (λ both. Follows tables.now.program.now walking.going.course.fuel both.0) }
    ensures grows { IfOk result (λ both. Onward walking.going.course both.0) }
{
    let program = tables.program;
    let Walking { going, sweep } = walking;
    let Going { course, state } = going;
    match moved(alloc, course.clock(), state)? {
        Stop::Steps(place, ready) => {
            let next = at_thread(alloc, tables, course, sweep, place, ready)?;
            Ok((next, pace))
        }
        Stop::Groups(place, parts) => {
            let form = Shared::new(alloc, group(alloc, parts)?)?;
            Ok((at_form(program, course, sweep, place, form), pace))
        }
        Stop::Tries(place, form) => {
            let next = at_atomic(alloc, program, course, sweep, place, form)?;
            Ok((next, pace))
        }
        Stop::Odd(_place, _form) => unreachable!(),
        Stop::Ends(at) => at_end(alloc, program, course, sweep, at, pace),
    }
}
