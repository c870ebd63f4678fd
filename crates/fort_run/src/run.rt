//! The command `run`: a component's program, or its refusal; and a program's run.
ghost use Rattle.std.specs.Prelude.{◌≢◌, ◌≤◌, ℕ, List as Seq, length, IfOk};
ghost use Rattle.fort_core.specs.declared.journal.Ending.TheVariants as an_ending;
ghost use Rattle.fort_core.specs.declared.program.Program.{Program};
ghost use Rattle.fort_front.specs.Front.{IsAccepted};
ghost use Rattle.fort_lex.specs.Files.{HasTokens};
ghost use Rattle.fort_port_output.specs.Written.{HasWritten};
ghost use Rattle.fort_walk_course.specs.Calls.{IsRun};
ghost use Rattle.fort_run.specs.Reply.{RunSays, TellsEnding, TellsRun, file_limit, its_output};
ghost use Rattle.fort_run.specs.Said.{said, status_of, note_of};
ghost use Rattle.fort_run.specs.Tasks.{HaveTexts, IsReady, LeadsTo, MayRun, writing_of};

use crate::answer::{Answer, Told, refused_by};
use crate::meant::{Meant, Task, Written};
use crate::record::recorded;
use fort_base::{Bytes, Memory};
use fort_core::{Ending, Program};
use fort_diag::uncaught;
use fort_disp::tables;
use fort_front::{accepted_is_written, check};
use fort_lex::{Tokens, tokens};
use fort_port::{Gate, Sink};
use fort_port_output::{Progress, nothing_was_written};
use fort_sound::{accepted_runs_well, file_is_in_order};
use fort_sound_never::{accepted_goes_through, accepted_has_text, accepted_never_stops};
use fort_walk::{WrittenRun, walk, walk_side_by_side};
use std::alloc::Global;
use std::sync::Wait;
use std::thread::Threads;

/// What the file of that name leads to, of which this is to be written, run with a fuel in steps:
/// the rules of its tokens come first, then those of the grammar, of grouping, of types, of
/// members, of overloading and of typing; then it is to run.
pub(crate) fn run_file(
    alloc: Global,
    name: Bytes,
    file: &Bytes,
    workers: u32,
    fuel: u64,
    writes: Written,
) -> Result<Meant, Memory>
    requires { length file.now ≤ file_limit }
    ensures { IfOk result (LeadsTo (RunSays (writing_of writes) name file.now fuel)) }
{
    file_is_in_order();
    accepted_is_written();
    accepted_never_stops();
    accepted_goes_through();
    accepted_runs_well();
    accepted_has_text();
    match tokens(alloc, file.as_slice()) {
        Ok(tokens) => formed(alloc, name, &tokens, workers, fuel, writes),
        Err(fault) => Ok(Meant::Says(refused_by(name, fault)?)),
    }
}

/// What a file of these tokens leads to.
fn formed(
    alloc: Global,
    name: Bytes,
    tokens: &Tokens,
    workers: u32,
    fuel: u64,
    writes: Written,
) -> Result<Meant, Memory>
    requires may { (p : Program) → IsAccepted tokens.now p → MayRun p }
    requires texts { (p : Program) → IsAccepted tokens.now p → HaveTexts p }
    ensures { IfOk result (LeadsTo (λ reply. (file : Seq ℕ) → HasTokens file tokens.now
        → RunSays (writing_of writes) name file fuel reply)) }
{
    match check(alloc, tokens) {
        Ok(program) => Ok(Meant::Runs(Task {
            program,
            workers,
            fuel,
            writes,
        })),
        Err(fault) => Ok(Meant::Says(refused_by(name, fault)?)),
    }
}

/// What is to say of a task, once it has run, and how far of that was written meanwhile.
pub(crate) fn run_task<R: Threads + Wait + Sync, G: Gate + Sync, K: Sink>(
    rt: &R,
    gate: &G,
    alloc: Global,
    task: &Task,
    out: &mut K,
) -> Result<(Answer, Progress), Memory>
    requires ready { IsReady task.now }
    requires out { K.can_write out.old }
    ensures tells { IfOk result (λ both. TellsRun (writing_of task.now.writes) task.now.program
        task.now.fuel (said both.0)) }
    ensures written { IfOk result (λ both. HasWritten (K.can_write out.new) (record {
      was = K.written out.old;
      is = K.written out.new;
      faults_were = K.faults out.old;
      faults_are = K.faults out.new;
    }) (said both.0).out both.1) }
{
    nothing_was_written(out);
    match task.writes {
        Written::Output => printed(rt, gate, alloc, task, out),
        Written::Record => Ok((
            recorded(rt, gate, alloc, task)?,
            Progress {
                bytes: 0,
                failed: false,
            },
        )),
    }
}

/// What is to say of a task's run, where what it prints is to be written, while it goes on.
fn printed<R: Threads + Wait + Sync, G: Gate + Sync, K: Sink>(
    rt: &R,
    gate: &G,
    alloc: Global,
    task: &Task,
    out: &mut K,
) -> Result<(Answer, Progress), Memory>
    requires may { MayRun task.now.program }
    requires out { K.can_write out.old }
    ensures tells { IfOk result
        (λ both. TellsRun its_output task.now.program task.now.fuel (said both.0)) }
    ensures written { IfOk result (λ both. HasWritten (K.can_write out.new) (record {
      was = K.written out.old;
      is = K.written out.new;
      faults_were = K.faults out.old;
      faults_are = K.faults out.new;
    }) (said both.0).out both.1) }
{
    let WrittenRun { ran, progress } = run_program(rt, gate, alloc, task, out)?;
    let end = end_of(alloc, &task.program, &ran.journal.ending)?;
    Ok((Answer::Ran(ran.journal, ran.output, end), progress))
}

/// The run of a task's program, to its end, by one worker, who waits for nobody, or by several, and
/// how far its output was written while it went on. The declarations of its calls are found by its
/// tables.
pub(crate) fn run_program<R: Threads + Wait + Sync, G: Gate + Sync, K: Sink>(
    rt: &R,
    gate: &G,
    alloc: Global,
    task: &Task,
    out: &mut K,
) -> Result<WrittenRun, Memory>
    requires may { MayRun task.now.program }
    requires out { K.can_write out.old }
    ensures run { IfOk result (λ done. IsRun task.now.program task.now.fuel done.ran) }
    ensures written { IfOk result (λ done. HasWritten (K.can_write out.new) (record {
      was = K.written out.old;
      is = K.written out.new;
      faults_were = K.faults out.old;
      faults_are = K.faults out.new;
    }) done.ran.output done.progress) }
{
    let tables = tables(alloc, &task.program)?;
    if task.workers < 2 {
        walk(alloc, &tables, task.fuel, out)
    } else {
        walk_side_by_side(rt, gate, alloc, &tables, task.fuel, task.workers, out)
    }
}

/// How a run ended.
pub(crate) fn end_of(alloc: Global, program: &Program, ending: &Ending) -> Result<Told, Memory>
    requires { ending.now ≢ an_ending.NotRun }
    ensures { IfOk result
        (λ end. TellsEnding program.now ending.now (status_of end) (note_of end)) }
{
    match ending {
        Ending::Uncaught(value) => Ok(Told::Uncaught(uncaught(alloc, program, value)?)),
        Ending::OutOfFuel(_) => Ok(Told::OutOfFuel),
        _ => Ok(Told::Completed),
    }
}
