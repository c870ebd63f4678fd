//! The command `record`: the record of a program's run.
ghost use Rattle.std.specs.Prelude.{IfOk};
ghost use Rattle.fort_run.specs.Reply.{TellsRun, its_record};
ghost use Rattle.fort_run.specs.Said.{said};
ghost use Rattle.fort_run.specs.Tasks.{MayRun, HaveTexts};

use crate::answer::Answer;
use crate::meant::Task;
use crate::run::{end_of, run_program};
use fort_audit_record::record_of;
use fort_base::Memory;
use fort_port::Gate;
use fort_port_output::NoSink;
use fort_walk::WrittenRun;
use std::alloc::Global;
use std::sync::Wait;
use std::thread::Threads;

/// What is to say of a task's run, where its record is to be written: what it prints goes nowhere
/// else.
pub(crate) fn recorded<R: Threads + Wait + Sync, G: Gate + Sync>(
    rt: &R,
    gate: &G,
    alloc: Global,
    task: &Task,
) -> Result<Answer, Memory>
    requires may { MayRun task.now.program }
    requires texts { HaveTexts task.now.program }
    ensures { IfOk result (λ a. TellsRun its_record task.now.program task.now.fuel (said a)) }
{
    let mut nowhere = NoSink;
    let WrittenRun {
        ran,
        progress: _progress,
    } = run_program(rt, gate, alloc, task, &mut nowhere)?;
    let end = end_of(alloc, &task.program, &ran.journal.ending)?;
    let text = record_of(alloc, &ran.journal, &ran.output)?;
    Ok(Answer::Ran(ran.journal, text, end))
}
