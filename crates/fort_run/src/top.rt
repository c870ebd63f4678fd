ghost use Rattle.std.specs.Prelude.{◌≡◌, map, string_bytes, IfOk};
ghost use Rattle.fort_port_output.specs.Written.{HasWritten};
ghost use Rattle.fort_run.specs.Outcome.{Answers};
ghost use Rattle.fort_run.specs.Reply.{Means};
ghost use Rattle.fort_run.specs.Said.{said};

use crate::answer::{Answer, no_run};
use crate::deliver::deliver;
use crate::laws::one_whole;
use crate::meant::Meant;
use crate::reply::reply_to;
use crate::run::run_task;
use fort_audit::one_answer;
use fort_audit_record::one_record;
use fort_base::Memory;
use fort_core::Journal;
use fort_diag::fixed;
use fort_front::{never_both, never_both_in_grammar, one_program};
use fort_port::{Gate, Shelf, Sink};
use fort_port_output::{Progress, nothing_was_written, write_all};
use std::alloc::Global;
use std::sync::Wait;
use std::thread::Threads;

/// The status of a call that found too little memory.
const WANTS_MEMORY: u8 = 7;

/// How a call ended.
#[derive(Drop)]
pub struct Finish {
    /// The status to end with.
    pub status: u8,
    /// The run of the component, whatever failed afterwards. For `check`, `show` and `audit`, and
    /// where a run never began, it has no fuel and no picks, and its ending is `NotRun`.
    pub journal: Journal,
}

/// Does what the words after the program's name ask for, with the files of a shelf, standard
/// output `out` and standard error `notes`, and answers the status to end with and the journal of
/// the run.
///
/// The words `run FILE [--workers N] [--fuel N]` run the component in the file, with a fuel of
/// 2,000,000 where none is given; `bench N` runs the bank of N accounts; `check FILE` says whether
/// the component is accepted, and `show FILE` writes its canonical text; `record FILE [--workers N]
/// [--fuel N]` runs as `run` does and writes the record of the run, and `audit FILE RECORD` says
/// whether a record is that of a run of the component, and writes the output that it records; `link
/// FILE.. [--workers N] [--fuel N]` runs the files, linked, as `run` does (the chapter "The command
/// line"). A file is read to its end before it is judged. The journal is that of a run of the
/// component's program, what is written is what this run printed, and the status says how it ended;
/// in each term of the run each call of values has its one declaration. What each status says, and
/// what then stands on both outputs, is the chapter "Statuses and notes" of docs/LANGUAGE.md. What a
/// run prints is written while it goes on. After a sink has failed nothing more is written to it.
/// Where memory is wanting the status is 7, and nothing is said of `out`.
pub fn fortress<R: Threads + Wait + Sync, F: Shelf, K: Sink, N: Sink, G: Gate + Sync>(
    rt: &R,
    alloc: Global,
    words: &[String],
    shelf: &mut F,
    out: &mut K,
    notes: &mut N,
    gate: &G,
) -> Finish
    requires out { K.can_write out.old }
    requires notes { N.can_write notes.old }
    ensures kept { F.holding shelf.new ≡ F.holding shelf.old }
    ensures answers { Answers (record {
      words = map string_bytes words.now;
      holding = F.holding shelf.old;
      faults_were = F.faults shelf.old;
      faults_are = F.faults shelf.new;
      out = record {
        was = K.written out.old;
        is = K.written out.new;
        faults_were = K.faults out.old;
        faults_are = K.faults out.new;
      };
      notes = record {
        was = N.written notes.old;
        is = N.written notes.new;
        faults_were = N.faults notes.old;
        faults_are = N.faults notes.new;
      };
    }) result }
{
    never_both();
    never_both_in_grammar();
    one_program();
    one_record();
    one_answer();
    one_whole();
    match answered(rt, gate, alloc, words, shelf, out) {
        Ok((answer, progress)) => {
            let status = deliver(
                answer.status(),
                answer.text(),
                answer.note(),
                progress,
                out,
                notes,
            );
            Finish {
                status,
                journal: answer.into_journal(alloc),
            }
        }
        Err(_) => {
            let _ = write_all(notes, fixed(WANTS_MEMORY).as_bytes());
            Finish {
                status: WANTS_MEMORY,
                journal: no_run(alloc),
            }
        }
    }
}

/// What a call means to say, once a program that it asks for has run, and how far of that was
/// written meanwhile.
fn answered<R: Threads + Wait + Sync, G: Gate + Sync, F: Shelf, K: Sink>(
    rt: &R,
    gate: &G,
    alloc: Global,
    words: &[String],
    shelf: &mut F,
    out: &mut K,
) -> Result<(Answer, Progress), Memory>
    requires out { K.can_write out.old }
    ensures kept { F.holding shelf.new ≡ F.holding shelf.old }
    ensures means { IfOk result
        (λ both. Means (map string_bytes words.now) (F.holding shelf.old) (F.faults shelf.old)
        (F.faults shelf.new) (said both.0)) }
    ensures written { IfOk result (λ both. HasWritten (K.can_write out.new) (record {
      was = K.written out.old;
      is = K.written out.new;
      faults_were = K.faults out.old;
      faults_are = K.faults out.new;
    }) (said both.0).out both.1) }
{
    nothing_was_written(out);
    match reply_to(alloc, words, shelf)? {
        Meant::Says(answer) => Ok((
            answer,
            Progress {
                bytes: 0,
                failed: false,
            },
        )),
        Meant::Runs(task) => run_task(rt, gate, alloc, &task, out),
    }
}
