//! What a call means to say.
ghost use Rattle.std.specs.Prelude.{◌≡◌, IfOk};
ghost use Rattle.fort_diag.specs.Notes.{refusal};
ghost use Rattle.fort_run.specs.Reply as reply;
ghost use Rattle.fort_run.specs.declared.answer.Answer.TheVariants as Answer;
ghost use Rattle.fort_run.specs.Said.{said, status_of, note_of, RefusedBy};

use fort_base::{Bytes, CheckFault, List, Memory, Place, Rule};
use fort_core::{Ending, Journal};
use fort_diag::fixed;
use std::alloc::Global;

/// How a run ended.
#[derive(Drop)]
pub(crate) enum Told {
    Completed,
    /// With an exception that nothing caught; the note.
    Uncaught(Bytes),
    OutOfFuel,
}

impl Told {
    ghost use Rattle.std.specs.Prelude.{◌≡◌};

    fn status(&self) -> u8
        ensures { result ≡ status_of self.now }
    {
        match self {
            Told::Completed => 0,
            Told::Uncaught(_) => 5,
            Told::OutOfFuel => 6,
        }
    }

    fn note(&self) -> &[u8]
        ensures { result.now ≡ note_of self.now }
    {
        match self {
            Told::Completed => &[],
            Told::Uncaught(note) => note.as_slice(),
            Told::OutOfFuel => fixed(6).as_bytes(),
        }
    }
}

/// What a call means to say.
#[derive(Drop)]
pub(crate) enum Answer {
    /// A run: its journal, what is to be written of it, and how it ended.
    Ran(Journal, Bytes, Told),
    /// A component is accepted.
    Accepted,
    /// A text: a component's, or what a record has for the output.
    Shown(Bytes),
    /// A component is refused; the note.
    Refused(Bytes),
    NoCommand,
    Unread,
    TooLarge,
    /// A record is refused; the note.
    RecordRefused(Bytes),
}

impl Answer {
    ghost use Rattle.std.specs.Prelude.{◌≡◌};

    pub(crate) fn status(&self) -> u8
        ensures { result ≡ (said self.now).status }
    {
        match self {
            Answer::Ran(_, _, end) => end.status(),
            Answer::Accepted => 0,
            Answer::Shown(_) => 0,
            Answer::Refused(_) => 1,
            Answer::NoCommand => 2,
            Answer::Unread => 3,
            Answer::TooLarge => 8,
            Answer::RecordRefused(_) => 9,
        }
    }

    pub(crate) fn text(&self) -> &[u8]
        ensures { result.now ≡ (said self.now).out }
    {
        match self {
            Answer::Ran(_, text, _) => text.as_slice(),
            Answer::Accepted => b"accepted\n",
            Answer::Shown(text) => text.as_slice(),
            _ => &[],
        }
    }

    pub(crate) fn note(&self) -> &[u8]
        ensures { result.now ≡ (said self.now).note }
    {
        match self {
            Answer::Ran(_, _, end) => end.note(),
            Answer::Accepted => &[],
            Answer::Shown(_) => &[],
            Answer::Refused(note) => note.as_slice(),
            Answer::NoCommand => fixed(2).as_bytes(),
            Answer::Unread => fixed(3).as_bytes(),
            Answer::TooLarge => fixed(8).as_bytes(),
            Answer::RecordRefused(note) => note.as_slice(),
        }
    }

    /// The journal; where there was no run it is of none.
    pub(crate) fn into_journal(self, alloc: Global) -> Journal
        ensures { result ≡ (said self).journal }
    {
        match self {
            Answer::Ran(journal, _, _) => journal,
            Answer::Accepted => no_run(alloc),
            Answer::Shown(_) => no_run(alloc),
            Answer::Refused(_) => no_run(alloc),
            Answer::NoCommand => no_run(alloc),
            Answer::Unread => no_run(alloc),
            Answer::TooLarge => no_run(alloc),
            Answer::RecordRefused(_) => no_run(alloc),
        }
    }
}

/// The journal where there was no run; it takes no memory.
pub(crate) fn no_run(alloc: Global) -> Journal
    ensures { result ≡ reply.no_run }
{
    Journal {
        fuel: 0,
        picks: List::new(alloc),
        ending: Ending::NotRun,
    }
}

/// The refusal of a file by the fault of its check.
pub(crate) fn refused_by(name: Bytes, fault: CheckFault) -> Result<Answer, Memory>
    ensures { IfOk result (RefusedBy name fault) }
{
    match fault {
        CheckFault::Refused(rule, place) => refused(name, rule, place),
        CheckFault::Memory => Err(Memory),
    }
}

/// The refusal of a file.
pub(crate) fn refused(name: Bytes, rule: Rule, place: Place) -> Result<Answer, Memory>
    ensures { IfOk result (λ a. a ≡ Answer.Refused (refusal name rule place)) }
{
    Ok(Answer::Refused(fort_diag::refused(name, rule, place)?))
}
