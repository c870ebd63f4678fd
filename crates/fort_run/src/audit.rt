//! The command `audit`: whether a record is that of a run of a component.
ghost use Rattle.std.specs.Prelude.{◌≡◌, ◌≤◌, ℕ, List as Seq, length, IfOk};
ghost use Rattle.fort_audit.specs.Audits.{Audits};
ghost use Rattle.fort_audit.specs.declared.answer.Audited.{Audited};
ghost use Rattle.fort_lex.specs.Files.{HasTokens};
ghost use Rattle.fort_machine.specs.Written.{WrittenProgram};
ghost use Rattle.fort_front.specs.Written.{AreInOrder};
ghost use Rattle.fort_run.specs.Reply.{AuditMeans, RecordMeans, RecordSays, audited, file_limit, refused_record};
ghost use Rattle.fort_run.specs.Said.{said};

use crate::answer::{Answer, refused_by};
use crate::file::{RECORD_LIMIT, Unread, read_file};
use fort_audit::{Audited, Why, audit, note};
use fort_audit_record::{AuditFault, Record, parsed};
use fort_base::{Bytes, Memory};
use fort_core::Program;
use fort_front::{accepted_is_written, check};
use fort_lex::{Tokens, tokens};
use fort_port::Shelf;
use fort_sound::file_is_in_order;
use std::alloc::Global;

/// What is meant to say of the component's file of that name and of the record under another: the
/// component is judged as `check` judges it, before the record is read.
pub(crate) fn audit_file<F: Shelf>(
    alloc: Global,
    name: Bytes,
    kept: &Bytes,
    file: &Bytes,
    shelf: &mut F,
) -> Result<Answer, Memory>
    requires { length file.now ≤ file_limit }
    ensures kept { F.holding shelf.new ≡ F.holding shelf.old }
    ensures means { IfOk result
        (λ a. AuditMeans name file.now (F.holding shelf.old kept.now) (F.faults shelf.old)
        (F.faults shelf.new) (said a)) }
{
    file_is_in_order();
    match tokens(alloc, file.as_slice()) {
        Ok(tokens) => audit_tokens(alloc, name, kept, &tokens, shelf),
        Err(fault) => refused_by(name, fault),
    }
}

/// What is meant to say of a file of these tokens.
fn audit_tokens<F: Shelf>(
    alloc: Global,
    name: Bytes,
    kept: &Bytes,
    tokens: &Tokens,
    shelf: &mut F,
) -> Result<Answer, Memory>
    requires { AreInOrder tokens.now }
    ensures kept { F.holding shelf.new ≡ F.holding shelf.old }
    ensures means { IfOk result (λ a. (file : Seq ℕ) → HasTokens file tokens.now
        → AuditMeans name file (F.holding shelf.old kept.now) (F.faults shelf.old)
        (F.faults shelf.new) (said a)) }
{
    accepted_is_written();
    match check(alloc, tokens) {
        Ok(program) => audit_program(alloc, &program, kept, shelf),
        Err(fault) => refused_by(name, fault),
    }
}

/// What is meant to say of a component's program: the record is read.
fn audit_program<F: Shelf>(
    alloc: Global,
    program: &Program,
    kept: &Bytes,
    shelf: &mut F,
) -> Result<Answer, Memory>
    requires { WrittenProgram program.now }
    ensures kept { F.holding shelf.new ≡ F.holding shelf.old }
    ensures means { IfOk result
        (λ a. RecordMeans program.now (F.holding shelf.old kept.now) (F.faults shelf.old)
        (F.faults shelf.new) (said a)) }
{
    match read_file(alloc, shelf, kept, RECORD_LIMIT) {
        Ok(bytes) => audit_bytes(alloc, program, &bytes),
        Err(Unread::Failed) => Ok(Answer::Unread),
        Err(Unread::TooLarge) => Ok(Answer::TooLarge),
        Err(Unread::Memory) => Err(Memory),
    }
}

/// What is to say of a record's bytes.
fn audit_bytes(alloc: Global, program: &Program, bytes: &Bytes) -> Result<Answer, Memory>
    requires { WrittenProgram program.now }
    ensures { IfOk result (λ a. RecordSays program.now bytes.now (said a)) }
{
    match parsed(alloc, bytes.as_slice()) {
        Ok(kept) => audit_record(alloc, program, kept),
        Err(AuditFault::Form(at)) => record_refused(alloc, Why::Form(at)),
        Err(AuditFault::Memory) => Err(Memory),
    }
}

/// What is to say of a record.
fn audit_record(alloc: Global, program: &Program, kept: Record) -> Result<Answer, Memory>
    requires { WrittenProgram program.now }
    ensures { IfOk result (λ a.
        (answer : Audited) × Audits program.now kept answer × (said a ≡ audited kept answer)) }
{
    match audit(alloc, program, &kept)? {
        Audited::NotARun(at) => record_refused(alloc, Why::Pick(at)),
        Audited::OtherOutput(at) => record_refused(alloc, Why::Output(at)),
        Audited::Yes => Ok(Answer::Shown(kept.output)),
    }
}

/// The refusal of a record.
fn record_refused(alloc: Global, why: Why) -> Result<Answer, Memory>
    ensures { IfOk result (λ a. said a ≡ refused_record why) }
{
    Ok(Answer::RecordRefused(note(alloc, why)?))
}
