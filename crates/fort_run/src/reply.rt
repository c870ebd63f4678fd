//! What a call leads to: its words, and the files that they name.
ghost use Rattle.std.specs.Prelude.{◌≡◌, ◌≤◌, ◌*◌, ℕ, List as Seq, length, map, string_bytes, IfOk, IfErr, OnOk};
ghost use Rattle.fort_cmd.specs.Words.{IsCommand, most_accounts};
ghost use Rattle.fort_bench.specs.Bank as the;
ghost use Rattle.fort_run.specs.Fronts.{StopsAt, IsTooLarge};
ghost use Rattle.fort_run.specs.Reply.{Means, CommandSays, RunSays, IsText, IsBounded, IsOfOneFile, IsOfText, bench_fuel, bench_name, file_limit, its_output};
ghost use Rattle.fort_run.specs.Tasks.{LeadsTo};

use crate::answer::Answer;
use crate::audit::audit_file;
use crate::check::check_file;
use crate::file::{FILE_LIMIT, Unread, read_file};
use crate::link::link_files;
use crate::meant::{Meant, Written};
use crate::run::run_file;
use crate::show::show_file;
use fort_base::{Bytes, List, Memory};
use fort_bench::bank;
use fort_cmd::{CmdFault, Command, command_of};
use fort_port::Shelf;
use std::alloc::Global;

/// The fuel of the bank.
const BENCH_FUEL: u64 = 20_000_000;

/// The workers of the bank.
const BENCH_WORKERS: u32 = 4;

/// What the call with these words leads to; a file is read to its end, or to the first byte
/// behind the limit, before anything of it is judged.
pub(crate) fn reply_to<F: Shelf>(
    alloc: Global,
    words: &[String],
    shelf: &mut F,
) -> Result<Meant, Memory>
    ensures kept { F.holding shelf.new ≡ F.holding shelf.old }
    ensures means { IfOk result
        (LeadsTo (Means (map string_bytes words.now) (F.holding shelf.old) (F.faults shelf.old)
        (F.faults shelf.new))) }
{
    match command_of(alloc, words) {
        Ok(Command::Link(names, workers, fuel)) => {
            link_files(alloc, &names, workers, fuel, shelf)
        },
        Ok(command) => asked(alloc, command, shelf),
        Err(CmdFault::NotACommand) => Ok(Meant::Says(Answer::NoCommand)),
        Err(CmdFault::Memory) => Err(Memory),
    }
}

/// What the call with this command, which is no link, leads to.
fn asked<F: Shelf>(alloc: Global, command: Command, shelf: &mut F) -> Result<Meant, Memory>
    requires bounded { IsBounded command }
    requires text { IsOfText command }
    ensures kept { F.holding shelf.new ≡ F.holding shelf.old }
    ensures means { IfOk result (LeadsTo (λ reply. (words : Seq (Seq ℕ))
        → IsCommand words command
        → Means words (F.holding shelf.old) (F.faults shelf.old) (F.faults shelf.new) reply)) }
{
    match read_text(alloc, &command, shelf) {
        Ok(text) => judged(alloc, command, &text, shelf),
        Err(Unread::Failed) => Ok(Meant::Says(Answer::Unread)),
        Err(Unread::TooLarge) => Ok(Meant::Says(Answer::TooLarge)),
        Err(Unread::Memory) => Err(Memory),
    }
}

/// The text that a command is about: its component's file, or the bank.
fn read_text<F: Shelf>(alloc: Global, command: &Command, shelf: &mut F) -> Result<Bytes, Unread>
    requires bounded { IsBounded command.now }
    requires text { IsOfText command.now }
    ensures kept { F.holding shelf.new ≡ F.holding shelf.old }
    ensures text { IfOk result (IsText (F.holding shelf.old) command.now) }
    ensures within { IfOk result (λ text. length text ≤ file_limit) }
    ensures calm { OnOk result (F.faults shelf.new ≡ F.faults shelf.old) }
    ensures stops { IfErr result
        (StopsAt (F.holding shelf.old) command.now (F.faults shelf.old) (F.faults shelf.new)) }
{
    match command {
        Command::Check(name) => read_file(alloc, shelf, name, FILE_LIMIT),
        Command::Show(name) => read_file(alloc, shelf, name, FILE_LIMIT),
        Command::Run(name, _, _) => read_file(alloc, shelf, name, FILE_LIMIT),
        Command::Bench(accounts) => bank_within(alloc, *accounts),
        Command::Record(name, _, _) => read_file(alloc, shelf, name, FILE_LIMIT),
        Command::Audit(name, _) => read_file(alloc, shelf, name, FILE_LIMIT),
        Command::Link(_, _, _) => unreachable!(),
    }
}

/// The bank of so many accounts, if it is no larger than a file may be.
fn bank_within(alloc: Global, accounts: u32) -> Result<Bytes, Unread>
    requires { accounts ≤ most_accounts }
    ensures text { IfOk result (λ text. text ≡ the.bank accounts (4 * accounts)) }
    ensures within { IfOk result (λ text. length text ≤ file_limit) }
    ensures stops { IfErr result (IsTooLarge (the.bank accounts (4 * accounts))) }
{
    let text = bank(alloc, accounts, 4 * accounts)?;
    if text.len() > FILE_LIMIT {
        return Err(Unread::TooLarge);
    }
    Ok(text)
}

/// What a command's text leads to; an audit has a second file to read.
fn judged<F: Shelf>(
    alloc: Global,
    command: Command,
    text: &Bytes,
    shelf: &mut F,
) -> Result<Meant, Memory>
    requires is_text { IsText (F.holding shelf.old) command text.now }
    requires within { length text.now ≤ file_limit }
    ensures kept { F.holding shelf.new ≡ F.holding shelf.old }
    ensures means { IfOk result (LeadsTo (λ reply. (words : Seq (Seq ℕ))
        → IsCommand words command
        → Means words (F.holding shelf.old) (F.faults shelf.old) (F.faults shelf.new) reply)) }
{
    match command {
        Command::Audit(name, kept) => {
            Ok(Meant::Says(audit_file(alloc, name, &kept, text, shelf)?))
        },
        other => one_file(alloc, other, text),
    }
}

/// What a command's text leads to, where that is its only file.
fn one_file(alloc: Global, command: Command, text: &Bytes) -> Result<Meant, Memory>
    requires one { IsOfOneFile command }
    requires within { length text.now ≤ file_limit }
    ensures { IfOk result (LeadsTo (CommandSays command text.now)) }
{
    match command {
        Command::Check(name) => Ok(Meant::Says(check_file(alloc, name, text)?)),
        Command::Show(name) => Ok(Meant::Says(show_file(alloc, name, text)?)),
        Command::Run(name, workers, fuel) => {
            run_file(alloc, name, text, workers, fuel, Written::Output)
        },
        Command::Bench(_) => run_bank(alloc, text),
        Command::Record(name, workers, fuel) => {
            run_file(alloc, name, text, workers, fuel, Written::Record)
        },
        Command::Audit(_, _) => unreachable!(),
        Command::Link(_, _, _) => unreachable!(),
    }
}

/// What the bank's text leads to.
fn run_bank(alloc: Global, text: &Bytes) -> Result<Meant, Memory>
    requires { length text.now ≤ file_limit }
    ensures { IfOk result (LeadsTo (RunSays its_output bench_name text.now bench_fuel)) }
{
    let name = List::from_slice(alloc, b"bench")?;
    run_file(
        alloc,
        name,
        text,
        BENCH_WORKERS,
        BENCH_FUEL,
        Written::Output,
    )
}
