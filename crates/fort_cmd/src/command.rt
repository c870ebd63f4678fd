//! The commands.
ghost use Rattle.std.specs.Prelude.{◌≡◌, ◌≢◌, ◌∷◌, ◌↔◌, ℕ, List as Seq, Option, Some, unwrap_or, map, codes, string_bytes, IfOk, IfErr, IsTrue};
ghost use Rattle.clap.specs.Words.{Row, found_of, kind_of, rows_of};
ghost use Rattle.fort_cmd.specs.Words.{Explains, Fuel, IsCommand, Workers, default_fuel, default_workers, file_of};
ghost use Rattle.fort_cmd.specs.Line.{FoundNumber, IsOf, Kind, OfFile, OfRun, OfAudit, OfLink, Reads, row, row_of_id};
ghost use Rattle.fort_cmd.specs.declared.command.CmdFault.TheVariants as a_fault;

use crate::line::line;
use clap::error::ErrorKind;
use clap::{ArgMatches, Error};
use fort_base::{Bytes, List, Memory};
use std::alloc::{AllocError, Global};

/// The workers of a run where no word gives them.
const DEFAULT_WORKERS: u32 = 4;

/// The fuel of a run where no word gives it.
const DEFAULT_FUEL: u64 = 2_000_000;

/// The most accounts of the bank.
const MOST_ACCOUNTS: u32 = 10_000;

/// The most files that may be linked.
const MOST_FILES: usize = 64;

/// What the words ask for.
#[derive(Drop)]
pub enum Command {
    /// `check FILE`
    Check(Bytes),
    /// `show FILE`
    Show(Bytes),
    /// `run FILE [--workers N] [--fuel N]`: the file, the workers, from 1 to 64, and the fuel,
    /// from 1 to 20,000,000.
    Run(Bytes, u32, u64),
    /// `bench N`: the accounts of the bank, from 1 to 10,000.
    Bench(u32),
    /// `record FILE [--workers N] [--fuel N]`: as `run`.
    Record(Bytes, u32, u64),
    /// `audit FILE RECORD`: the component's file, and that of the record.
    Audit(Bytes, Bytes),
    /// `link FILE.. [--workers N] [--fuel N]`: the files, from 1 to 64, and the rest as for `run`.
    Link(List<Bytes>, u32, u64),
}

/// Why there is no command.
#[derive(Clone, Copy, Debug, PartialEq, Eq)]
pub enum CmdFault {
    NotACommand,
    Memory,
}

impl From<Memory> for CmdFault {
    ghost from_gives = { λ _ fault. fault ≡ a_fault.Memory };

    fn from(_error: Memory) -> CmdFault {
        CmdFault::Memory
    }
}

impl From<AllocError> for CmdFault {
    ghost from_gives = { λ _ fault. fault ≡ a_fault.Memory };

    fn from(_error: AllocError) -> CmdFault {
        CmdFault::Memory
    }
}

impl Command {
    ghost use Rattle.std.specs.Prelude.{◌≡◌, option_map};

    /// The name of the component's file, where the command reads just one: `bench` reads none, and
    /// `link` reads files of several.
    pub fn file(&self) -> Option<&Bytes>
        ensures { option_map (λ f. f.now) result ≡ file_of self.now }
    {
        match self {
            Command::Check(file) => Some(file),
            Command::Show(file) => Some(file),
            Command::Run(file, _, _) => Some(file),
            Command::Bench(_) => None,
            Command::Record(file, _, _) => Some(file),
            Command::Audit(file, _) => Some(file),
            Command::Link(_, _, _) => None,
        }
    }
}

/// The command that the words after the program's name are: `check FILE`, `show FILE`, `run FILE
/// [--workers N] [--fuel N]`, `bench N`, `record FILE [--workers N] [--fuel N]`, `audit FILE
/// RECORD` or `link FILE.. [--workers N] [--fuel N]` with 1 to 64 files. Options and files stand in
/// any order, each option once at most, and RECORD behind FILE; `--name N` and `--name=N` mean the
/// same, and behind the first `--` every word is a file. Without the options there are 4 workers,
/// and the fuel is 2,000,000. The chapter "The command line".
///
/// # Errors
///
/// `NotACommand` where the words are none; `Memory` where memory is wanting.
pub fn command_of(alloc: Global, words: &[String]) -> Result<Command, CmdFault>
    ensures ok { IfOk result (IsCommand (map string_bytes words.now)) }
    ensures cause { IfErr result (Explains (map string_bytes words.now)) }
{
    let matches = match line(alloc)?.try_get_matches_from(words) {
        Ok(matches) => matches,
        Err(error) => return Err(fault_of(&error)),
    };
    match matches.subcommand() {
        Some((name, given)) => named(alloc, name, given),
        None => Err(CmdFault::NotACommand),
    }
}

/// Why there is no command where the words were refused.
fn fault_of(error: &Error) -> CmdFault
    ensures { (kind_of error.now ≢ ErrorKind.OutOfMemory) ↔ (result ≡ a_fault.NotACommand) }
{
    match error.kind() {
        ErrorKind::OutOfMemory => CmdFault::Memory,
        _ => CmdFault::NotACommand,
    }
}

/// The command of this name, with what was found behind it.
fn named(alloc: Global, name: &str, given: &ArgMatches<'_>) -> Result<Command, CmdFault>
    ensures ok { (kind : Kind) (behind : Seq (Seq ℕ)) → IsOf kind name.now
        → Reads kind behind (rows_of (found_of given.now))
        → IfOk result (IsCommand (name.now ∷ behind)) }
    ensures cause { (kind : Kind) (behind : Seq (Seq ℕ)) → IsOf kind name.now
        → Reads kind behind (rows_of (found_of given.now))
        → IfErr result (Explains (name.now ∷ behind)) }
{
    if name == "run" {
        return run_of(alloc, given);
    }
    if name == "check" {
        return check_of(alloc, given);
    }
    if name == "show" {
        return show_of(alloc, given);
    }
    if name == "bench" {
        return bench_of(given);
    }
    if name == "record" {
        return record_of(alloc, given);
    }
    if name == "audit" {
        return audit_of(alloc, given);
    }
    link_of(alloc, given)
}

/// The command to run.
fn run_of(alloc: Global, given: &ArgMatches<'_>) -> Result<Command, CmdFault>
    ensures ok { (behind : Seq (Seq ℕ)) → Reads OfRun behind (rows_of (found_of given.now))
        → IfOk result (IsCommand (codes "run" ∷ behind)) }
    ensures cause { (behind : Seq (Seq ℕ)) → Reads OfRun behind (rows_of (found_of given.now))
        → IfErr result (λ fault. fault ≡ a_fault.Memory) }
{
    let file = word_of(alloc, given, "file")?;
    Ok(Command::Run(file, workers_of(given), fuel_of(given)))
}

/// The command to check.
fn check_of(alloc: Global, given: &ArgMatches<'_>) -> Result<Command, CmdFault>
    ensures ok { (behind : Seq (Seq ℕ)) → Reads OfFile behind (rows_of (found_of given.now))
        → IfOk result (IsCommand (codes "check" ∷ behind)) }
    ensures cause { (behind : Seq (Seq ℕ)) → Reads OfFile behind (rows_of (found_of given.now))
        → IfErr result (λ fault. fault ≡ a_fault.Memory) }
{
    Ok(Command::Check(word_of(alloc, given, "file")?))
}

/// The command to show.
fn show_of(alloc: Global, given: &ArgMatches<'_>) -> Result<Command, CmdFault>
    ensures ok { (behind : Seq (Seq ℕ)) → Reads OfFile behind (rows_of (found_of given.now))
        → IfOk result (IsCommand (codes "show" ∷ behind)) }
    ensures cause { (behind : Seq (Seq ℕ)) → Reads OfFile behind (rows_of (found_of given.now))
        → IfErr result (λ fault. fault ≡ a_fault.Memory) }
{
    Ok(Command::Show(word_of(alloc, given, "file")?))
}

/// The bank. The number of its accounts stands where a file would.
fn bench_of(given: &ArgMatches<'_>) -> Result<Command, CmdFault>
    ensures ok { (behind : Seq (Seq ℕ)) → Reads OfFile behind (rows_of (found_of given.now))
        → IfOk result (IsCommand (codes "bench" ∷ behind)) }
    ensures cause { (behind : Seq (Seq ℕ)) → Reads OfFile behind (rows_of (found_of given.now))
        → IfErr result (Explains (codes "bench" ∷ behind)) }
{
    match given.get_one::<u32>("file") {
        Some(accounts) if 1 <= accounts && accounts <= MOST_ACCOUNTS => {
            Ok(Command::Bench(accounts))
        }
        _ => Err(CmdFault::NotACommand),
    }
}

/// The command to record.
fn record_of(alloc: Global, given: &ArgMatches<'_>) -> Result<Command, CmdFault>
    ensures ok { (behind : Seq (Seq ℕ)) → Reads OfRun behind (rows_of (found_of given.now))
        → IfOk result (IsCommand (codes "record" ∷ behind)) }
    ensures cause { (behind : Seq (Seq ℕ)) → Reads OfRun behind (rows_of (found_of given.now))
        → IfErr result (λ fault. fault ≡ a_fault.Memory) }
{
    let file = word_of(alloc, given, "file")?;
    Ok(Command::Record(file, workers_of(given), fuel_of(given)))
}

/// The command to audit.
fn audit_of(alloc: Global, given: &ArgMatches<'_>) -> Result<Command, CmdFault>
    ensures ok { (behind : Seq (Seq ℕ)) → Reads OfAudit behind (rows_of (found_of given.now))
        → IfOk result (IsCommand (codes "audit" ∷ behind)) }
    ensures cause { (behind : Seq (Seq ℕ)) → Reads OfAudit behind (rows_of (found_of given.now))
        → IfErr result (λ fault. fault ≡ a_fault.Memory) }
{
    let file = word_of(alloc, given, "file")?;
    let kept = word_of(alloc, given, "record")?;
    Ok(Command::Audit(file, kept))
}

/// The files to link and run, if they aren't too many.
fn link_of(alloc: Global, given: &ArgMatches<'_>) -> Result<Command, CmdFault>
    ensures ok { (behind : Seq (Seq ℕ)) → Reads OfLink behind (rows_of (found_of given.now))
        → IfOk result (IsCommand (codes "link" ∷ behind)) }
    ensures cause { (behind : Seq (Seq ℕ)) → Reads OfLink behind (rows_of (found_of given.now))
        → IfErr result (Explains (codes "link" ∷ behind)) }
{
    match given.get_strs("file") {
        Some(words) if words.len() <= MOST_FILES => {
            let files = bytes_of(alloc, words)?;
            Ok(Command::Link(files, workers_of(given), fuel_of(given)))
        }
        _ => Err(CmdFault::NotACommand),
    }
}

/// The bytes of each word.
fn bytes_of(alloc: Global, words: &[&str]) -> Result<List<Bytes>, Memory>
    ensures { IfOk result (λ bytes. bytes ≡ map (λ word. word.now) words.now) }
{
    let mut all = List::new(alloc);
    for word in words {
        all.push(List::from_slice(alloc, word.as_bytes())?)?;
    }
    Ok(all)
}

/// The word that was found for an argument that has to stand there.
fn word_of(alloc: Global, given: &ArgMatches<'_>, id: &str) -> Result<Bytes, CmdFault>
    ensures ok { (word : Seq ℕ)
        → row_of_id id.now (rows_of (found_of given.now)) ≡ Some (row id.now word)
        → IfOk result (λ bytes. bytes ≡ word) }
    ensures cause { (word : Seq ℕ)
        → row_of_id id.now (rows_of (found_of given.now)) ≡ Some (row id.now word)
        → IfErr result (λ fault. fault ≡ a_fault.Memory) }
{
    match given.get_str(id) {
        Some(word) => Ok(List::from_slice(alloc, word.as_bytes())?),
        None => Err(CmdFault::NotACommand),
    }
}

/// The workers that were found, or the default.
fn workers_of(given: &ArgMatches<'_>) -> u32
    ensures { (n : Option ℕ) → FoundNumber Workers (rows_of (found_of given.now)) n
        → result ≡ unwrap_or n default_workers }
{
    given.get_one::<u32>("workers").unwrap_or(DEFAULT_WORKERS)
}

/// The fuel that was found, or the default.
fn fuel_of(given: &ArgMatches<'_>) -> u64
    ensures { (n : Option ℕ) → FoundNumber Fuel (rows_of (found_of given.now)) n
        → result ≡ unwrap_or n default_fuel }
{
    given.get_one::<u64>("fuel").unwrap_or(DEFAULT_FUEL)
}
