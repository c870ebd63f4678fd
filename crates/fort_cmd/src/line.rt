//! The command line as `clap` knows it.
ghost use Rattle.std.specs.Prelude.{◌≡◌, IfOk, codes, false};
ghost use Rattle.clap.specs.Words.{app_of, new_app, rule_of};
ghost use Rattle.clap.specs.declared.builder.command.Command.TheViews.{out-Command as fields_of};
ghost use Rattle.fort_cmd.specs.Line as the;
ghost use Rattle.fort_cmd.specs.Words.{Workers, Fuel};

use clap::{Arg, ArgAction, Command, value_parser};
use std::alloc::{AllocError, Global};

/// All commands, with no help word.
pub(crate) fn line<'a>(alloc: Global) -> Result<Command<'a>, AllocError>
    ensures { IfOk result (λ c. app_of c ≡ the.line) }
{
    let check = of_file(alloc, "check")?;
    let show = of_file(alloc, "show")?;
    let run = of_run(alloc, "run")?;
    let bench = of_file(alloc, "bench")?;
    let record = of_run(alloc, "record")?;
    let audit = of_audit(alloc, "audit")?;
    let link = of_link(alloc, "link")?;
    quiet(alloc)
        .subcommand(check)?
        .subcommand(show)?
        .subcommand(run)?
        .subcommand(bench)?
        .subcommand(record)?
        .subcommand(audit)?
        .subcommand(link)
}

/// The command line without commands.
fn quiet<'a>(alloc: Global) -> Command<'a>
    ensures { app_of result ≡ the.quiet (new_app (codes "fortress")) }
{
    Command::new(alloc, "fortress")
        .no_binary_name(true)
        .disable_help_flag(true)
        .disable_help_subcommand(true)
}

/// A command that takes a FILE, or a number in its place.
fn of_file<'a>(alloc: Global, name: &'a str) -> Result<Command<'a>, AllocError>
    ensures app { IfOk result (λ c. app_of c ≡ the.sub_of the.OfFile name.now) }
    ensures local { IfOk result (λ c. (fields_of c).has_globals ≡ false) }
{
    Command::new(alloc, name).arg(word(alloc, "file"))
}

/// A command that takes a FILE and the options of a run.
fn of_run<'a>(alloc: Global, name: &'a str) -> Result<Command<'a>, AllocError>
    ensures app { IfOk result (λ c. app_of c ≡ the.sub_of the.OfRun name.now) }
    ensures local { IfOk result (λ c. (fields_of c).has_globals ≡ false) }
{
    Command::new(alloc, name)
        .arg(workers(alloc))?
        .arg(fuel(alloc))?
        .arg(word(alloc, "file"))
}

/// A command that takes a FILE and behind it a RECORD.
fn of_audit<'a>(alloc: Global, name: &'a str) -> Result<Command<'a>, AllocError>
    ensures app { IfOk result (λ c. app_of c ≡ the.sub_of the.OfAudit name.now) }
    ensures local { IfOk result (λ c. (fields_of c).has_globals ≡ false) }
{
    Command::new(alloc, name)
        .arg(word(alloc, "file"))?
        .arg(word(alloc, "record"))
}

/// A command that takes one FILE or more, and the options of a run.
fn of_link<'a>(alloc: Global, name: &'a str) -> Result<Command<'a>, AllocError>
    ensures app { IfOk result (λ c. app_of c ≡ the.sub_of the.OfLink name.now) }
    ensures local { IfOk result (λ c. (fields_of c).has_globals ≡ false) }
{
    Command::new(alloc, name)
        .arg(workers(alloc))?
        .arg(fuel(alloc))?
        .arg(words(alloc, "file"))
}

/// A word that has to stand there.
fn word<'a>(alloc: Global, id: &'a str) -> Arg<'a>
    ensures rule { rule_of result ≡ the.word_rule id.now }
    ensures local { result.global ≡ false }
{
    Arg::new(alloc, id).required(true)
}

/// Words of which at least one has to stand there.
fn words<'a>(alloc: Global, id: &'a str) -> Arg<'a>
    ensures rule { rule_of result ≡ the.words_rule id.now }
    ensures local { result.global ≡ false }
{
    word(alloc, id).action(ArgAction::Append)
}

/// `--workers N`, from 1 to 64.
fn workers<'a>(alloc: Global) -> Arg<'a>
    ensures rule { rule_of result ≡ the.option_rule Workers }
    ensures local { result.global ≡ false }
{
    Arg::new(alloc, "workers")
        .long("workers")
        .value_parser(value_parser!(u64).range(1..=64))
}

/// `--fuel N`, from 1 to 20,000,000.
fn fuel<'a>(alloc: Global) -> Arg<'a>
    ensures rule { rule_of result ≡ the.option_rule Fuel }
    ensures local { result.global ≡ false }
{
    Arg::new(alloc, "fuel")
        .long("fuel")
        .value_parser(value_parser!(u64).range(1..=20_000_000))
}
