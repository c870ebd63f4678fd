//! The command `link`: the program of several files as one component, or their refusal.
ghost use Rattle.std.specs.Prelude.{◌≡◌, ◌≤◌, [], get_or, length, IfOk, IfErr, OnOk};
ghost use Rattle.fort_cmd.specs.Words.{most_files};
ghost use Rattle.fort_run.specs.Fronts.{StopsAmong};
ghost use Rattle.fort_run.specs.Reply.{AreFiles, LinkMeans, LinkSays, file_limit, refusal_at, size_of};
ghost use Rattle.fort_run.specs.Said.{LinkChecks};
ghost use Rattle.fort_run.specs.Tasks.{LeadsTo};
ghost use Rattle.fort_run.specs.declared.answer.Answer.TheVariants as Answer;

use crate::answer::{Answer, refused};
use crate::file::{FILE_LIMIT, Unread, read_file};
use crate::meant::{Meant, Task, Written};
use fort_base::{Bytes, CheckFault, List, Memory, Rule};
use fort_core::Program;
use fort_front::{accepted_is_written, check_component};
use fort_link::{LinkFault, Spot, linked, spot};
use fort_link_law_whole::whole_is_in_order;
use fort_port::Shelf;
use fort_sound::{accepted_component_is_sound, founded_runs_well};
use fort_sound_never::{founded_goes_through, founded_never_stops};
use std::alloc::Global;

/// What the files of these names lead to, linked and run with a fuel in steps: all are read to
/// their ends, or to the first byte behind the limit that they have together, before anything of
/// them is judged.
pub(crate) fn link_files<F: Shelf>(
    alloc: Global,
    names: &List<Bytes>,
    workers: u32,
    fuel: u64,
    shelf: &mut F,
) -> Result<Meant, Memory>
    requires count { (1 ≤ length names.now) × (length names.now ≤ most_files) }
    ensures kept { F.holding shelf.new ≡ F.holding shelf.old }
    ensures means { IfOk result
        (LeadsTo (LinkMeans names.now fuel (F.holding shelf.old) (F.faults shelf.old)
        (F.faults shelf.new))) }
{
    match read_files(alloc, shelf, names) {
        Ok(files) => link_texts(alloc, names, &files, workers, fuel),
        Err(Unread::Failed) => Ok(Meant::Says(Answer::Unread)),
        Err(Unread::TooLarge) => Ok(Meant::Says(Answer::TooLarge)),
        Err(Unread::Memory) => Err(Memory),
    }
}

/// Reads files to their ends, one after another, or up to the first byte behind the limit that they
/// have together.
fn read_files<F: Shelf>(
    alloc: Global,
    shelf: &mut F,
    names: &List<Bytes>,
) -> Result<List<Bytes>, Unread>
    ensures kept { F.holding shelf.new ≡ F.holding shelf.old }
    ensures files { IfOk result (AreFiles (F.holding shelf.old) names.now) }
    ensures within { IfOk result (λ files. size_of files ≤ file_limit) }
    ensures calm { OnOk result (F.faults shelf.new ≡ F.faults shelf.old) }
    ensures stops { IfErr result
        (StopsAmong (F.holding shelf.old) names.now (F.faults shelf.old) (F.faults shelf.new)) }
{
    let mut files = List::new(alloc);
    let mut room = FILE_LIMIT;
    for name in names.as_slice() {
        let file = read_file(alloc, shelf, name, room)?;
        room -= file.len();
        files.push(file)?;
    }
    Ok(files)
}

/// What files lead to, linked and run.
fn link_texts(
    alloc: Global,
    names: &List<Bytes>,
    files: &List<Bytes>,
    workers: u32,
    fuel: u64,
) -> Result<Meant, Memory>
    requires count { (1 ≤ length files.now) × (length files.now ≤ most_files) }
    requires within { size_of files.now ≤ file_limit }
    ensures { IfOk result (LeadsTo (LinkSays names.now files.now fuel)) }
{
    whole_is_in_order();
    accepted_is_written();
    accepted_component_is_sound();
    founded_runs_well();
    founded_never_stops();
    founded_goes_through();
    match program_of(alloc, files) {
        Ok(program) => Ok(Meant::Runs(Task {
            program,
            workers,
            fuel,
            writes: Written::Output,
        })),
        Err(LinkFault::Refused(rule, at)) => {
            Ok(Meant::Says(refused_at(alloc, names, rule, at)?))
        },
        Err(LinkFault::Memory) => Err(Memory),
    }
}

/// The program of the component that files are, linked.
fn program_of(alloc: Global, files: &List<Bytes>) -> Result<Program, LinkFault>
    requires count { (1 ≤ length files.now) × (length files.now ≤ most_files) }
    requires within { size_of files.now ≤ file_limit }
    ensures { LinkChecks files.now result }
{
    let whole = linked(alloc, files)?;
    match check_component(alloc, whole.parsed, whole.spawns) {
        Ok(program) => Ok(program),
        Err(CheckFault::Refused(rule, place)) => Err(LinkFault::Refused(rule, spot(files, place))),
        Err(CheckFault::Memory) => Err(LinkFault::Memory),
    }
}

/// The refusal at a place of one of the files, which the note calls by its word.
fn refused_at(alloc: Global, names: &List<Bytes>, rule: Rule, at: Spot) -> Result<Answer, Memory>
    ensures { IfOk result (λ a. a ≡ Answer.Refused (refusal_at names.now rule at)) }
{
    let name = word_at(alloc, names, at.file)?;
    refused(name, rule, at.place)
}

/// The word at a place counted from 0; no bytes where there is none.
fn word_at(alloc: Global, names: &List<Bytes>, at: u32) -> Result<Bytes, Memory>
    ensures { IfOk result (λ name. name ≡ get_or names.now at []) }
{
    match names.get(at as usize) {
        Some(name) => Ok(List::from_slice(alloc, name.as_slice())?),
        None => Ok(List::new(alloc)),
    }
}
