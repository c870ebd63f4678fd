//! Files read as units over one table.
ghost use Rattle.std.specs.Prelude.{◌≡◌, ◌≤◌, ◌<◌, ◌+◌, ◌^◌, ◌||◌, length, map, sum};
ghost use Rattle.fort_link.specs.Lines as spec;
ghost use Rattle.fort_link.specs.Units as units;
ghost use Rattle.fort_link.specs.Reading.{AddAnswers, ReadAnswers, in_file, spawns_by};

use crate::answer::{LinkFault, Spot};
use crate::lines::lines;
use fort_base::{Bytes, CheckFault, List, Place};
use fort_lex::tokens;
use fort_lex_token::Token;
use fort_link_table::Table;
use fort_link_units::{Unit, read_unit};
use fort_spawn::has_spawn;
use std::alloc::Global;

/// What was read of the files so far.
#[derive(Drop)]
pub struct Read {
    /// What they are.
    pub units: List<Unit>,
    /// Their names, texts and lines.
    pub table: Table,
    /// Whether the word `spawn` stands in one that is a component.
    pub spawns: bool,
}

/// Reads files as units, or finds the first one that is none. It needs 1,048,576 bytes at most.
pub fn read_files(alloc: Global, files: &[Bytes]) -> Result<Read, LinkFault>
    requires count { length files.now ≤ 64 }
    requires small { sum (map length files.now) ≤ 1048576 }
    ensures { ReadAnswers files.now result }
{
    let mut read = Read {
        units: List::new(alloc),
        table: Table::new(alloc),
        spawns: false,
    };
    for i in 0..files.len() {
        match read.add(alloc, files[i].as_slice()) {
            Ok(()) => {}
            Err(fault) => return Err(fault_in(i, fault)),
        }
    }
    Ok(read)
}

/// A fault of a file by its number.
fn fault_in(file: usize, fault: CheckFault) -> LinkFault
    requires { file ≤ 64 }
    ensures { result ≡ in_file file fault }
{
    match fault {
        CheckFault::Refused(rule, place) => LinkFault::Refused(
            rule,
            Spot {
                file: file as u32,
                place,
            },
        ),
        CheckFault::Memory => LinkFault::Memory,
    }
}

impl Read {
    /// Reads a further file.
    fn add(&mut self, alloc: Global, file: &[u8]) -> Result<(), CheckFault>
        requires short { length file.now ≤ 1048576 }
        requires room { self.old.table.lines + spec.lines file.now < 2 ^ 32 }
        ensures { AddAnswers self.old file.now self.new result }
    {
        let own = tokens(alloc, file)?;
        let before = self.table.lines;
        let whole = self.table.add(alloc, own, lines(file))?;
        match read_unit(alloc, &whole) {
            Ok(unit) => {
                let spawns = spawns_in(self.spawns, &unit, whole.list.as_slice());
                self.units.push(unit)?;
                self.spawns = spawns;
                Ok(())
            }
            Err(CheckFault::Refused(rule, at)) => {
                let place = place_in_file(before, whole.list.as_slice(), at);
                Err(CheckFault::Refused(rule, place))
            }
            Err(CheckFault::Memory) => Err(CheckFault::Memory),
        }
    }
}

/// Whether the word `spawn` stands in a component so far, or in the tokens of this unit, where it
/// is one.
fn spawns_in(before: bool, unit: &Unit, tokens: &[Token]) -> bool
    ensures { result ≡ (before || spawns_by unit.now tokens.now) }
{
    match unit {
        Unit::Component(_) => before || has_spawn(tokens),
        Unit::Api(_) => before,
    }
}

/// Where a place of a file's tokens in the whole stands in the file.
fn place_in_file(before: u32, tokens: &[Token], at: Place) -> Place
    ensures { result ≡ units.place_in_file before tokens.now at }
{
    match tokens {
        [] => at,
        [..] => Place {
            line: at.line.saturating_sub(before),
            column: at.column,
        },
    }
}
