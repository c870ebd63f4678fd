//! Records are written.
ghost use Rattle.std.specs.Prelude.{◌≡◌, ◌<◌, ◌^◌, [], ◌∷◌, ◌++◌, codes, decimal, IfOk, OnOk};
ghost use Rattle.fort_base.specs.declared.ids.Loc.{Loc as LocOf};
ghost use Rattle.fort_base.specs.declared.ids.TypeId.{TypeId};
ghost use Rattle.fort_audit_record.specs.Text.{ending_text, further, path_text, pick_text, picks_text, record_text, thrown_text};
ghost use Rattle.fort_audit_record.specs.Text.{FitEnding, FitPath, FitPick, FitPicks, HasText, IsRecordText, IsThrown};
ghost use Rattle.fort_core.specs.declared.value.Value.{Object, out-Value};

use fort_base::{Bytes, List, Memory};
use fort_core::{Ending, Journal, Path, Pick, Value};
use itoa::Buffer;
use std::alloc::Global;

/// The text of a journal and an output, in bytes. It is that of a record where the journal has an
/// ending, and one that is uncaught has an object that was thrown, as those of runs have; so it is
/// read back as this journal and this output. The chapter "The text of a record".
///
/// # Errors
///
/// `Memory` where memory is wanting.
pub fn record_of(alloc: Global, journal: &Journal, output: &Bytes) -> Result<Bytes, Memory>
    ensures is_text { IfOk result (λ text. text ≡ record_text journal.now output.now) }
    ensures is_record { IfOk result (λ text. HasText journal.now.ending
        → IsRecordText text journal.now output.now) }
{
    let mut out = List::new(alloc);
    out.push_slice(b"fortress record 1\nfuel ")?;
    write_number(journal.fuel, &mut out)?;
    out.push(b'\n')?;
    write_picks(alloc, journal.picks.as_slice(), &mut out)?;
    write_ending(alloc, &journal.ending, &mut out)?;
    out.push_slice(b"output ")?;
    write_number(output.len() as u64, &mut out)?;
    out.push(b'\n')?;
    out.push_slice(output.as_slice())?;
    Ok(out)
}

fn write_ending(alloc: Global, ending: &Ending, out: &mut Bytes) -> Result<(), Memory>
    ensures text { OnOk result (out.new ≡ out.old ++ ending_text ending.now) }
    ensures fits { OnOk result (HasText ending.now → FitEnding ending.now) }
{
    match ending {
        Ending::NotRun => Ok(()),
        Ending::Completed => out.push_slice(b"completed\n"),
        Ending::Uncaught(value) => write_thrown(value, out),
        Ending::OutOfFuel(pick) => {
            out.push_slice(b"out\n")?;
            write_pick(alloc, pick, out)
        }
    }
}

fn write_thrown(value: &Value, out: &mut Bytes) -> Result<(), Memory>
    ensures text { OnOk result (out.new ≡ out.old ++ thrown_text (out-Value value.now)) }
    ensures fits { OnOk result ((id : TypeId) → (loc : LocOf) → value.now ≡ Object id loc
        → IsThrown value.now) }
{
    match value {
        Value::Object(id, loc) => {
            out.push_slice(b"uncaught ")?;
            write_number(id.0 as u64, out)?;
            out.push(b' ')?;
            write_number(loc.0, out)?;
            out.push(b'\n')
        }
        _ => Ok(()),
    }
}

#[tactic(auto, using(crate::proofs::Texts::fits_step, crate::proofs::Texts::fits_attempt, crate::proofs::Texts::attempt_written))]
fn write_pick(alloc: Global, pick: &Pick, out: &mut Bytes) -> Result<(), Memory>
    ensures text { OnOk result (out.new ≡ out.old ++ pick_text pick.now) }
    ensures fits { OnOk result (FitPick pick.now) }
{
    match pick {
        Pick::Step(path, loc) => write_step(path, loc.0, out),
        Pick::Attempt(path, inner) => {
            write_head(path, out)?;
            write_picks(alloc, inner.as_slice(), out)?;
            out.push_slice(b"z\n")
        }
    }
}

// Picks with those inside them, by a loop with a stack of its own.
fn write_picks(alloc: Global, picks: &[Pick], out: &mut Bytes) -> Result<(), Memory>
    ensures text { OnOk result (out.new ≡ out.old ++ picks_text picks.now) }
    ensures fits { OnOk result (FitPicks picks.now) }
{
    let mut waiting: List<&[Pick]> = List::new(alloc);
    let mut rest = picks;
    'picks: loop {
        match rest.split_first() {
            Some((pick, more)) => match pick {
                Pick::Step(path, loc) => {
                    write_step(path, loc.0, out)?;
                    rest = more;
                }
                Pick::Attempt(path, inner) => {
                    write_head(path, out)?;
                    waiting.push(more)?;
                    rest = inner.as_slice();
                }
            },
            None => match waiting.pop() {
                None => return Ok(()),
                Some(more) => {
                    out.push_slice(b"z\n")?;
                    rest = more;
                }
            },
        }
    }
}

fn write_step(path: &Path, loc: u64, out: &mut Bytes) -> Result<(), Memory>
    ensures text { OnOk result (out.new
        ≡ out.old
        ++ (codes "s " ++ (path_text path.now.0 ++ (32 ∷ (decimal loc ++ 10 ∷ []))))) }
    ensures path { OnOk result (FitPath path.now.0) }
    ensures location { loc < 2 ^ 64 }
{
    out.push_slice(b"s ")?;
    write_path(path, out)?;
    out.push(b' ')?;
    write_number(loc, out)?;
    out.push(b'\n')
}

// The line with which an attempt begins.
fn write_head(path: &Path, out: &mut Bytes) -> Result<(), Memory>
    ensures text { OnOk result (out.new
        ≡ out.old ++ (codes "a " ++ (path_text path.now.0 ++ 10 ∷ []))) }
    ensures path { OnOk result (FitPath path.now.0) }
{
    out.push_slice(b"a ")?;
    write_path(path, out)?;
    out.push(b'\n')
}

fn write_path(path: &Path, out: &mut Bytes) -> Result<(), Memory>
    ensures text { OnOk result (out.new ≡ out.old ++ path_text path.now.0) }
    ensures fits { OnOk result (FitPath path.now.0) }
{
    match path.0.as_slice().split_first() {
        None => out.push(b'-'),
        Some((first, more)) => {
            write_number(*first as u64, out)?;
            write_further(more, out)
        }
    }
}

fn write_further(numbers: &[u32], out: &mut Bytes) -> Result<(), Memory>
    ensures text { OnOk result (out.new ≡ out.old ++ further numbers.now) }
    ensures fits { OnOk result (FitPath numbers.now) }
{
    let mut rest = numbers;
    'numbers: while let Some((number, more)) = rest.split_first() {
        out.push(b'.')?;
        write_number(*number as u64, out)?;
        rest = more;
    }
    Ok(())
}

fn write_number(number: u64, out: &mut Bytes) -> Result<(), Memory>
    ensures { OnOk result (out.new ≡ out.old ++ decimal number) }
{
    let mut buffer = Buffer::new();
    out.push_slice(buffer.format(number).as_bytes())
}
