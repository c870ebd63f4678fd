ghost use Rattle.std.specs.Prelude.{◌≡◌, ◌++◌, decimal, IfOk, OnOk};
ghost use Rattle.fort_diag.specs.Notes as notes;

use fort_base::{Bytes, List, Memory, Place, Rule};
use fort_core::{Program, Value};
use fort_value::text;
use itoa::Buffer;
use std::alloc::Global;

/// What the words may be. It stands in one line.
const USAGE: &str = "usage: fortress check FILE | show FILE \
    | run FILE [--workers N] [--fuel N] | bench N \
    | record FILE [--workers N] [--fuel N] | audit FILE RECORD \
    | link FILE... [--workers N] [--fuel N]\n";

/// The note of a refusal: the file's name as it was given, the place, and the rule with its name.
/// It ends with a line feed. The chapter "Statuses and notes".
///
/// # Errors
///
/// `Memory` where memory is wanting.
pub fn refused(file: Bytes, rule: Rule, place: Place) -> Result<Bytes, Memory>
    ensures { IfOk result (λ note. note ≡ notes.refusal file rule place) }
{
    let mut note = file;
    note.push_slice(b":")?;
    push_decimal(&mut note, place.line)?;
    note.push_slice(b":")?;
    push_decimal(&mut note, place.column)?;
    note.push_slice(b": rule ")?;
    push_decimal(&mut note, u32::from(rule.0))?;
    note.push_slice(b" ")?;
    note.push_slice(rule.name())?;
    note.push_slice(b"\n")?;
    Ok(note)
}

/// The note of an exception that nothing caught: its text is the name of its type. It ends with a
/// line feed. The chapter "Statuses and notes".
///
/// # Errors
///
/// `Memory` where memory is wanting.
pub fn uncaught(alloc: Global, program: &Program, value: &Value) -> Result<Bytes, Memory>
    ensures { IfOk result (λ note. note ≡ notes.uncaught program.now value.now) }
{
    let name = text(alloc, program, value)?;
    let mut note = List::from_slice(alloc, b"uncaught exception ")?;
    note.push_slice(name.as_slice())?;
    note.push_slice(b"\n")?;
    Ok(note)
}

/// The note of a status that always has the same one, 2, 3, 4, 6, 7 or 8, with its line feed; the
/// empty text for every other status. It takes no memory. The chapter "Statuses and notes".
pub fn fixed(status: u8) -> &'static str
    ensures { result.now ≡ notes.fixed status }
{
    match status {
        2 => USAGE,
        3 => "read fault\n",
        4 => "write fault\n",
        6 => "out of fuel\n",
        7 => "want of memory\n",
        8 => "file too large\n",
        _ => "",
    }
}

/// Puts a number at the end, in decimal.
fn push_decimal(note: &mut Bytes, number: u32) -> Result<(), Memory>
    ensures { OnOk result (note.new ≡ note.old ++ decimal number) }
{
    let mut buffer = Buffer::new();
    note.push_slice(buffer.format(number).as_bytes())
}
