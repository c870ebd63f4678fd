//! The text of a value, written into one buffer.
ghost use Rattle.std.specs.Prelude.{◌≡◌, ◌==◌, [], ◌++◌, map, slice_get, unwrap_or, codes, decimal, if◌then◌else◌, IfOk, OnOk};
ghost use Rattle.std.specs.Fmt.{signed_decimal};
ghost use Rattle.fort_machine.specs.Texts.{text as text_of, with_commas};

use fort_base::{Bytes, List, Memory, TypeId};
use fort_core::{Program, Value};
use itoa::Buffer;
use std::alloc::Global;

/// The text of a value, in UTF-8: what `println` prints before its line feed, and what
/// juxtaposition with a text joins.
///
/// Numbers are in decimal, a text is itself, a tuple has its parts in parentheses, a range its
/// first number, `#` and its count, an object the name of its type, an array its size alone, and a
/// function is `function`. The chapter "Values".
///
/// # Errors
///
/// `Memory` where memory is wanting.
pub fn text(alloc: Global, program: &Program, value: &Value) -> Result<Bytes, Memory>
    ensures { IfOk result (λ bytes. bytes ≡ text_of program.now value.now) }
{
    let mut out = List::new(alloc);
    write(program, value, &mut out)?;
    Ok(out)
}

#[cycle(write)]
fn write(program: &Program, value: &Value, out: &mut Bytes) -> Result<(), Memory>
    ensures { OnOk result (out.new ≡ out.old ++ text_of program.now value.now) }
{
    match value {
        Value::Small(number) => write_number(i64::from(*number), out),
        Value::Large(number) => write_number(*number, out),
        Value::Truth(truth) => write_truth(*truth, out),
        Value::Text(text) => out.push_slice(text.get().as_slice()),
        Value::Tuple(parts) => write_tuple(program, parts.get(), out),
        Value::Range(first, count) => write_range(*first, *count, out),
        Value::Object(ty, _) => write_name(program, *ty, out),
        Value::Array(_, _, size) => write_array(*size, out),
        Value::Function(_) => out.push_slice(b"function"),
    }
}

#[cycle(write)]
fn write_tuple(program: &Program, parts: &List<Value>, out: &mut Bytes) -> Result<(), Memory>
    ensures { OnOk result (out.new
        ≡ out.old
        ++ (codes "(" ++ (with_commas (map (text_of program.now) parts.now) ++ codes ")"))) }
{
    out.push(b'(')?;
    write_parts(program, parts, out)?;
    out.push(b')')
}

#[cycle(write)]
fn write_parts(program: &Program, parts: &List<Value>, out: &mut Bytes) -> Result<(), Memory>
    ensures { OnOk result (out.new ≡ out.old ++ with_commas (map (text_of program.now) parts.now)) }
{
    let values = parts.as_slice();
    for i in 0..values.len() {
        write_comma(i, out)?;
        write(program, &values[i], out)?;
    }
    Ok(())
}

// What stands before a part: nothing before the first.
fn write_comma(at: usize, out: &mut Bytes) -> Result<(), Memory>
    ensures { OnOk result (out.new ≡ out.old ++ (if at == 0 then [] else codes ", ")) }
{
    if at == 0 {
        Ok(())
    } else {
        out.push_slice(b", ")
    }
}

fn write_number(number: i64, out: &mut Bytes) -> Result<(), Memory>
    ensures { OnOk result (out.new ≡ out.old ++ signed_decimal number) }
{
    let mut buffer = Buffer::new();
    out.push_slice(buffer.format(number).as_bytes())
}

fn write_count(count: u64, out: &mut Bytes) -> Result<(), Memory>
    ensures { OnOk result (out.new ≡ out.old ++ decimal count) }
{
    let mut buffer = Buffer::new();
    out.push_slice(buffer.format(count).as_bytes())
}

fn write_truth(truth: bool, out: &mut Bytes) -> Result<(), Memory>
    ensures { OnOk result (out.new ≡ out.old ++ (if truth then codes "true" else codes "false")) }
{
    if truth {
        out.push_slice(b"true")
    } else {
        out.push_slice(b"false")
    }
}

fn write_range(first: i32, count: u64, out: &mut Bytes) -> Result<(), Memory>
    ensures { OnOk result (out.new
        ≡ out.old ++ (signed_decimal first ++ (codes "#" ++ decimal count))) }
{
    write_number(i64::from(first), out)?;
    out.push(b'#')?;
    write_count(count, out)
}

fn write_name(program: &Program, ty: TypeId, out: &mut Bytes) -> Result<(), Memory>
    ensures { OnOk result (out.new
        ≡ out.old ++ unwrap_or (slice_get program.now.type_names ty.0) []) }
{
    match program.type_names.get(ty.0 as usize) {
        Some(name) => out.push_slice(name.as_slice()),
        None => Ok(()),
    }
}

fn write_array(size: u64, out: &mut Bytes) -> Result<(), Memory>
    ensures { OnOk result (out.new ≡ out.old ++ (codes "array of " ++ decimal size)) }
{
    out.push_slice(b"array of ")?;
    write_count(size, out)
}
