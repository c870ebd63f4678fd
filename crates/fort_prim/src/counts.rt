//! Ranges, and how many characters a text has.
ghost use Rattle.std.specs.Prelude.{◌≡◌, ◌==◌, ◌-◌, length, chars, if◌then◌else◌};
ghost use Rattle.std.specs.Str.{continuation_len};
ghost use Rattle.fort_machine.specs.Primitives.{count_to as count_to_of, counted as counted_of, gives, throws};
ghost use Rattle.fort_prim.specs.Answers.{Replies};

use crate::answer::Answer;
use fort_core::{Program, Value};

/// How many numbers there are from `a` to `b`: none where `b` is below `a`. The chapter "Built-in
/// declarations".
pub fn count_to(a: i32, b: i32) -> u64
    ensures { result ≡ count_to_of a b }
{
    if b < a {
        0
    } else {
        u64::from(b.abs_diff(a)) + 1
    }
}

/// `a # n`: the range of n numbers from a on, none where n is below 1; where the last one isn't a
/// ZZ32 the throw of `IntegerOverflow`. The chapter "Built-in declarations".
pub fn counted(program: &Program, a: i32, n: i32) -> Answer
    ensures { Replies result (counted_of program.now a n) }
{
    if n < 1 {
        return Answer::Value(Value::Range(a, 0));
    }
    match a.checked_add(n - 1) {
        Some(_) => Answer::Value(Value::Range(a, u64::from(n.unsigned_abs()))),
        None => Answer::Throws(program.built_in.integer_overflow),
    }
}

/// How many characters a text has; of bytes that aren't UTF-8, how many first bytes have all the
/// bytes that belong to them. It takes the time of its bytes. The chapter "Built-in declarations".
pub fn length_of(text: &[u8]) -> usize
    ensures { result ≡ length (chars text.now) }
{
    let mut count = 0;
    let mut missing = 0;
    for byte in text {
        missing = missing_behind(missing, *byte);
        if missing == 0 {
            count += 1;
        }
    }
    count
}

// How many bytes of a character are still missing behind a byte, by how many were before it.
fn missing_behind(missing: u8, byte: u8) -> u8
    ensures { result ≡ (if missing == 0 then continuation_len byte else missing - 1) }
{
    if missing == 0 {
        bytes_behind(byte)
    } else {
        missing - 1
    }
}

// How many bytes of a character stand behind its first one.
fn bytes_behind(first: u8) -> u8
    ensures { result ≡ continuation_len first }
{
    if first < 128 {
        0
    } else if first < 224 {
        1
    } else if first < 240 {
        2
    } else {
        3
    }
}
