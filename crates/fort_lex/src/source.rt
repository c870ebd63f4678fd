ghost use Rattle.std.specs.Prelude.{◌≡◌, ◌<◌, ◌≤◌, ◌^◌, true, length, IfOk};
ghost use Rattle.std.specs.Str.{chars};
ghost use Rattle.std.proofs.Math.Utf8.{scalars};
ghost use Rattle.fort_lex_scan.specs.Places.{place_at, place_after, the_start};
ghost use Rattle.fort_lex.specs.Building.{TextAnswers};
ghost use Rattle.fort_lex.specs.Files.{Answers, HasItsNumbers};

use crate::builder::Builder;
use fort_base::rules::{BAD_CHARACTER, NOT_UTF8, TOO_MANY_TOKENS};
use fort_base::{CheckFault, Memory, Place};
use fort_lex_scan::{MOST_TOKENS, Step, mark_len, next_step, place_after};
use fort_lex_token::Tokens;
use std::alloc::{AllocError, Global};

/// The characters of a text.
fn decode(alloc: Global, text: &str) -> Result<Vec<char>, AllocError>
    ensures value { IfOk result (λ v. v.items ≡ chars text.now) }
    ensures short { IfOk result (λ v. length v.items ≤ length text.now) }
{
    let mut out = Vec::with_capacity(alloc, text.len())?;
    for c in text.chars() {
        out.push(c)?;
    }
    Ok(out)
}

/// The place of a character, counted from 0.
fn place_at(text: &[char], at: usize) -> Place
    requires room { length text.now < 2 ^ 31 }
    requires within { at ≤ length text.now }
    ensures { result ≡ place_at text.now at }
{
    place_after(Place { line: 1, column: 1 }, &text[..at])
}

/// The tokens of a text, or the rule of 102 to 107 that it breaks.
fn text_tokens(alloc: Global, text: &[char]) -> Result<Tokens, CheckFault>
    requires short { length text.now < 2 ^ 31 }
    requires scalars { scalars text.now ≡ true }
    ensures { TextAnswers text.now result }
{
    let mut builder = Builder::new(alloc);
    let mut from = 0usize;
    let mut at = mark_len(text);
    loop {
        match next_step(&text[at..]) {
            Step::End => return Ok(builder.finish()),
            Step::Broken(rule, n) => {
                return Err(CheckFault::Refused(rule, place_at(text, at + n)));
            }
            Step::Stuck(gap, word) => {
                if builder.list.len() == MOST_TOKENS {
                    return Err(CheckFault::Refused(TOO_MANY_TOKENS, place_at(text, at + gap)));
                }
                return Err(CheckFault::Refused(BAD_CHARACTER, place_at(text, at + gap + word)));
            }
            Step::Next(gap, word, shape) => {
                let begin = at + gap;
                let end = begin + word;
                if builder.list.len() == MOST_TOKENS {
                    return Err(CheckFault::Refused(TOO_MANY_TOKENS, place_at(text, begin)));
                }
                builder.add(alloc, &text[from..begin], &text[begin..end], shape)?;
                from = end;
                at = end;
            }
        }
    }
}

/// The place of the first character that isn't whole.
fn torn(alloc: Global, front: &str) -> Result<Place, AllocError>
    requires { length front.now < 2 ^ 31 }
    ensures { IfOk result (λ place. place ≡ place_after the_start (chars front.now)) }
{
    let all = decode(alloc, front)?;
    Ok(place_after(Place { line: 1, column: 1 }, &all))
}

/// The tokens of a source file, each with the gap before it and its place.
///
/// `source` is the bytes of the file, at most 1,048,576 of them. `Ok` has the file's one list of
/// tokens, with its names and texts. `Refused` has the rule of 101 to 107 that the file breaks and
/// the rule's place: 101 goes first, then 107, then the one of 102 to 106 at the earliest place.
/// `Memory` says that memory was wanting. The chapter is "Tokens".
pub fn tokens(alloc: Global, source: &[u8]) -> Result<Tokens, CheckFault>
    requires { length source.now ≤ 1048576 }
    ensures answer { Answers source.now result }
    ensures numbers { IfOk result HasItsNumbers }
{
    match str::from_utf8(source) {
        Ok(text) => {
            let all = decode(alloc, text)?;
            text_tokens(alloc, &all)
        }
        Err(e) => match str::from_utf8(&source[..e.valid_up_to()]) {
            Ok(front) => {
                let place = torn(alloc, front)?;
                Err(CheckFault::Refused(NOT_UTF8, place))
            }
            Err(_) => unreachable!(),
        },
    }
}
