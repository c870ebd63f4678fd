ghost use Rattle.std.specs.Prelude.{◌≡◌, Some, None, option_map};
ghost use Rattle.fort_parse_reading.specs.Parser.{next_of};
ghost use Rattle.fort_syntax.specs.Answer.{Answers, Reading, fault_place, last_token, place_or_first};

use fort_base::rules::{SYNTAX, TOO_DEEP, TOO_MANY};
use fort_base::{CheckFault, Place};
use fort_lex_token::{Token, Tokens};
use fort_parse_declarations::{Parsed, whole};
use fort_parse_reading::{Cursor, Fault};
use fort_tree_limits::first_crowded;
use fort_tree_openers::first_deep;
use std::alloc::Global;

/// How many parts may be open in one another before the stack is held to be too small for more.
const MOST_NESTED: usize = 400;

/// Where the file begins.
const BEGINNING: Place = Place { line: 1, column: 1 };

/// The component that a file's tokens are, which has their names and texts too. The chapter is
/// "Grammar".
///
/// It answers `Refused` with 202 and the place of the first token that stands inside more than 100
/// openers; else with 201 where the tokens are no component, at a token up to which none begins, at
/// the last one where they end too early, or at 1:1 where there are none; else with 203 at the
/// earliest place of what passes a limit. Its only other error is want of memory, which it also
/// answers where runs stand more than 400 deep in one another, as they can in the headers of
/// `while` and `for`.
pub fn component(alloc: Global, tokens: &Tokens) -> Result<Parsed, CheckFault>
    ensures { Answers tokens.now result }
{
    if let Some(place) = first_deep(tokens.list.as_slice()) {
        return Err(CheckFault::Refused(TOO_DEEP, place));
    }
    let parsed = read(alloc, tokens)?;
    match first_crowded(&parsed.component) {
        Some(place) => Err(CheckFault::Refused(TOO_MANY, place)),
        None => Ok(parsed),
    }
}

/// The component that the tokens are, limits aside.
fn read(alloc: Global, tokens: &Tokens) -> Result<Parsed, CheckFault>
    ensures { Reading tokens.now result }
{
    let list = tokens.list.as_slice();
    let mut cursor = Cursor::new(list);
    let depth = list.len() + 1;
    let floor = depth.saturating_sub(MOST_NESTED);
    match whole(
        alloc,
        &mut cursor,
        tokens.names.as_slice(),
        tokens.texts.as_slice(),
        depth,
        floor,
    ) {
        Ok(parsed) => Ok(parsed),
        Err(Fault::Memory) => Err(CheckFault::Memory),
        Err(Fault::TooDeep) => unreachable!(),
        Err(Fault::Syntax) => Err(CheckFault::Refused(SYNTAX, place_of(list, cursor.next()))),
    }
}

/// The place of a fault, where this token is the next one there.
fn place_of(list: &[Token], next: Option<Token>) -> Place
    ensures { result ≡ fault_place list.now next }
{
    match next {
        Some(token) => token.place,
        None => last_place(list),
    }
}

/// The place of the last token, or the first one of a file where there are none.
fn last_place(list: &[Token]) -> Place
    ensures { result ≡ place_or_first (last_token list.now) }
{
    match list {
        [.., last] => last.place,
        [] => BEGINNING,
    }
}
