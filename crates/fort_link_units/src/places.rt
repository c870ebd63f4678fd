//! The places of faults.
ghost use Rattle.std.specs.Prelude.{◌≡◌};
ghost use Rattle.fort_syntax.specs.Answer.{fault_place, last_token, place_or_first};

use fort_base::Place;
use fort_lex_token::Token;

/// Where a file begins.
const BEGINNING: Place = Place { line: 1, column: 1 };

/// The place of a fault, where this token is the next one there: its own, or that of the last token
/// where no more follows.
pub(crate) fn place_of(list: &[Token], next: Option<Token>) -> Place
    ensures { result ≡ fault_place list.now next }
{
    match next {
        Some(token) => token.place,
        None => last_place(list),
    }
}

/// The place of the last token, or the first one of a file where there are none.
fn last_place(list: &[Token]) -> Place
    ensures { result ≡ place_or_first (last_token list.now) }
{
    match list {
        [.., last] => last.place,
        [] => BEGINNING,
    }
}
