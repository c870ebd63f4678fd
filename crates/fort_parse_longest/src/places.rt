ghost use Rattle.std.specs.Prelude.{◌≤◌, length};
ghost use Rattle.fort_parse_longest.specs.Parts.{IsPlaceAt};

use fort_base::Place;
use fort_lex_token::Token;

/// Where a file begins.
const BEGINNING: Place = Place { line: 1, column: 1 };

/// The place of the token with that number, or of the last one where the number is behind all, or
/// the first one of a file where there are none.
pub fn place_at(list: &[Token], at: usize) -> Place
    requires { at ≤ length list.now }
    ensures { IsPlaceAt list.now at result }
{
    match list.get(at) {
        Some(token) => token.place,
        None => last_place(list),
    }
}

/// The place of the last token, or the first one of a file where there are none.
fn last_place(list: &[Token]) -> Place
    ensures { IsPlaceAt list.now (length list.now) result }
{
    match list {
        [.., last] => last.place,
        [] => BEGINNING,
    }
}
