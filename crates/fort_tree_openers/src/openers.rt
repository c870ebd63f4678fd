//! How deep tokens stand.
ghost use Rattle.std.specs.Prelude.{◌≡◌, ◌<◌, MatchOption};
ghost use Rattle.fort_tree.specs.Openers.{AllShallow, FirstDeep, turn, turned, open_round, is_also, mark_turn, word_turn};
ghost use Rattle.fort_tree_openers.specs.Turns.{meaning_of};

use fort_base::Place;
use fort_lex_token::{Kind, Mark, Reserved, Token};

/// How many openers a token may stand inside.
const MOST_OPENERS: u32 = 100;

/// What a token does to the openers round the tokens after it.
#[derive(Clone, Copy)]
enum Change {
    Opens,
    Closes,
    Stays,
}

/// The place of the first token that stands inside more than 100 openers, or `None` where no token
/// does.
///
/// It is what rule 202 of the chapter "Openers, and 202" refuses, whether the tokens have a tree or
/// not.
pub fn first_deep(tokens: &[Token]) -> Option<Place>
    ensures { MatchOption result (AllShallow tokens.now) (λ at. FirstDeep tokens.now at) }
{
    let mut depth = 0;
    let mut behind_also = false;
    for token in tokens {
        let change = turn_of(behind_also, token.kind);
        if round(change, depth) > MOST_OPENERS {
            return Some(token.place);
        }
        depth = behind(change, depth);
        behind_also = is_also(token.kind);
    }
    None
}

fn turn_of(behind_also: bool, kind: Kind) -> Change
    ensures { meaning_of result ≡ turn behind_also kind }
{
    match kind {
        Kind::Word(word) => turn_of_word(behind_also, word),
        Kind::Mark(mark) => turn_of_mark(mark),
        _ => Change::Stays,
    }
}

fn turn_of_word(behind_also: bool, word: Reserved) -> Change
    ensures { meaning_of result ≡ word_turn behind_also word }
{
    match word {
        Reserved::Component | Reserved::Trait | Reserved::Object => Change::Opens,
        Reserved::If | Reserved::Case | Reserved::Typecase | Reserved::Try => Change::Opens,
        Reserved::Do => {
            if behind_also {
                Change::Stays
            } else {
                Change::Opens
            }
        }
        Reserved::End => Change::Closes,
        _ => Change::Stays,
    }
}

fn turn_of_mark(mark: Mark) -> Change
    ensures { meaning_of result ≡ mark_turn mark }
{
    match mark {
        Mark::OpenParen | Mark::OpenBracket | Mark::OpenStatic | Mark::OpenBrace => Change::Opens,
        Mark::CloseParen | Mark::CloseBracket | Mark::CloseStatic | Mark::CloseBrace => {
            Change::Closes
        }
        _ => Change::Stays,
    }
}

fn is_also(kind: Kind) -> bool
    ensures { result ≡ is_also kind }
{
    match kind {
        Kind::Word(Reserved::Also) => true,
        _ => false,
    }
}

/// How many openers a token stands inside, of which so many are open behind the token before it.
fn round(change: Change, depth: u32) -> u32
    ensures { result ≡ open_round (meaning_of change) depth }
{
    match change {
        Change::Opens | Change::Stays => depth,
        Change::Closes => depth.saturating_sub(1),
    }
}

/// How many openers are open behind a token.
fn behind(change: Change, so_far: u32) -> u32
    requires { so_far < 1000 }
    ensures { result ≡ turned (meaning_of change) so_far }
{
    match change {
        Change::Opens => so_far + 1,
        Change::Closes => so_far.saturating_sub(1),
        Change::Stays => so_far,
    }
}
