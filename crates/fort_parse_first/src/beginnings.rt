//! The tokens with which parts of an expression begin.
ghost use Rattle.std.specs.Prelude.{◌≡◌};
ghost use Rattle.fort_parse_reading.specs.Words.{is_mark, sees, sees_tight};
ghost use Rattle.fort_parse_types.specs.Types as types;
ghost use Rattle.fort_parse_first.specs.Beginnings as spec;

use fort_lex_token::{Kind, Mark, Reserved, Token};
use fort_ops::Op;
use fort_parse_reading::{is_empty, is_infix, is_line, is_mark, is_word};

fn word_begins_atom(blocks: bool, word: Reserved) -> bool
    ensures { result ≡ spec.word_begins_atom blocks word }
{
    match word {
        Reserved::Do => blocks,
        Reserved::True
        | Reserved::False
        | Reserved::Self_
        | Reserved::Array
        | Reserved::If
        | Reserved::While
        | Reserved::For
        | Reserved::Case
        | Reserved::Typecase
        | Reserved::Try => true,
        _ => false,
    }
}

/// Whether a token begins an atom; `blocks` says whether `do` may.
#[tactic(auto, unfolding(crate::specs::Beginnings::begins_atom))]
pub fn begins_atom(blocks: bool, kind: Kind) -> bool
    ensures { result ≡ spec.begins_atom blocks kind }
{
    match kind {
        Kind::Word(word) => word_begins_atom(blocks, word),
        Kind::Name(_) | Kind::Number(_) | Kind::Text(_) => true,
        Kind::Op(_) => false,
        Kind::Mark(mark) => matches!(mark, Mark::OpenParen),
    }
}

/// Whether a token begins a postfix.
#[tactic(auto, unfolding(crate::specs::Beginnings::begins_postfix))]
pub fn begins_postfix(kind: Kind) -> bool
    ensures { result ≡ spec.begins_postfix kind }
{
    matches!(
        kind,
        Kind::Op(Op::Power) | Kind::Mark(Mark::OpenBracket | Mark::Dot)
    )
}

/// Whether the next token begins a further part of a run.
#[tactic(auto, unfolding(crate::specs::Beginnings::begins_run_part))]
pub fn begins_run_part(blocks: bool, next: Option<Token>) -> bool
    ensures { result ≡ spec.begins_run_part blocks next }
{
    match next {
        Some(token) => {
            is_empty(token.gap) && (begins_atom(blocks, token.kind) || begins_postfix(token.kind))
        }
        None => false,
    }
}

/// Whether a token is a prefix operator.
#[tactic(auto, unfolding(crate::specs::Beginnings::is_prefix))]
pub fn is_prefix(kind: Kind) -> bool
    ensures { result ≡ spec.is_prefix kind }
{
    matches!(kind, Kind::Op(Op::Minus | Op::Not))
}

/// Whether a token begins a unit.
#[tactic(auto, unfolding(crate::specs::Beginnings::begins_unit))]
pub fn begins_unit(blocks: bool, kind: Kind) -> bool
    ensures { result ≡ spec.begins_unit blocks kind }
{
    begins_atom(blocks, kind) || is_prefix(kind)
}

/// Whether a token is an infix operator.
#[tactic(auto, unfolding(crate::specs::Beginnings::is_infix_kind))]
pub fn is_infix_kind(kind: Kind) -> bool
    ensures { result ≡ spec.is_infix_kind kind }
{
    match kind {
        Kind::Op(op) => is_infix(op),
        _ => false,
    }
}

/// Whether the next token begins a further part of a flat expression; `lines` says whether it may
/// stand on a new line, `blocks` whether `do` may begin an atom.
#[tactic(auto, unfolding(crate::specs::Beginnings::begins_flat_part))]
pub fn begins_flat_part(lines: bool, blocks: bool, next: Option<Token>) -> bool
    ensures { result ≡ spec.begins_flat_part (record { lines = lines; blocks = blocks }) next }
{
    match next {
        Some(token) => {
            (lines || !is_line(token.gap))
                && (is_infix_kind(token.kind)
                    || (!is_empty(token.gap) && begins_atom(blocks, token.kind)))
        }
        None => false,
    }
}

fn word_begins_head(word: Reserved) -> bool
    ensures { result ≡ spec.word_begins_head word }
{
    matches!(
        word,
        Reserved::Atomic
            | Reserved::Tryatomic
            | Reserved::Throw
            | Reserved::Spawn
            | Reserved::Fn
            | Reserved::Sum
            | Reserved::Prod
            | Reserved::Big
    )
}

/// Whether a token begins a head.
#[tactic(auto, unfolding(crate::specs::Beginnings::begins_head))]
pub fn begins_head(kind: Kind) -> bool
    ensures { result ≡ spec.begins_head kind }
{
    match kind {
        Kind::Word(word) => word_begins_head(word),
        _ => false,
    }
}

/// Whether a token is the sign of an assignment.
#[tactic(auto, unfolding(crate::specs::Beginnings::assigns))]
pub fn assigns(kind: Kind) -> bool
    ensures { result ≡ spec.assigns kind }
{
    matches!(
        kind,
        Kind::Mark(Mark::Becomes | Mark::AddBecomes | Mark::SubtractBecomes)
    )
}

/// Whether a token begins an expression.
#[tactic(auto, unfolding(crate::specs::Beginnings::begins_expr))]
pub fn begins_expr(kind: Kind) -> bool
    ensures { result ≡ spec.begins_expr kind }
{
    begins_unit(true, kind) || begins_head(kind)
}

#[tactic(auto, unfolding(crate::specs::Beginnings::begins_item_kind))]
fn begins_item_kind(kind: Kind) -> bool
    ensures { result ≡ spec.begins_item_kind kind }
{
    match kind {
        Kind::Word(Reserved::Var) => true,
        Kind::Word(word) => word_begins_head(word) || word_begins_atom(true, word),
        _ => begins_expr(kind),
    }
}

/// Whether the next token begins a further item of a block: behind a `;`, which `ready` says, or on
/// a new line.
#[tactic(auto, unfolding(crate::specs::Beginnings::begins_item, crate::specs::Beginnings::begins_apart_of))]
pub fn begins_item(ready: bool, next: Option<Token>) -> bool
    ensures { result ≡ spec.begins_item ready next }
{
    match next {
        Some(token) => (ready || is_line(token.gap)) && begins_item_kind(token.kind),
        None => false,
    }
}

/// Whether the next token begins a further clause of a `case`, as an item of a block does.
#[tactic(auto, unfolding(crate::specs::Beginnings::begins_case_clause, crate::specs::Beginnings::begins_apart_of))]
pub fn begins_case_clause(ready: bool, next: Option<Token>) -> bool
    ensures { result ≡ spec.begins_case_clause ready next }
{
    match next {
        Some(token) => (ready || is_line(token.gap)) && begins_unit(true, token.kind),
        None => false,
    }
}

#[tactic(auto, unfolding(fort_parse_types::specs::Types::begins_type))]
fn begins_type(kind: Kind) -> bool
    ensures { result ≡ types.begins_type kind }
{
    matches!(kind, Kind::Name(_) | Kind::Mark(Mark::OpenParen))
}

/// Whether the next token begins a further clause of types, as an item of a block does.
#[tactic(auto, unfolding(crate::specs::Beginnings::begins_type_clause, crate::specs::Beginnings::begins_apart_of))]
pub fn begins_type_clause(ready: bool, next: Option<Token>) -> bool
    ensures { result ≡ spec.begins_type_clause ready next }
{
    match next {
        Some(token) => (ready || is_line(token.gap)) && begins_type(token.kind),
        None => false,
    }
}

/// Whether the next token begins the `else` of a clause list, as an item of a block does.
#[tactic(auto, unfolding(crate::specs::Beginnings::begins_else, crate::specs::Beginnings::begins_apart_of))]
pub fn begins_else(ready: bool, next: Option<Token>) -> bool
    ensures { result ≡ spec.begins_else ready next }
{
    match next {
        Some(token) => (ready || is_line(token.gap)) && is_word(Reserved::Else, token.kind),
        None => false,
    }
}

/// Whether no gap stands before the next token.
#[tactic(auto, unfolding(crate::specs::Beginnings::is_next_tight))]
pub fn is_next_tight(next: Option<Token>) -> bool
    ensures { result ≡ spec.is_next_tight next }
{
    match next {
        Some(token) => is_empty(token.gap),
        None => false,
    }
}

/// Whether the next token is a `(` with no gap before it: behind the name of a postfix it begins
/// the arguments of a method.
#[tactic(auto, unfolding(fort_parse_reading::specs::Words::sees_tight))]
pub fn sees_arguments(next: Option<Token>) -> bool
    ensures { result ≡ sees_tight (is_mark Mark.OpenParen) next }
{
    match next {
        Some(token) => is_empty(token.gap) && is_mark(Mark::OpenParen, token.kind),
        None => false,
    }
}

/// Whether the next token is a prefix operator.
#[tactic(auto, unfolding(fort_parse_reading::specs::Words::sees))]
pub fn sees_prefix(next: Option<Token>) -> bool
    ensures { result ≡ sees spec.is_prefix next }
{
    match next {
        Some(token) => is_prefix(token.kind),
        None => false,
    }
}

/// Whether the next token is an infix operator.
#[tactic(auto, unfolding(fort_parse_reading::specs::Words::sees))]
pub fn sees_infix(next: Option<Token>) -> bool
    ensures { result ≡ sees spec.is_infix_kind next }
{
    match next {
        Some(token) => is_infix_kind(token.kind),
        None => false,
    }
}

/// Whether the next token begins a head.
#[tactic(auto, unfolding(fort_parse_reading::specs::Words::sees))]
pub fn sees_head(next: Option<Token>) -> bool
    ensures { result ≡ sees spec.begins_head next }
{
    match next {
        Some(token) => begins_head(token.kind),
        None => false,
    }
}

/// Whether the next token is the sign of an assignment.
#[tactic(auto, unfolding(fort_parse_reading::specs::Words::sees))]
pub fn sees_assign(next: Option<Token>) -> bool
    ensures { result ≡ sees spec.assigns next }
{
    match next {
        Some(token) => assigns(token.kind),
        None => false,
    }
}

/// Whether the next token begins a postfix.
#[tactic(auto, unfolding(fort_parse_reading::specs::Words::sees))]
pub fn sees_postfix(next: Option<Token>) -> bool
    ensures { result ≡ sees spec.begins_postfix next }
{
    match next {
        Some(token) => begins_postfix(token.kind),
        None => false,
    }
}
