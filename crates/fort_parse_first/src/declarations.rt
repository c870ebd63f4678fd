//! The tokens with which declarations and members begin, and those before which a method ends
//! without a body.
ghost use Rattle.std.specs.Prelude.{◌≡◌};
ghost use Rattle.fort_parse_reading.specs.Words.{is_eq, sees};
ghost use Rattle.fort_parse_first.specs.Declarations as spec;

use fort_lex_token::{Kind, Reserved, Token};
use fort_parse_reading::{is_eq, is_line};

#[tactic(auto, unfolding(crate::specs::Declarations::begins_trait_member))]
fn begins_trait_member(kind: Kind) -> bool
    ensures { result ≡ spec.begins_trait_member kind }
{
    matches!(kind, Kind::Name(_) | Kind::Word(Reserved::Opr))
}

/// Whether the next token begins a further member of a trait: behind a `;`, which `ready` says, or
/// on a new line.
#[tactic(auto, unfolding(crate::specs::Declarations::begins_trait_entry, crate::specs::Beginnings::begins_apart_of))]
pub fn begins_trait_entry(ready: bool, next: Option<Token>) -> bool
    ensures { result ≡ spec.begins_trait_entry ready next }
{
    match next {
        Some(token) => (ready || is_line(token.gap)) && begins_trait_member(token.kind),
        None => false,
    }
}

#[tactic(auto, unfolding(crate::specs::Declarations::begins_object_member))]
fn begins_object_member(kind: Kind) -> bool
    ensures { result ≡ spec.begins_object_member kind }
{
    matches!(
        kind,
        Kind::Name(_) | Kind::Word(Reserved::Opr | Reserved::Var)
    )
}

/// Whether the next token begins a further member of an object, as one of a trait does.
#[tactic(auto, unfolding(crate::specs::Declarations::begins_object_entry, crate::specs::Beginnings::begins_apart_of))]
pub fn begins_object_entry(ready: bool, next: Option<Token>) -> bool
    ensures { result ≡ spec.begins_object_entry ready next }
{
    match next {
        Some(token) => (ready || is_line(token.gap)) && begins_object_member(token.kind),
        None => false,
    }
}

#[tactic(auto, unfolding(crate::specs::Declarations::begins_declaration_kind))]
fn begins_declaration_kind(kind: Kind) -> bool
    ensures { result ≡ spec.begins_declaration_kind kind }
{
    matches!(
        kind,
        Kind::Name(_)
            | Kind::Word(Reserved::Opr | Reserved::Var | Reserved::Trait | Reserved::Object)
    )
}

/// Whether the next token begins a further declaration, as a member of a trait does.
#[tactic(auto, unfolding(crate::specs::Declarations::begins_declared, crate::specs::Beginnings::begins_apart_of))]
pub fn begins_declared(ready: bool, next: Option<Token>) -> bool
    ensures { result ≡ spec.begins_declared ready next }
{
    match next {
        Some(token) => (ready || is_line(token.gap)) && begins_declaration_kind(token.kind),
        None => false,
    }
}

/// Whether the next token is a `=`.
#[tactic(auto, unfolding(fort_parse_reading::specs::Words::sees))]
fn sees_equals(next: Option<Token>) -> bool
    ensures { result ≡ sees is_eq next }
{
    match next {
        Some(token) => is_eq(token.kind),
        None => false,
    }
}

/// Whether a method ends before this token, without a body; `optional` says whether the body may be
/// left out.
pub fn ends_without_body(optional: bool, next: Option<Token>) -> bool
    ensures { result ≡ spec.ends_without_body optional next }
{
    optional && !sees_equals(next)
}
