//! How deep the tokens of a unit stand in openers.
ghost use Rattle.std.specs.Prelude.{◌≡◌, map, IfOk, MatchOption};
ghost use Rattle.fort_tree.specs.Openers.{AllShallow, FirstDeep};
ghost use Rattle.fort_link_units.specs.Answer as spec;

use fort_base::{List, Memory, Place};
use fort_lex_token::{Kind, Reserved, Token};
use fort_tree_openers::first_deep;
use std::alloc::Global;

/// Whether a file is an API, by its first token.
pub(crate) fn begins_api(tokens: &[Token]) -> bool
    ensures { result ≡ spec.begins_api tokens.now }
{
    match tokens {
        [first, ..] => is_api(first.kind),
        [] => false,
    }
}

fn is_api(kind: Kind) -> bool
    ensures { result ≡ spec.is_api kind }
{
    matches!(kind, Kind::Word(Reserved::Api))
}

/// A reserved word that is no opener where it is `trait` or `object`.
fn plain_word(word: Reserved) -> Reserved
    ensures { result ≡ spec.plain_word word }
{
    match word {
        Reserved::Trait | Reserved::Object => Reserved::Var,
        _ => word,
    }
}

/// The same of a token.
fn plain(token: Token) -> Token
    ensures { result ≡ spec.plain token }
{
    match token.kind {
        Kind::Word(word) => Token {
            kind: Kind::Word(plain_word(word)),
            ..token
        },
        _ => token,
    }
}

/// The same of tokens.
fn plain_tokens(alloc: Global, tokens: &[Token]) -> Result<List<Token>, Memory>
    ensures { IfOk result (λ found. found ≡ map spec.plain tokens.now) }
{
    let mut found = List::new(alloc);
    for token in tokens {
        found.push(plain(*token))?;
    }
    Ok(found)
}

/// The place of the first token that stands inside more than 100 openers, or `None` where no token
/// does. In an API `trait` and `object` are no openers. The chapter is "Components and APIs".
pub(crate) fn first_deep_in(alloc: Global, tokens: &[Token]) -> Result<Option<Place>, Memory>
    ensures { IfOk result (λ found.
        MatchOption found (AllShallow (spec.opened tokens.now))
        (λ at. FirstDeep (spec.opened tokens.now) at)) }
{
    if begins_api(tokens) {
        let plain = plain_tokens(alloc, tokens)?;
        Ok(first_deep(plain.as_slice()))
    } else {
        Ok(first_deep(tokens))
    }
}
