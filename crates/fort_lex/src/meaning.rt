ghost use Rattle.std.specs.Prelude.{◌≡◌, true, encode_utf8_all, get_or};
ghost use Rattle.std.proofs.Math.Utf8.{scalars};
ghost use Rattle.fort_lex_scan.specs.Lists.{every};
ghost use Rattle.fort_lex.specs.Spellings.{is_small, is_capital, is_capital_or_bar, has_other, has_operator_form};
ghost use Rattle.fort_lex.specs.Meanings.{meaning_of};

use crate::marks::mark_named;
use crate::reserved::reserved_named;
use fort_lex_token::{Mark, Reserved};
use fort_ops::{Op, spelling_of};

/// What a word that is neither a number nor a text stands for.
#[derive(Clone, Copy, Debug, PartialEq, Eq)]
pub enum Meaning {
    Word(Reserved),
    Mark(Mark),
    Op(Op),
    OperatorWord,
    Name,
}

fn is_capital(c: char) -> bool
    ensures { result ≡ is_capital c }
{
    c >= 'A' && c <= 'Z'
}

fn is_capital_or_bar(c: char) -> bool
    ensures { result ≡ is_capital_or_bar c }
{
    is_capital(c) || c == '_'
}

fn all_capitals_or_bars(word: &[char]) -> bool
    ensures { result ≡ every is_capital_or_bar word.now }
{
    for i in 0..word.len() {
        if !is_capital_or_bar(word[i]) {
            return false;
        }
    }
    true
}

fn has_other(letter: char, word: &[char]) -> bool
    ensures { result ≡ has_other letter word.now }
{
    for i in 0..word.len() {
        let c = word[i];
        if is_capital(c) && c != letter {
            return true;
        }
    }
    false
}

/// Whether a name has the form of an operator word: ASCII capitals with `_` only inside, two of
/// them different.
fn has_operator_form(word: &[char]) -> bool
    ensures { result ≡ has_operator_form word.now }
{
    if word.is_empty() {
        return false;
    }
    let first = word[0];
    all_capitals_or_bars(word)
        && is_capital(first)
        && is_capital(word[word.len() - 1])
        && has_other(first, word)
}

/// Whether a word begins with a small ASCII letter, as no operator and no symbol does.
fn begins_small(word: &[char]) -> bool
    ensures { result ≡ is_small (get_or word.now 0 0) }
{
    match word {
        ['a'..='z', ..] => true,
        _ => false,
    }
}

/// What a word stands for, given its characters and the same as UTF-8.
pub fn meaning_of(word: &[char], text: &str) -> Meaning
    requires same { text.now ≡ encode_utf8_all word.now }
    requires scalars { scalars word.now ≡ true }
    ensures { result ≡ meaning_of word.now }
{
    if let Some(reserved) = reserved_named(word) {
        return Meaning::Word(reserved);
    }
    if begins_small(word) {
        return Meaning::Name;
    }
    if let Some(mark) = mark_named(word) {
        return Meaning::Mark(mark);
    }
    if let Some(op) = spelling_of(text) {
        return Meaning::Op(op);
    }
    if has_operator_form(word) {
        Meaning::OperatorWord
    } else {
        Meaning::Name
    }
}
