ghost use Rattle.std.specs.Prelude.{◌≡◌};
ghost use Rattle.fort_lex.specs.Spellings.{word_ascii, word_sign, spells_word, reserved_in, reserved_named};

use crate::text::{is_ascii, is_sign};
use fort_lex_token::Reserved;

/// Every reserved word.
pub const WORDS: [Reserved; 39] = [
    Reserved::Component,
    Reserved::Export,
    Reserved::Import,
    Reserved::Api,
    Reserved::End,
    Reserved::Trait,
    Reserved::Object,
    Reserved::Extends,
    Reserved::Excludes,
    Reserved::Comprises,
    Reserved::Opr,
    Reserved::Self_,
    Reserved::Var,
    Reserved::Do,
    Reserved::Also,
    Reserved::If,
    Reserved::Then,
    Reserved::Elif,
    Reserved::Else,
    Reserved::While,
    Reserved::For,
    Reserved::Seq,
    Reserved::Case,
    Reserved::Typecase,
    Reserved::Of,
    Reserved::Try,
    Reserved::Catch,
    Reserved::Finally,
    Reserved::Throw,
    Reserved::Fn,
    Reserved::Atomic,
    Reserved::Tryatomic,
    Reserved::Spawn,
    Reserved::True,
    Reserved::False,
    Reserved::Array,
    Reserved::Big,
    Reserved::Sum,
    Reserved::Prod,
];

#[inline(always)]
fn ascii(word: Reserved) -> &'static str
    ensures { result.now ≡ word_ascii word }
{
    match word {
        Reserved::Component => "component",
        Reserved::Export => "export",
        Reserved::Import => "import",
        Reserved::Api => "api",
        Reserved::End => "end",
        Reserved::Trait => "trait",
        Reserved::Object => "object",
        Reserved::Extends => "extends",
        Reserved::Excludes => "excludes",
        Reserved::Comprises => "comprises",
        Reserved::Opr => "opr",
        Reserved::Self_ => "self",
        Reserved::Var => "var",
        Reserved::Do => "do",
        Reserved::Also => "also",
        Reserved::If => "if",
        Reserved::Then => "then",
        Reserved::Elif => "elif",
        Reserved::Else => "else",
        Reserved::While => "while",
        Reserved::For => "for",
        Reserved::Seq => "seq",
        Reserved::Case => "case",
        Reserved::Typecase => "typecase",
        Reserved::Of => "of",
        Reserved::Try => "try",
        Reserved::Catch => "catch",
        Reserved::Finally => "finally",
        Reserved::Throw => "throw",
        Reserved::Fn => "fn",
        Reserved::Atomic => "atomic",
        Reserved::Tryatomic => "tryatomic",
        Reserved::Spawn => "spawn",
        Reserved::True => "true",
        Reserved::False => "false",
        Reserved::Array => "array",
        Reserved::Big => "BIG",
        Reserved::Sum => "SUM",
        Reserved::Prod => "PROD",
    }
}

#[inline(always)]
fn sign(word: Reserved) -> Option<char>
    ensures { result ≡ word_sign word }
{
    match word {
        Reserved::Sum => Some('∑'),
        Reserved::Prod => Some('∏'),
        _ => None,
    }
}

#[inline(always)]
fn spells(word: Reserved, text: &[char]) -> bool
    ensures { result ≡ spells_word word text.now }
{
    is_ascii(text, ascii(word)) || is_sign(text, sign(word))
}

/// The first of these reserved words that the characters spell.
fn reserved_in(words: &[Reserved], text: &[char]) -> Option<Reserved>
    ensures { result ≡ reserved_in words.now text.now }
{
    for word in words {
        if spells(*word, text) {
            return Some(*word);
        }
    }
    None
}

/// The reserved word that these characters spell, or `None` where they spell none.
#[tactic(auto, unfolding(crate::specs::Spellings::reserved_named))]
pub fn reserved_named(text: &[char]) -> Option<Reserved>
    ensures { result ≡ reserved_named text.now }
{
    reserved_in(&WORDS, text)
}
