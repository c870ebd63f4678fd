ghost use Rattle.std.specs.Prelude.{◌≡◌};
ghost use Rattle.fort_lex.specs.Spellings.{mark_ascii, mark_sign, spells_mark, mark_in, mark_named};

use crate::text::{is_ascii, is_sign};
use fort_lex_token::Mark;

/// Every such symbol.
pub const MARKS: [Mark; 17] = [
    Mark::OpenStatic,
    Mark::CloseStatic,
    Mark::LeftArrow,
    Mark::RightArrow,
    Mark::DoubleArrow,
    Mark::Becomes,
    Mark::AddBecomes,
    Mark::SubtractBecomes,
    Mark::OpenParen,
    Mark::CloseParen,
    Mark::OpenBracket,
    Mark::CloseBracket,
    Mark::OpenBrace,
    Mark::CloseBrace,
    Mark::Comma,
    Mark::Semicolon,
    Mark::Dot,
];

#[inline(always)]
fn ascii(mark: Mark) -> &'static str
    ensures { result.now ≡ mark_ascii mark }
{
    match mark {
        Mark::OpenStatic => "[\\",
        Mark::CloseStatic => "\\]",
        Mark::LeftArrow => "<-",
        Mark::RightArrow => "->",
        Mark::DoubleArrow => "=>",
        Mark::Becomes => ":=",
        Mark::AddBecomes => "+=",
        Mark::SubtractBecomes => "-=",
        Mark::OpenParen => "(",
        Mark::CloseParen => ")",
        Mark::OpenBracket => "[",
        Mark::CloseBracket => "]",
        Mark::OpenBrace => "{",
        Mark::CloseBrace => "}",
        Mark::Comma => ",",
        Mark::Semicolon => ";",
        Mark::Dot => ".",
    }
}

#[inline(always)]
fn sign(mark: Mark) -> Option<char>
    ensures { result ≡ mark_sign mark }
{
    match mark {
        Mark::OpenStatic => Some('⟦'),
        Mark::CloseStatic => Some('⟧'),
        Mark::LeftArrow => Some('←'),
        Mark::RightArrow => Some('→'),
        Mark::DoubleArrow => Some('⇒'),
        _ => None,
    }
}

#[inline(always)]
fn spells(mark: Mark, text: &[char]) -> bool
    ensures { result ≡ spells_mark mark text.now }
{
    is_ascii(text, ascii(mark)) || is_sign(text, sign(mark))
}

/// The first of these symbols that the characters spell.
fn mark_in(marks: &[Mark], text: &[char]) -> Option<Mark>
    ensures { result ≡ mark_in marks.now text.now }
{
    for mark in marks {
        if spells(*mark, text) {
            return Some(*mark);
        }
    }
    None
}

/// The symbol that these characters spell, or `None` where they spell none.
#[tactic(auto, unfolding(crate::specs::Spellings::mark_named))]
pub fn mark_named(text: &[char]) -> Option<Mark>
    ensures { result ≡ mark_named text.now }
{
    mark_in(&MARKS, text)
}
