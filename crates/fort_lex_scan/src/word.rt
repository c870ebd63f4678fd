ghost use Rattle.std.specs.Prelude.{◌≡◌, ◌==◌, ◌&&◌, not, ◌<◌, ◌≤◌, ◌^◌, ◌+◌, length, drop, take, IfSome, MatchOption, true, false};
ghost use Rattle.std.specs.List.{prefix_len};
ghost use Rattle.std.specs.Char.{is_ascii_digit};
ghost use Rattle.unicode_ident.specs.Ident.{is_xid_start, is_xid_continue};
ghost use Rattle.fort_lex_scan.specs.Lists.{every, is_among};
ghost use Rattle.fort_lex_scan.specs.Spelling.{begins_name, decimal, is_control, singles};
ghost use Rattle.fort_lex_scan.specs.Scan.{text_end};
ghost use Rattle.fort_lex_scan.specs.Tokens.{is_escape};
ghost use Rattle.fort_lex_scan.specs.Words.{symbol_len, text_fault, number_word, text_word, word_of};

use crate::gap::at;
use fort_base::Rule;
use fort_base::rules::{BAD_CHARACTER, BAD_ESCAPE, NUMBER_TOO_LARGE, OPEN_TEXT};
use unicode::properties::GeneralCategory;

pub const MAX_NUMBER: u64 = 9_223_372_036_854_775_807;

/// Whether a name may go on with a character.
pub fn is_name_character(c: char) -> bool
    ensures { result ≡ is_xid_continue c }
{
    unicode_ident::is_xid_continue(c)
}

pub fn begins_name(c: char) -> bool
    ensures { result ≡ begins_name c }
{
    unicode_ident::is_xid_start(c) || c == '_'
}

/// How many characters at the front go on with a name.
pub fn name_len(text: &[char]) -> usize
    ensures value { result ≡ prefix_len is_xid_continue text.now }
    ensures within { result ≤ length text.now }
{
    for i in 0..text.len() {
        if !is_name_character(text[i]) {
            return i;
        }
    }
    text.len()
}

/// How many digits stand at the front.
pub fn digits_len(text: &[char]) -> usize
    ensures value { result ≡ prefix_len is_ascii_digit text.now }
    ensures within { result ≤ length text.now }
    ensures digits { every is_ascii_digit (take result text.now) ≡ true }
{
    for i in 0..text.len() {
        if !text[i].is_ascii_digit() {
            return i;
        }
    }
    text.len()
}

/// The number that the digits write, if it isn't too large.
pub fn number(digits: &[char]) -> Option<u64>
    requires { every is_ascii_digit digits.now ≡ true }
    ensures { MatchOption result (MAX_NUMBER < decimal 0 digits.now)
        (λ n. (n ≡ decimal 0 digits.now) × (n ≤ MAX_NUMBER)) }
{
    let mut n = 0u64;
    for i in 0..digits.len() {
        if n > MAX_NUMBER / 10 {
            return None;
        }
        n = n * 10 + (digits[i] as u64 - '0' as u64);
        if n > MAX_NUMBER {
            return None;
        }
    }
    Some(n)
}

/// How many characters after the opening quote close the text.
pub fn text_end(text: &[char]) -> Option<usize>
    ensures value { result ≡ text_end false text.now }
    ensures within { IfSome result (λ n. n ≤ length text.now) }
{
    let mut escaped = false;
    for i in 0..text.len() {
        let c = text[i];
        if c == '"' && !escaped {
            return Some(i + 1);
        }
        if c == '\n' {
            return None;
        }
        escaped = c == '\\' && !escaped;
    }
    None
}

/// The shape of a word.
#[derive(Clone, Copy, Debug, PartialEq, Eq)]
pub enum Shape {
    /// It has the form of a name, reserved or not.
    Name,
    /// Digits, and the number that they write.
    Number(u64),
    /// A text with its quotes.
    Text,
    /// An operator or another symbol that is no word.
    Symbol,
}

/// What stands at the front of a text.
#[derive(Clone, Copy, Debug, PartialEq, Eq)]
pub enum Read {
    /// A word of so many characters, and its shape.
    Whole(usize, Shape),
    /// A number of so many digits, and directly behind it a name's character.
    Stuck(usize),
    /// The rule that is broken, and how many characters further.
    Fault(Rule, usize),
}

fn is_single(c: char) -> bool
    ensures { result ≡ is_among c singles }
{
    matches!(
        c,
        '(' | ')'
            | ']'
            | '{'
            | '}'
            | ','
            | ';'
            | '.'
            | '#'
            | '^'
            | '×'
            | '·'
            | '≠'
            | '≤'
            | '≥'
            | '≡'
            | '∧'
            | '∨'
            | '¬'
            | '⟦'
            | '⟧'
            | '←'
            | '→'
            | '⇒'
            | '∑'
            | '∏'
    )
}

/// How long the longest symbol at the front is; 0 where there is none.
fn symbol_len(text: &[char]) -> usize
    ensures { result ≡ symbol_len text.now }
{
    match at(text, 0) {
        '<' => match at(text, 1) {
            '=' | '-' => 2,
            _ => 1,
        },
        '=' => match at(text, 1) {
            '=' | '/' => { if at(text, 2) == '=' { 3 } else { 1 } }
            '>' => 2,
            _ => 1,
        },
        '>' | '+' | ':' => { if at(text, 1) == '=' { 2 } else { 1 } }
        '-' => match at(text, 1) {
            '=' | '>' => 2,
            _ => 1,
        },
        '[' => { if at(text, 1) == '\\' { 2 } else { 1 } }
        '\\' => { if at(text, 1) == ']' { 2 } else { 0 } }
        c => { if is_single(c) { 1 } else { 0 } }
    }
}

fn is_escape(text: &[char]) -> bool
    ensures { result ≡ is_escape text.now }
{
    matches!(text, ['n' | 't' | '"' | '\\', ..])
}

fn opens_escape(escaped: bool, c: char) -> bool
    ensures { result ≡ ((c == 92) && not escaped) }
{
    c == '\\' && !escaped
}

fn is_control(c: char) -> bool
    ensures { result ≡ is_control c }
{
    GeneralCategory::for_char(c) == GeneralCategory::Control
}

/// The first fault in a text, behind its opening quote.
fn text_fault(text: &[char]) -> Option<(Rule, usize)>
    ensures value { result ≡ text_fault 0 false text.now }
    ensures within { IfSome result (λ p. p.1 < length text.now) }
{
    let mut escaped = false;
    for i in 0..text.len() {
        let c = text[i];
        if is_control(c) {
            return Some((BAD_CHARACTER, i));
        }
        escaped = opens_escape(escaped, c);
        if escaped && !is_escape(&text[i + 1..]) {
            return Some((BAD_ESCAPE, i));
        }
    }
    None
}

fn number_word(text: &[char]) -> Read
    ensures { result ≡ number_word text.now }
{
    let len = digits_len(text);
    match number(&text[..len]) {
        None => Read::Fault(NUMBER_TOO_LARGE, 0),
        Some(n) => {
            if len < text.len() && is_name_character(text[len]) {
                Read::Stuck(len)
            } else {
                Read::Whole(len, Shape::Number(n))
            }
        }
    }
}

fn text_word(text: &[char]) -> Read
    requires { 0 < length text.now }
    ensures { result ≡ text_word text.now }
{
    let behind = &text[1..];
    match text_end(behind) {
        None => Read::Fault(OPEN_TEXT, 0),
        Some(n) => match text_fault(&behind[..n]) {
            Some((rule, at)) => Read::Fault(rule, 1 + at),
            None => Read::Whole(1 + n, Shape::Text),
        },
    }
}

/// The word at the front of a text.
pub fn word_of(text: &[char]) -> Read
    requires some { 0 < length text.now }
    requires room { length text.now < 2 ^ 32 }
    ensures { result ≡ word_of text.now }
{
    let first = text[0];
    if begins_name(first) {
        return Read::Whole(1 + name_len(&text[1..]), Shape::Name);
    }
    if first.is_ascii_digit() {
        return number_word(text);
    }
    if first == '"' {
        return text_word(text);
    }
    match symbol_len(text) {
        0 => Read::Fault(BAD_CHARACTER, 0),
        n => Read::Whole(n, Shape::Symbol),
    }
}
