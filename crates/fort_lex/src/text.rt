ghost use Rattle.std.specs.Prelude.{◌≡◌, IfOk, encode_utf8_all, string_bytes};
ghost use Rattle.fort_lex_scan.specs.Lists.{same};
ghost use Rattle.fort_lex.specs.Spellings.{is_sign};

use std::alloc::{AllocError, Global};

/// Whether a word is an ASCII text.
#[inline(always)]
pub fn is_ascii(word: &[char], text: &str) -> bool
    ensures { result ≡ same text.now word.now }
{
    let bytes = text.as_bytes();
    if bytes.len() != word.len() {
        return false;
    }
    for i in 0..bytes.len() {
        if bytes[i] as u32 != word[i] as u32 {
            return false;
        }
    }
    true
}

/// Whether a word is a sign of one character, where there is one.
#[inline(always)]
pub fn is_sign(word: &[char], sign: Option<char>) -> bool
    ensures { result ≡ is_sign sign word.now }
{
    match (word, sign) {
        ([c], Some(d)) => *c == d,
        _ => false,
    }
}

/// The characters of a word as UTF-8.
pub fn spelled(alloc: Global, word: &[char]) -> Result<String, AllocError>
    ensures { IfOk result (λ s. string_bytes s ≡ encode_utf8_all word.now) }
{
    let mut text = String::with_capacity(alloc, word.len())?;
    for i in 0..word.len() {
        text.push(word[i])?;
    }
    Ok(text)
}
