//! The canonical text of tokens.
ghost use Rattle.std.specs.Prelude.{◌≡◌, ◌++◌, ◌<◌, length, true, decimal, IfOk, OnOk, IsTrue};
ghost use Rattle.std.specs.List.{flat_map};
ghost use Rattle.fort_tree.specs.Component.{IsNumbered, NumbersAreIn, number_is_in};
ghost use Rattle.fort_lex_canonical.specs.Canonical.{canonical, escaped, quoted, kind_text, op_text, token_text};

use crate::spelling::{gap_text, mark_text, operator_text, word_text};
use fort_base::{Bytes, List, Memory};
use fort_lex_token::{Kind, Token, Tokens};
use fort_ops::Op;
use itoa::Buffer;
use std::alloc::Global;

/// The canonical text of tokens, as UTF-8: each token behind its gap, which is nothing, a space or
/// a line feed; no gap before the first; a line feed at the end.
///
/// Each number of a name or text of the tokens is in their tables. What has a Unicode spelling is
/// written with it. `Memory` says that memory was wanting. The chapter is "Canonical text".
pub fn shown(alloc: Global, tokens: &Tokens) -> Result<Bytes, Memory>
    requires { IsNumbered tokens.now }
    ensures { IfOk result (λ text. text ≡ canonical tokens.now) }
{
    let mut text = List::new(alloc);
    if let Some((first, rest)) = tokens.list.as_slice().split_first() {
        push_kind(tokens, first.kind, &mut text)?;
        push_tokens(tokens, rest, &mut text)?;
    }
    text.push(b'\n')?;
    Ok(text)
}

/// Puts tokens at the end, each behind its gap.
fn push_tokens(tokens: &Tokens, list: &[Token], text: &mut Bytes) -> Result<(), Memory>
    requires { NumbersAreIn tokens.now.names tokens.now.texts list.now }
    ensures { OnOk result (text.new
        ≡ text.old ++ flat_map (token_text tokens.now.names tokens.now.texts) list.now) }
{
    for token in list {
        text.push_slice(gap_text(token.gap))?;
        push_kind(tokens, token.kind, text)?;
    }
    Ok(())
}

/// Puts a token's spelling at the end.
fn push_kind(tokens: &Tokens, kind: Kind, text: &mut Bytes) -> Result<(), Memory>
    requires { IsTrue (number_is_in (length tokens.now.names) (length tokens.now.texts) kind) }
    ensures { OnOk result (text.new
        ≡ text.old ++ kind_text tokens.now.names tokens.now.texts kind) }
{
    match kind {
        Kind::Word(reserved) => text.push_slice(word_text(reserved)),
        Kind::Name(name) => text.push_slice(tokens.names.as_slice()[name.0 as usize].as_slice()),
        Kind::Number(value) => push_number(value, text),
        Kind::Text(number) => {
            push_quoted(tokens.texts.as_slice()[number as usize].as_slice(), text)
        }
        Kind::Op(op) => push_operator(tokens.names.as_slice(), op, text),
        Kind::Mark(mark) => text.push_slice(mark_text(mark)),
    }
}

/// Puts an operator's spelling at the end.
fn push_operator(names: &[Bytes], op: Op, text: &mut Bytes) -> Result<(), Memory>
    requires { IsTrue (number_is_in (length names.now) 0 (Kind.Op op)) }
    ensures { OnOk result (text.new ≡ text.old ++ op_text names.now op) }
{
    match op {
        Op::Word(name) => text.push_slice(names[name as usize].as_slice()),
        _ => text.push_slice(operator_text(op)),
    }
}

/// Puts a number at the end, in decimal.
fn push_number(value: u64, text: &mut Bytes) -> Result<(), Memory>
    ensures { OnOk result (text.new ≡ text.old ++ decimal value) }
{
    let mut buffer = Buffer::new();
    text.push_slice(buffer.format(value).as_bytes())
}

/// Puts a text between quotes at the end, with its escapes.
fn push_quoted(said: &[u8], text: &mut Bytes) -> Result<(), Memory>
    ensures { OnOk result (text.new ≡ text.old ++ quoted said.now) }
{
    text.push(b'"')?;
    for byte in said {
        push_escaped(*byte, text)?;
    }
    text.push(b'"')
}

/// Puts a byte of a text at the end, by its escape where it has one.
fn push_escaped(byte: u8, text: &mut Bytes) -> Result<(), Memory>
    ensures { OnOk result (text.new ≡ text.old ++ escaped byte) }
{
    match byte {
        b'\n' => text.push_slice(b"\\n"),
        b'\t' => text.push_slice(b"\\t"),
        b'"' => text.push_slice(b"\\\""),
        b'\\' => text.push_slice(b"\\\\"),
        _ => text.push(byte),
    }
}
