ghost use Rattle.std.specs.Prelude.{◌≡◌, ◌<◌, ◌≤◌, ◌^◌, ◌+◌, ◌++◌, [], ◌∷◌, List as Seq, true, length, IfOk, OnOk, encode_utf8_all};
ghost use Rattle.std.proofs.Math.Utf8.{scalars};
ghost use Rattle.fort_lex_scan.specs.Words.{shape_of};
ghost use Rattle.fort_lex_scan.specs.Tokens.{Piece};
ghost use Rattle.fort_lex.specs.Meanings.{said, escaped_char};
ghost use Rattle.fort_lex.specs.Building.{Holds, OkKind};
ghost use Rattle.fort_lex.specs.Files.{StandsFor};

use crate::names::NameTable;
use fort_base::{Bytes, List, Memory, Place};
use fort_lex_scan::{Shape, gap_kind, place_after};
use fort_lex_token::{Kind, Token, Tokens};
use std::alloc::Global;

/// What a text says, its escapes replaced, as UTF-8.
fn said(alloc: Global, word: &[char]) -> Result<Bytes, Memory>
    requires { 0 < length word.now }
    ensures { IfOk result (λ bytes. bytes ≡ encode_utf8_all (said word.now)) }
{
    let mut text = String::with_capacity(alloc, word.len())?;
    let mut escaped = false;
    for i in 1..word.len() {
        let c = word[i];
        if escaped {
            text.push(escaped_char(c))?;
            escaped = false;
        } else if c == '"' {
            break;
        } else if c == '\\' {
            escaped = true;
        } else {
            text.push(c)?;
        }
    }
    Ok(List::from_vec(text.into_bytes()))
}

fn escaped_char(c: char) -> char
    ensures { result ≡ escaped_char c }
{
    match c {
        'n' => '\n',
        't' => '\t',
        c => c,
    }
}

/// The tokens so far, and the place behind them.
#[derive(Drop)]
pub struct Builder<'a> {
    pub list: List<Token>,
    pub texts: List<Bytes>,
    pub names: NameTable<'a>,
    pub place: Place,
}

impl<'a> Builder<'a> {
    pub fn new(alloc: Global) -> Builder<'a>
        ensures { Holds [] result }
    {
        Builder {
            list: List::new(alloc),
            texts: List::new(alloc),
            names: NameTable::new(alloc),
            place: Place { line: 1, column: 1 },
        }
    }

    /// Adds the token of a gap and a word of that shape.
    pub fn add(
        &mut self,
        alloc: Global,
        gap: &[char],
        word: &'a [char],
        shape: Shape,
    ) -> Result<(), Memory>
        requires room { self.old.place.line + self.old.place.column + length gap.now
            + length word.now < 2 ^ 32 }
        requires begun { 0 < self.old.place.column }
        requires few { (length self.old.texts < 2 ^ 31) × (length self.old.names.names < 2 ^ 31) }
        requires some { 0 < length word.now }
        requires scalars { scalars word.now ≡ true }
        requires shape { shape ≡ shape_of word.now }
        ensures held { OnOk result ((ps : Seq Piece) → Holds ps self.old
            → Holds (ps ++ record { gap = gap.now; word = word.now } ∷ []) self.new) }
        ensures one { OnOk result (length self.new.list ≡ length self.old.list + 1) }
        ensures begun { OnOk result (0 < self.new.place.column) }
        ensures small { OnOk result (self.new.place.line + self.new.place.column
            ≤ self.old.place.line + self.old.place.column + length gap.now + length word.now) }
    {
        let kind = self.kind_of(alloc, word, shape)?;
        let place = place_after(self.place, gap);
        self.list.push(Token {
            kind,
            gap: gap_kind(gap),
            place,
        })?;
        self.place = place_after(place, word);
        Ok(())
    }

    fn kind_of(&mut self, alloc: Global, word: &'a [char], shape: Shape) -> Result<Kind, Memory>
        requires few { (length self.old.texts < 2 ^ 31) × (length self.old.names.names < 2 ^ 31) }
        requires some { 0 < length word.now }
        requires scalars { scalars word.now ≡ true }
        requires shape { shape ≡ shape_of word.now }
        ensures { OkKind self.old self.new word.now result }
    {
        match shape {
            Shape::Number(n) => Ok(Kind::Number(n)),
            Shape::Text => {
                let number = self.texts.len() as u32;
                self.texts.push(said(alloc, word)?)?;
                Ok(Kind::Text(number))
            }
            Shape::Name => Ok(self.names.kind_of(alloc, word)?),
            Shape::Symbol => Ok(self.names.kind_of(alloc, word)?),
        }
    }

    /// The list with its names and texts.
    pub fn finish(self) -> Tokens
        ensures { (ps : Seq Piece) → Holds ps self.entry → StandsFor ps result }
    {
        let Builder {
            list,
            texts,
            names,
            place: _,
        } = self;
        Tokens {
            list,
            names: names.into_names(),
            texts,
        }
    }
}
