//! The table of names and texts that grows from file to file.
ghost use Rattle.std.specs.Prelude.{◌≡◌, ◌≤◌, ◌<◌, ◌+◌, ◌^◌, length, map, take, IfOk, OnOk, OnErr};
ghost use Rattle.std.specs.List.{AllByRecursion};
ghost use Rattle.fort_lex_token.specs.declared.token.Token.{Token as AToken};
ghost use Rattle.fort_link_table.specs.Names.{grown, with_spelling};
ghost use Rattle.fort_link_table.specs.Numbers.{HoldsNumbers};
ghost use Rattle.fort_link_table.specs.Table as spec;
ghost use Rattle.fort_link_table.specs.Table.{after, empty_table, joined};

use crate::numbers::{Numbers, number_for};
use fort_base::{Bytes, List, Memory, NameId, Place};
use fort_lex_token::{Kind, Token, Tokens};
use fort_ops::Op;
use std::alloc::Global;
use std::mem;

/// What is known of the files so far.
#[derive(Debug, Drop)]
pub struct Table {
    /// Each spelling of their names and operator words once, in the order of first places.
    pub names: List<Bytes>,
    /// What their texts say, in their order.
    pub texts: List<Bytes>,
    /// The number of their lines.
    pub lines: u32,
}

impl Table {
    /// The table before the first file; it takes no memory.
    pub fn new(alloc: Global) -> Table
        ensures { result ≡ empty_table }
    {
        Table {
            names: List::new(alloc),
            texts: List::new(alloc),
            lines: 0,
        }
    }

    /// Adds a file of so many lines, and answers its tokens in the whole: each name and each
    /// operator word has the number of its spelling among all names, the texts are counted on, and
    /// the lines of the files before are added to each place. The chapter is "Components and APIs".
    ///
    /// It takes time linear in the file and in the names and texts so far, which the answer has
    /// copies of.
    ///
    /// # Errors
    ///
    /// `Memory`, also where the number of a name or text doesn't fit in 32 bits; then the table is
    /// as before.
    pub fn add(&mut self, alloc: Global, tokens: Tokens, lines: u32) -> Result<Tokens, Memory>
        requires within { AllByRecursion (λ (t : AToken). t.place.line ≤ lines) tokens.list }
        requires room { self.old.lines + lines < 2 ^ 32 }
        ensures joined { IfOk result (λ it. it ≡ joined self.old tokens) }
        ensures after { OnOk result (self.new ≡ after self.old tokens lines) }
        ensures err { OnErr result (self.new ≡ self.old) }
    {
        let Joined { list, names } = self.joined(alloc, &tokens)?;
        let before = self.names.len();
        let more = copied(alloc, &names.as_slice()[before..])?;
        let mut texts = copied(alloc, self.texts.as_slice())?;
        texts.append(copied(alloc, tokens.texts.as_slice())?)?;
        self.names.append(more)?;
        if let Err(memory) = self.texts.append(tokens.texts) {
            let names = mem::replace(&mut self.names, List::new(alloc));
            self.names = cut(names, before);
            return Err(memory);
        }
        self.lines += lines;
        Ok(Tokens { list, names, texts })
    }

    /// The tokens of a file in the whole, and all names with the file's.
    fn joined(&self, alloc: Global, tokens: &Tokens) -> Result<Joined, Memory>
        requires { AllByRecursion
            (λ (t : AToken). self.now.lines + t.place.line < 2 ^ 32) tokens.now.list }
        ensures list { IfOk result (λ it. it.list ≡ (joined self.now tokens.now).list) }
        ensures names { IfOk result (λ it. it.names ≡ grown self.now.names tokens.now.names) }
        ensures longer { IfOk result (λ it. length self.now.names ≤ length it.names) }
    {
        let mut known = Numbers::of(alloc, self.names.as_slice())?;
        let mut names = copied(alloc, self.names.as_slice())?;
        add_names(alloc, &mut known, &mut names, tokens.names.as_slice())?;
        let whole = Whole {
            own: tokens.names.as_slice(),
            all: names.as_slice(),
            known: &known,
            texts: number_for(self.texts.len())?,
            lines: self.lines,
        };
        let list = whole.tokens(alloc, tokens.list.as_slice())?;
        Ok(Joined { list, names })
    }
}

/// The tokens of a file in the whole, and all names with the file's.
#[derive(Drop)]
struct Joined {
    list: List<Token>,
    names: List<Bytes>,
}

/// The first so many of these names.
fn cut(names: List<Bytes>, count: usize) -> List<Bytes>
    ensures { result ≡ take count names }
{
    let mut kept = names.into_vec();
    kept.truncate(count);
    List::from_vec(kept)
}

/// A list equal to the spellings.
fn copied(alloc: Global, spellings: &[Bytes]) -> Result<List<Bytes>, Memory>
    ensures { IfOk result (λ copy. copy ≡ spellings.now) }
{
    let mut copy = List::new(alloc);
    for spelling in spellings {
        copy.push(List::from_slice(alloc, spelling.as_slice())?)?;
    }
    Ok(copy)
}

/// Puts a spelling behind the names where none of them is spelled so.
fn add_name<'a>(
    alloc: Global,
    known: &mut Numbers<'a>,
    names: &mut List<Bytes>,
    spelling: &'a [u8],
) -> Result<(), Memory>
    requires { HoldsNumbers names.old known.old }
    ensures names { OnOk result (names.new ≡ with_spelling names.old spelling.now) }
    ensures known { OnOk result (HoldsNumbers names.new known.new) }
{
    if let Some(_) = known.get(spelling) {
        return Ok(());
    }
    known.add(spelling, number_for(names.len())?)?;
    names.push(List::from_slice(alloc, spelling)?)
}

/// Puts the spellings of a file behind the names, each where none is spelled so.
fn add_names<'a>(
    alloc: Global,
    known: &mut Numbers<'a>,
    names: &mut List<Bytes>,
    more: &'a [Bytes],
) -> Result<(), Memory>
    requires { HoldsNumbers names.old known.old }
    ensures names { OnOk result (names.new ≡ grown names.old more.now) }
    ensures known { OnOk result (HoldsNumbers names.new known.new) }
{
    for i in 0..more.len() {
        add_name(alloc, known, names, more[i].as_slice())?;
    }
    Ok(())
}

/// What makes a token of a file one of the whole: the names of the file and all names, the numbers
/// of these, and how many texts and lines stand before the file.
#[derive(Clone, Copy)]
struct Whole<'a, 'k> {
    own: &'a [Bytes],
    all: &'a [Bytes],
    known: &'a Numbers<'k>,
    texts: u32,
    lines: u32,
}

impl<'a, 'k> Whole<'a, 'k> {
    /// The number of a name in the whole.
    fn number(&self, number: u32) -> Result<u32, Memory>
        requires { HoldsNumbers self.now.all.now self.now.known.now }
        ensures { IfOk result (λ n. n ≡ spec.renumbered self.now.own.now self.now.all.now number) }
    {
        match self.own.get(number as usize) {
            Some(spelling) => {
                match self.known.get(spelling.as_slice()) {
                    Some(found) => Ok(found),
                    None => number_for(self.all.len()),
                }
            }
            None => Ok(number),
        }
    }

    /// An operator in the whole.
    fn op(&self, op: Op) -> Result<Op, Memory>
        requires { HoldsNumbers self.now.all.now self.now.known.now }
        ensures { IfOk result (λ o. o ≡ spec.op_in self.now.own.now self.now.all.now op) }
    {
        match op {
            Op::Word(number) => Ok(Op::Word(self.number(number)?)),
            other => Ok(other),
        }
    }

    /// The kind of a token in the whole.
    fn kind(&self, kind: Kind) -> Result<Kind, Memory>
        requires { HoldsNumbers self.now.all.now self.now.known.now }
        ensures { IfOk result
            (λ k. k ≡ spec.kind_in self.now.own.now self.now.all.now self.now.texts kind) }
    {
        match kind {
            Kind::Name(id) => Ok(Kind::Name(NameId(self.number(id.0)?))),
            Kind::Op(op) => Ok(Kind::Op(self.op(op)?)),
            Kind::Text(number) => match self.texts.checked_add(number) {
                Some(number) => Ok(Kind::Text(number)),
                None => Err(Memory),
            },
            other => Ok(other),
        }
    }

    /// A token in the whole.
    fn token(&self, token: Token) -> Result<Token, Memory>
        requires held { HoldsNumbers self.now.all.now self.now.known.now }
        requires room { self.now.lines + token.place.line < 2 ^ 32 }
        ensures { IfOk result (λ t. t ≡ spec.token_in self.now.own.now self.now.all.now
            self.now.texts self.now.lines token) }
    {
        Ok(Token {
            kind: self.kind(token.kind)?,
            gap: token.gap,
            place: Place {
                line: self.lines + token.place.line,
                column: token.place.column,
            },
        })
    }

    /// The tokens in the whole.
    fn tokens(&self, alloc: Global, tokens: &[Token]) -> Result<List<Token>, Memory>
        requires held { HoldsNumbers self.now.all.now self.now.known.now }
        requires room { AllByRecursion (λ (t : AToken). self.now.lines + t.place.line < 2 ^ 32) tokens.now }
        ensures { IfOk result (λ list. list ≡ map (spec.token_in self.now.own.now self.now.all.now
            self.now.texts self.now.lines) tokens.now) }
    {
        let mut list = List::new(alloc);
        for i in 0..tokens.len() {
            list.push(self.token(tokens[i])?)?;
        }
        Ok(list)
    }
}
