ghost use Rattle.std.specs.Prelude.{◌≡◌, drop, length};
ghost use Rattle.fort_parse_reading.specs.Parser.{Reads, next_of, accept_run};
ghost use Rattle.fort_parse_reading.specs.Words as spec;
ghost use Rattle.fort_tree.specs.Tokens as trees;

use crate::fault::Fault;
use fort_base::{Bytes, Gap};
use fort_lex_token::{Kind, Mark, Reserved, Token};
use fort_ops::Op;
use fort_tree::{AssignSign, Big, InitialSign, Name, Prefix, Sign, Spot};
use std::marker::Model;

/// What is left of a row of tokens. Each method that reads takes the next token where it is what
/// the method wants, and else leaves everything and answers [`Fault::Syntax`].
#[derive(Drop)]
pub struct Cursor<'a> {
    rest: &'a [Token],
}

impl<'a> Model for Cursor<'a> {
    ghost use Rattle.std.specs.Prelude.{List};
    ghost use Rattle.fort_lex_token.specs.declared.token.Token.{Token};

    ghost Value = { List Token };

    ghost view = { λ c. c.rest.now };
}

/// Where a token stands.
pub fn spot_of(token: &Token) -> Spot
    ensures { result ≡ spec.spot_of token.now }
{
    Spot {
        gap: token.gap,
        place: token.place,
    }
}

/// Whether a gap is empty.
pub fn is_empty(gap: Gap) -> bool
    ensures { result ≡ trees.is_empty gap }
{
    matches!(gap, Gap::Empty)
}

/// Whether a gap has a line feed.
pub fn is_line(gap: Gap) -> bool
    ensures { result ≡ trees.is_line gap }
{
    matches!(gap, Gap::Line)
}

#[tactic(auto, unfolding(crate::specs::Words::same_mark))]
fn same_mark(a: Mark, b: Mark) -> bool
    ensures value { result ≡ spec.same_mark a b }
{
    a == b
}

#[tactic(auto, unfolding(crate::specs::Words::same_word))]
fn same_word(a: Reserved, b: Reserved) -> bool
    ensures value { result ≡ spec.same_word a b }
{
    a == b
}

/// Whether a token is this symbol.
#[tactic(auto, unfolding(crate::specs::Words::is_mark))]
pub fn is_mark(mark: Mark, kind: Kind) -> bool
    ensures { result ≡ spec.is_mark mark kind }
{
    match kind {
        Kind::Mark(found) => same_mark(found, mark),
        _ => false,
    }
}

/// Whether a token is this reserved word.
#[tactic(auto, unfolding(crate::specs::Words::is_word))]
pub fn is_word(word: Reserved, kind: Kind) -> bool
    ensures { result ≡ spec.is_word word kind }
{
    match kind {
        Kind::Word(found) => same_word(found, word),
        _ => false,
    }
}

/// Whether a token is `:`.
#[tactic(auto, unfolding(crate::specs::Words::is_range))]
pub fn is_range(kind: Kind) -> bool
    ensures { result ≡ spec.is_range kind }
{
    matches!(kind, Kind::Op(Op::Range))
}

/// Whether a token is `=`.
#[tactic(auto, unfolding(crate::specs::Words::is_eq))]
pub fn is_eq(kind: Kind) -> bool
    ensures { result ≡ spec.is_eq kind }
{
    matches!(kind, Kind::Op(Op::Eq))
}

/// Whether a token is `^`.
#[tactic(auto, unfolding(crate::specs::Words::is_power))]
pub fn is_power(kind: Kind) -> bool
    ensures { result ≡ spec.is_power kind }
{
    matches!(kind, Kind::Op(Op::Power))
}

/// Whether a name is this word, among the spellings of names.
#[tactic(auto, unfolding(crate::specs::Words::is_called))]
pub fn is_called(word: &[u8], names: &[Bytes], name: Name) -> bool
    ensures { result ≡ spec.is_called word.now names.now name }
{
    match names.get(name.id.0 as usize) {
        Some(spelling) => spelling.as_slice() == word,
        None => word.is_empty(),
    }
}

#[tactic(auto, unfolding(crate::specs::Words::name_of))]
fn name_of(token: &Token) -> Option<Name>
    ensures { result ≡ spec.name_of token.now }
{
    match token.kind {
        Kind::Name(id) => Some(Name {
            id,
            spot: spot_of(token),
        }),
        _ => None,
    }
}

#[tactic(auto, unfolding(crate::specs::Words::called_of))]
fn called_of(word: &[u8], names: &[Bytes], token: &Token) -> Option<Name>
    ensures { result ≡ spec.called_of word.now names.now token.now }
{
    match name_of(token) {
        Some(name) if is_called(word, names, name) => Some(name),
        _ => None,
    }
}

/// Whether an operator is an infix one.
pub fn is_infix(op: Op) -> bool
    ensures { result ≡ trees.is_infix op }
{
    !matches!(op, Op::Juxt | Op::Not | Op::Power)
}

#[tactic(auto, unfolding(crate::specs::Words::sign_of))]
fn sign_of(token: &Token) -> Option<Sign>
    ensures { result ≡ spec.sign_of token.now }
{
    match token.kind {
        Kind::Op(op) if is_infix(op) => Some(Sign {
            op,
            spot: spot_of(token),
        }),
        _ => None,
    }
}

#[tactic(auto, unfolding(crate::specs::Words::prefix_of))]
fn prefix_of(token: &Token) -> Option<Prefix>
    ensures { result ≡ spec.prefix_of token.now }
{
    match token.kind {
        Kind::Op(Op::Minus) => Some(Prefix::Minus(spot_of(token))),
        Kind::Op(Op::Not) => Some(Prefix::Not(spot_of(token))),
        _ => None,
    }
}

#[tactic(auto, unfolding(crate::specs::Words::assign_of))]
fn assign_of(token: &Token) -> Option<AssignSign>
    ensures { result ≡ spec.assign_of token.now }
{
    match token.kind {
        Kind::Mark(Mark::Becomes) => Some(AssignSign::Becomes(spot_of(token))),
        Kind::Mark(Mark::AddBecomes) => Some(AssignSign::AddBecomes(spot_of(token))),
        Kind::Mark(Mark::SubtractBecomes) => Some(AssignSign::SubtractBecomes(spot_of(token))),
        _ => None,
    }
}

#[tactic(auto, unfolding(crate::specs::Words::initial_of))]
fn initial_of(token: &Token) -> Option<InitialSign>
    ensures { result ≡ spec.initial_of token.now }
{
    match token.kind {
        Kind::Op(Op::Eq) => Some(InitialSign::Equals(spot_of(token))),
        Kind::Mark(Mark::Becomes) => Some(InitialSign::Becomes(spot_of(token))),
        _ => None,
    }
}

#[tactic(auto, unfolding(crate::specs::Words::big_of))]
fn big_of(big: Spot, token: &Token) -> Option<Big>
    ensures { result ≡ spec.big_of big token.now }
{
    match token.kind {
        Kind::Op(Op::Max) => Some(Big::Max(big, spot_of(token))),
        Kind::Op(Op::Min) => Some(Big::Min(big, spot_of(token))),
        Kind::Op(Op::And) => Some(Big::And(big, spot_of(token))),
        Kind::Op(Op::Or) => Some(Big::Or(big, spot_of(token))),
        _ => None,
    }
}

impl<'a> Cursor<'a> {
    /// All of a row.
    pub fn new(tokens: &'a [Token]) -> Cursor<'a>
        ensures { result ≡ tokens.now }
    {
        Cursor { rest: tokens }
    }

    /// The number of tokens that are left.
    pub fn left(&self) -> usize
        ensures { result ≡ length self.now }
    {
        self.rest.len()
    }

    /// The next token.
    pub fn next(&self) -> Option<Token>
        ensures { result ≡ next_of self.now }
    {
        match self.rest {
            [] => None,
            [first, ..] => Some(*first),
        }
    }

    /// Leaves the next token, where there is one.
    pub fn skip(&mut self)
        ensures { self.new ≡ drop 1 self.old }
    {
        if let [_, rest @ ..] = self.rest {
            self.rest = rest;
        }
    }

    /// Whether the next token is this symbol.
    #[tactic(auto, unfolding(crate::specs::Words::sees))]
    pub fn sees_mark(&self, mark: Mark) -> bool
        ensures { result ≡ spec.sees (spec.is_mark mark) (next_of self.now) }
    {
        match self.next() {
            Some(token) => is_mark(mark, token.kind),
            None => false,
        }
    }

    /// Whether the next token is this reserved word.
    #[tactic(auto, unfolding(crate::specs::Words::sees))]
    pub fn sees_word(&self, word: Reserved) -> bool
        ensures { result ≡ spec.sees (spec.is_word word) (next_of self.now) }
    {
        match self.next() {
            Some(token) => is_word(word, token.kind),
            None => false,
        }
    }

    /// Whether the next token is `:`.
    #[tactic(auto, unfolding(crate::specs::Words::sees))]
    pub fn sees_range(&self) -> bool
        ensures { result ≡ spec.sees spec.is_range (next_of self.now) }
    {
        match self.next() {
            Some(token) => is_range(token.kind),
            None => false,
        }
    }

    /// This symbol.
    pub fn mark(&mut self, mark: Mark) -> Result<Spot, Fault>
        ensures { Reads (accept_run (spec.spot_if (spec.is_mark mark)) self.old) result self.new }
    {
        match self.rest {
            [first, rest @ ..] if is_mark(mark, first.kind) => {
                self.rest = rest;
                Ok(spot_of(first))
            }
            _ => Err(Fault::Syntax),
        }
    }

    /// This symbol, with no gap before it.
    pub fn tight_mark(&mut self, mark: Mark) -> Result<Spot, Fault>
        ensures { Reads (accept_run (spec.tight (spec.spot_if (spec.is_mark mark))) self.old) result
            self.new }
    {
        match self.rest {
            [first, ..] if is_empty(first.gap) => self.mark(mark),
            _ => Err(Fault::Syntax),
        }
    }

    /// This reserved word.
    pub fn word(&mut self, word: Reserved) -> Result<Spot, Fault>
        ensures { Reads (accept_run (spec.spot_if (spec.is_word word)) self.old) result self.new }
    {
        match self.rest {
            [first, rest @ ..] if is_word(word, first.kind) => {
                self.rest = rest;
                Ok(spot_of(first))
            }
            _ => Err(Fault::Syntax),
        }
    }

    /// `:`.
    pub fn colon(&mut self) -> Result<Spot, Fault>
        ensures { Reads (accept_run (spec.spot_if spec.is_range) self.old) result self.new }
    {
        match self.rest {
            [first, rest @ ..] if is_range(first.kind) => {
                self.rest = rest;
                Ok(spot_of(first))
            }
            _ => Err(Fault::Syntax),
        }
    }

    /// `=`.
    pub fn equals(&mut self) -> Result<Spot, Fault>
        ensures { Reads (accept_run (spec.spot_if spec.is_eq) self.old) result self.new }
    {
        match self.rest {
            [first, rest @ ..] if is_eq(first.kind) => {
                self.rest = rest;
                Ok(spot_of(first))
            }
            _ => Err(Fault::Syntax),
        }
    }

    /// `^`.
    pub fn power(&mut self) -> Result<Spot, Fault>
        ensures { Reads (accept_run (spec.spot_if spec.is_power) self.old) result self.new }
    {
        match self.rest {
            [first, rest @ ..] if is_power(first.kind) => {
                self.rest = rest;
                Ok(spot_of(first))
            }
            _ => Err(Fault::Syntax),
        }
    }

    /// A name.
    pub fn name(&mut self) -> Result<Name, Fault>
        ensures { Reads (accept_run spec.name_of self.old) result self.new }
    {
        let [first, rest @ ..] = self.rest else {
            return Err(Fault::Syntax);
        };
        match name_of(first) {
            Some(name) => {
                self.rest = rest;
                Ok(name)
            }
            None => Err(Fault::Syntax),
        }
    }

    /// A name with no gap before it.
    pub fn tight_name(&mut self) -> Result<Name, Fault>
        ensures { Reads (accept_run (spec.tight spec.name_of) self.old) result self.new }
    {
        match self.rest {
            [first, ..] if is_empty(first.gap) => self.name(),
            _ => Err(Fault::Syntax),
        }
    }

    /// The name that is this word, among the spellings of names.
    pub fn called(&mut self, word: &[u8], names: &[Bytes]) -> Result<Name, Fault>
        ensures { Reads (accept_run (spec.called_of word.now names.now) self.old) result self.new }
    {
        let [first, rest @ ..] = self.rest else {
            return Err(Fault::Syntax);
        };
        match called_of(word, names, first) {
            Some(name) => {
                self.rest = rest;
                Ok(name)
            }
            None => Err(Fault::Syntax),
        }
    }

    /// The name that is this word, with no gap before it.
    pub fn tight_called(&mut self, word: &[u8], names: &[Bytes]) -> Result<Name, Fault>
        ensures { Reads (accept_run (spec.tight (spec.called_of word.now names.now)) self.old)
            result self.new }
    {
        match self.rest {
            [first, ..] if is_empty(first.gap) => self.called(word, names),
            _ => Err(Fault::Syntax),
        }
    }

    /// An infix operator.
    pub fn sign(&mut self) -> Result<Sign, Fault>
        ensures { Reads (accept_run spec.sign_of self.old) result self.new }
    {
        let [first, rest @ ..] = self.rest else {
            return Err(Fault::Syntax);
        };
        match sign_of(first) {
            Some(sign) => {
                self.rest = rest;
                Ok(sign)
            }
            None => Err(Fault::Syntax),
        }
    }

    /// A prefix operator.
    pub fn prefix(&mut self) -> Result<Prefix, Fault>
        ensures { Reads (accept_run spec.prefix_of self.old) result self.new }
    {
        let [first, rest @ ..] = self.rest else {
            return Err(Fault::Syntax);
        };
        match prefix_of(first) {
            Some(prefix) => {
                self.rest = rest;
                Ok(prefix)
            }
            None => Err(Fault::Syntax),
        }
    }

    /// The sign of an assignment.
    pub fn assign_sign(&mut self) -> Result<AssignSign, Fault>
        ensures { Reads (accept_run spec.assign_of self.old) result self.new }
    {
        let [first, rest @ ..] = self.rest else {
            return Err(Fault::Syntax);
        };
        match assign_of(first) {
            Some(sign) => {
                self.rest = rest;
                Ok(sign)
            }
            None => Err(Fault::Syntax),
        }
    }

    /// The sign before an initial.
    pub fn initial_sign(&mut self) -> Result<InitialSign, Fault>
        ensures { Reads (accept_run spec.initial_of self.old) result self.new }
    {
        let [first, rest @ ..] = self.rest else {
            return Err(Fault::Syntax);
        };
        match initial_of(first) {
            Some(sign) => {
                self.rest = rest;
                Ok(sign)
            }
            None => Err(Fault::Syntax),
        }
    }

    /// The operator behind `BIG`, which stands at that spot.
    pub fn big_operator(&mut self, big: Spot) -> Result<Big, Fault>
        ensures { Reads (accept_run (spec.big_of big) self.old) result self.new }
    {
        let [first, rest @ ..] = self.rest else {
            return Err(Fault::Syntax);
        };
        match big_of(big, first) {
            Some(big) => {
                self.rest = rest;
                Ok(big)
            }
            None => Err(Fault::Syntax),
        }
    }
}
