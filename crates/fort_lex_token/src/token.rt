use crate::marks::Mark;
use crate::reserved::Reserved;
use fort_base::{Bytes, Gap, List, NameId, Place};
use fort_ops::Op;

/// What a token is.
#[derive(Clone, Copy, Debug, PartialEq, Eq)]
pub enum Kind {
    /// A reserved word, as `component` or `∑`.
    Word(Reserved),
    /// A name, by its number in `names`.
    Name(NameId),
    /// A number up to 9223372036854775807.
    Number(u64),
    /// A text, by its number in `texts`.
    Text(u32),
    /// An operator of the table, or an operator word by the number of its name in `names`.
    Op(Op),
    /// Another symbol, as `(` or `=>`.
    Mark(Mark),
}

/// A token with the gap before it and the place of its first character.
#[derive(Clone, Copy, Debug, PartialEq, Eq)]
pub struct Token {
    pub kind: Kind,
    pub gap: Gap,
    pub place: Place,
}

/// The tokens of a source file.
#[derive(Debug, Drop)]
pub struct Tokens {
    /// The tokens in their order.
    pub list: List<Token>,
    /// Each name and each operator word once, in the order of first places, as UTF-8.
    pub names: List<Bytes>,
    /// What each text says, its escapes replaced, in the order of the text tokens, as UTF-8.
    pub texts: List<Bytes>,
}
