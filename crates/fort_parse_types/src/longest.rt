//! The longest type that begins a row of tokens.

ghost use Rattle.std.specs.Prelude.{◌≡◌, ◌+◌, ◌≤◌, ◌<◌, ◌^◌, length, IfOk};
ghost use Rattle.fort_parse_types.specs.Longest.{TypeOf, NoLongerType, LongestType};

use crate::grammar::TypeGrammar;
use fort_base::{Bytes, Memory};
use fort_lex_token::Token;
use fort_parse_reading::{Cursor, Fault};
use fort_tree::TypeTree;
use std::alloc::Global;

/// How deep types are read in one another; a token list that passes the test of rule 202 has none
/// so deep.
const MOST_NESTED: usize = 128;

/// What reads a type from that many tokens.
fn grammar(alloc: Global, names: &[Bytes], count: usize) -> TypeGrammar<'_>
    requires { count < 2 ^ 63 }
    ensures names { result.names.now ≡ names.now }
    ensures depth { result.depth ≡ count + 1 }
{
    let depth = count + 1;
    TypeGrammar {
        alloc,
        names,
        depth,
        floor: depth.saturating_sub(MOST_NESTED),
    }
}

/// The type that all of the tokens are, or `None` where they are none.
fn whole_type(alloc: Global, names: &[Bytes], tokens: &[Token]) -> Result<Option<TypeTree>, Memory>
    ensures { IfOk result (λ found. TypeOf names.now tokens.now found) }
{
    let mut cursor = Cursor::new(tokens);
    match grammar(alloc, names, tokens.len()).type_tree(&mut cursor) {
        Ok(ty) => {
            if cursor.left() == 0 {
                Ok(Some(ty))
            } else {
                Ok(None)
            }
        }
        Err(Fault::Syntax) => Ok(None),
        Err(Fault::TooDeep) => unreachable!(),
        Err(Fault::Memory) => Err(Memory),
    }
}

/// The longest type that begins the tokens, where none has more than `most` of them.
fn shorter_type(
    alloc: Global,
    names: &[Bytes],
    tokens: &[Token],
    most: usize,
) -> Result<Option<(TypeTree, usize)>, Memory>
    requires within { most ≤ length tokens.now }
    requires none_longer { NoLongerType names.now tokens.now most }
    ensures { IfOk result (λ found. LongestType names.now tokens.now found) }
{
    for turn in 0..most {
        let end = most - turn;
        if let Some(ty) = whole_type(alloc, names, &tokens[..end])? {
            return Ok(Some((ty, end)));
        }
    }
    Ok(None)
}

/// The longest type that begins the tokens, with the number of its tokens, or `None` where no type
/// begins them. The names are the spellings of those that the tokens have, by their numbers. The
/// error is want of memory, and parts that lie deeper in one another than [`MOST_NESTED`]. The
/// chapter is "Grammar".
pub fn longest_type(
    alloc: Global,
    names: &[Bytes],
    tokens: &[Token],
) -> Result<Option<(TypeTree, usize)>, Memory>
    ensures { IfOk result (λ found. LongestType names.now tokens.now found) }
{
    let mut cursor = Cursor::new(tokens);
    match grammar(alloc, names, tokens.len()).type_tree(&mut cursor) {
        Ok(ty) => Ok(Some((ty, tokens.len().saturating_sub(cursor.left())))),
        Err(Fault::Syntax) => {
            shorter_type(
                alloc,
                names,
                tokens,
                tokens.len().saturating_sub(cursor.left()),
            )
        }
        Err(Fault::TooDeep) => unreachable!(),
        Err(Fault::Memory) => Err(Memory),
    }
}
