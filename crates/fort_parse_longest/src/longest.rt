//! The longest expression that begins a row of tokens.
ghost use Rattle.std.specs.Prelude.{◌≡◌, ◌-◌, ◌≤◌, length, IfOk};
ghost use Rattle.fort_parse_longest.specs.Longest.{NoLongerExpr, LongestExpr, IsFirst};

use fort_base::{Bytes, Memory};
use fort_lex_token::Token;
use fort_parse::ExprGrammar;
use fort_parse_reading::{Cursor, Fault};
use fort_tree::Expr;
use std::alloc::Global;

/// How many parts may be open in one another before the stack is held to be too small for more.
const MOST_NESTED: usize = 400;

/// What one reading of a row of tokens shows.
pub enum First {
    /// The longest expression that begins the row, and how many tokens it has.
    Expr(Expr, usize),
    /// The row itself is no expression, and none that begins it has more tokens than these.
    Fault(usize),
}

/// How many of the tokens were taken.
fn taken(tokens: &[Token], cursor: &Cursor<'_>) -> usize
    ensures { result ≡ length tokens.now - length cursor.now }
{
    tokens.len().saturating_sub(cursor.left())
}

/// Reads an expression once, from the first token on.
pub fn first_expr(alloc: Global, names: &[Bytes], tokens: &[Token]) -> Result<First, Memory>
    ensures { IfOk result (λ first. IsFirst names.now tokens.now first) }
{
    let depth = tokens.len() + 1;
    let grammar = ExprGrammar {
        alloc,
        names,
        depth,
        floor: depth.saturating_sub(MOST_NESTED),
    };
    let mut cursor = Cursor::new(tokens);
    match grammar.expr(&mut cursor, false) {
        Ok(expr) => Ok(First::Expr(expr, taken(tokens, &cursor))),
        Err(Fault::Syntax) => Ok(First::Fault(taken(tokens, &cursor))),
        Err(Fault::TooDeep) => unreachable!(),
        Err(Fault::Memory) => Err(Memory),
    }
}

/// The longest expression that begins the tokens, where none has more than `most` of them.
fn shorter_expr(
    alloc: Global,
    names: &[Bytes],
    tokens: &[Token],
    most: usize,
) -> Result<Option<(Expr, usize)>, Memory>
    requires within { most ≤ length tokens.now }
    requires none_longer { NoLongerExpr names.now tokens.now most }
    ensures { IfOk result (λ found. LongestExpr names.now tokens.now found) }
{
    for turn in 0..most {
        let end = most - turn;
        match first_expr(alloc, names, &tokens[..end])? {
            First::Expr(expr, count) => return Ok(Some((expr, count))),
            First::Fault(_) => {}
        }
    }
    Ok(None)
}

/// The longest expression that begins the tokens, with the number of its tokens, or `None` where no
/// expression begins them. The names are the spellings of those that the tokens have, by their
/// numbers. The error is want of memory, and parts that lie deeper in one another than
/// [`MOST_NESTED`]. Where a reading fails, it reads again with fewer and fewer tokens.
pub fn longest_expr(
    alloc: Global,
    names: &[Bytes],
    tokens: &[Token],
) -> Result<Option<(Expr, usize)>, Memory>
    ensures { IfOk result (λ found. LongestExpr names.now tokens.now found) }
{
    match first_expr(alloc, names, tokens)? {
        First::Expr(expr, count) => Ok(Some((expr, count))),
        First::Fault(most) => shorter_expr(alloc, names, tokens, most),
    }
}
