ghost use Rattle.std.specs.Prelude.{◌≤◌, length};
ghost use Rattle.fort_tree.specs.Component.{HasExpr, HasType};
ghost use Rattle.fort_parse_longest.specs.Parts.{Answers};

use crate::longest::longest_expr;
use crate::places::place_at;
use fort_base::CheckFault;
use fort_base::rules::{SYNTAX, TOO_DEEP};
use fort_lex_token::Tokens;
use fort_parse_types::longest_type;
use fort_tree::{Expr, TypeTree};
use fort_tree_openers::first_deep;
use std::alloc::Global;

/// The longest expression that begins at the token with that number, and the number of the token
/// behind it, which is the number of tokens where the expression ends the list. `at` counts from 0
/// and is at most the number of tokens.
///
/// The expression stands by itself, so no new line goes on with it that isn't in brackets of its
/// own; what follows it may be anything. It answers `Refused` with 202 and the place of the first
/// token of the list that stands inside more than 100 openers; else with 201 where no expression
/// begins at the token, at its place, at that of the last token where `at` is behind all, or at 1:1
/// where there are none. Its only other error is want of memory, which it also answers where the
/// headers of `while` and `for` stand so deep in one another that the stack may not hold them. The
/// chapter is "Grammar".
pub fn expr_at(alloc: Global, tokens: &Tokens, at: usize) -> Result<(Expr, usize), CheckFault>
    requires { at ≤ length tokens.now.list }
    ensures { Answers (HasExpr tokens.now.names) tokens.now.list at result }
{
    let list = tokens.list.as_slice();
    if let Some(place) = first_deep(list) {
        return Err(CheckFault::Refused(TOO_DEEP, place));
    }
    match longest_expr(alloc, tokens.names.as_slice(), &list[at..])? {
        Some((expr, count)) => Ok((expr, at + count)),
        None => Err(CheckFault::Refused(SYNTAX, place_at(list, at))),
    }
}

/// The longest type that begins at the token with that number, and the number of the token behind
/// it, which is the number of tokens where the type ends the list. `at` counts from 0 and is at
/// most the number of tokens.
///
/// What follows the type may be anything. The refusals and their places are those of [`expr_at`],
/// of types. Its only other error is want of memory. The chapter is "Grammar".
pub fn type_at(alloc: Global, tokens: &Tokens, at: usize) -> Result<(TypeTree, usize), CheckFault>
    requires { at ≤ length tokens.now.list }
    ensures { Answers (HasType tokens.now.names) tokens.now.list at result }
{
    let list = tokens.list.as_slice();
    if let Some(place) = first_deep(list) {
        return Err(CheckFault::Refused(TOO_DEEP, place));
    }
    match longest_type(alloc, tokens.names.as_slice(), &list[at..])? {
        Some((ty, count)) => Ok((ty, at + count)),
        None => Err(CheckFault::Refused(SYNTAX, place_at(list, at))),
    }
}
