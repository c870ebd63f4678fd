//! The tokens of a component that has the prelude's declarations alone.
ghost use Rattle.std.specs.Prelude.{◌≡◌, ◌+◌, ◌<◌, ◌^◌, ◌++◌, length, map, IfOk, OnOk};
ghost use Rattle.fort_spawn_prelude.specs.Prelude as prelude;
ghost use Rattle.fort_base.specs.declared.refusal.Gap.TheVariants as a_gap;
ghost use Rattle.fort_spawn_prelude.specs.Prelude.{framed, id_in, prelude_tokens, tokens_from};
ghost use Rattle.fort_spawn_prelude.specs.Table.{entry_of, part_of, table_end};

use crate::numbers::id_of;
use crate::table::{ALWAYS_COUNT, Row, STARTING_COUNT, Shape, always_rows, starting_rows};
use fort_base::{Bytes, Gap, List, Memory, NameId, Place};
use fort_lex_token::{Kind, Mark, Reserved, Token};
use std::alloc::Global;

/// The number of the first token behind the declarations that stand in each prelude.
const BEHIND: u32 = ALWAYS_COUNT as u32 + 1;

/// The kind of a token of the prelude, over these names.
fn kind_of(names: &[Bytes], shape: Shape, spelling: &[u8]) -> Result<Kind, Memory>
    ensures { IfOk result
        (λ kind. kind ≡ prelude.kind_of (id_in names.now) (part_of shape spelling.now)) }
{
    Ok(match shape {
        Shape::Word(word) => Kind::Word(word),
        Shape::Name => Kind::Name(id_of(names, spelling)?),
        Shape::Number(number) => Kind::Number(number),
        Shape::Operator(op) => Kind::Op(op),
        Shape::Symbol(mark) => Kind::Mark(mark),
    })
}

/// The token of a row, over these names and by this number.
fn token_of(names: &[Bytes], row: Row, column: u32) -> Result<Token, Memory>
    ensures { IfOk result
        (λ token. token ≡ prelude.token_at (id_in names.now) column (entry_of row.entry)) }
{
    Ok(Token {
        kind: kind_of(names, row.1, row.2)?,
        gap: row.0,
        place: Place { line: 0, column },
    })
}

/// Puts the tokens of rows behind others, numbered on from `first`.
fn add_rows(
    names: &[Bytes],
    rows: &[Row],
    first: u32,
    tokens: &mut List<Token>,
) -> Result<(), Memory>
    requires { first + length rows.now < 2 ^ 32 }
    ensures { OnOk result (tokens.new
        ≡ tokens.old ++ tokens_from (id_in names.now) first (map entry_of rows.now)) }
{
    for i in 0..rows.len() {
        let token = token_of(names, rows[i], first + i as u32)?;
        tokens.push(token)?;
    }
    Ok(())
}

/// A token of the frame round the prelude, or the `;` behind it.
fn token(kind: Kind, column: u32) -> Token
    ensures { result ≡ record { kind = kind; gap = a_gap.Empty; place = prelude.place_at column } }
{
    Token {
        kind,
        gap: Gap::Empty,
        place: Place { line: 0, column },
    }
}

/// Puts the function `run` of the prelude behind the declarations that stand in each one, where the
/// component starts, and the `;` behind the last declaration.
fn close(names: &[Bytes], starts: bool, tokens: &mut List<Token>) -> Result<(), Memory>
    ensures { OnOk result (tokens.new
        ≡ tokens.old ++ tokens_from (id_in names.now) BEHIND (table_end starts)) }
{
    if !starts {
        return tokens.push(token(Kind::Mark(Mark::Semicolon), BEHIND));
    }
    add_rows(names, starting_rows(), BEHIND, tokens)?;
    let last = BEHIND + STARTING_COUNT as u32;
    tokens.push(token(Kind::Mark(Mark::Semicolon), last))?;
    Ok(())
}

/// The tokens of a component whose declarations are the prelude, over these names.
pub(crate) fn framed_tokens(
    alloc: Global,
    names: &[Bytes],
    starts: bool,
) -> Result<List<Token>, Memory>
    ensures { IfOk result (λ tokens. tokens ≡ framed (prelude_tokens names.now starts)) }
{
    let mut tokens = List::new(alloc);
    tokens.push(token(Kind::Word(Reserved::Component), 0))?;
    tokens.push(token(Kind::Name(NameId(0)), 0))?;
    add_rows(names, always_rows(), 1, &mut tokens)?;
    close(names, starts, &mut tokens)?;
    tokens.push(token(Kind::Word(Reserved::End), 0))?;
    Ok(tokens)
}
