//! Each function puts its token at the end of a list; its one error is want of memory. The chapter
//! is "Grammar".
ghost use Rattle.std.specs.Prelude.{◌≡◌, ◌++◌, [], ◌∷◌, OnOk};
ghost use Rattle.fort_tree.specs.Tokens.{token, word, marked, operator, named};
ghost use Rattle.fort_tree.specs.Said.{semicolon_tokens};

use fort_base::{List, Memory};
use fort_lex_token::{Kind, Mark, Reserved, Token};
use fort_ops::Op;
use fort_tree::{Name, Spot};

/// A token of this kind, where the spot says.
pub fn put_token(out: &mut List<Token>, kind: Kind, spot: Spot) -> Result<(), Memory>
    ensures { OnOk result (out.new ≡ out.old ++ token kind spot ∷ []) }
{
    out.push(Token {
        kind,
        gap: spot.gap,
        place: spot.place,
    })
}

/// A reserved word.
pub fn put_word(out: &mut List<Token>, reserved: Reserved, spot: Spot) -> Result<(), Memory>
    ensures { OnOk result (out.new ≡ out.old ++ word reserved spot ∷ []) }
{
    put_token(out, Kind::Word(reserved), spot)
}

/// A mark.
pub fn put_mark(out: &mut List<Token>, mark: Mark, spot: Spot) -> Result<(), Memory>
    ensures { OnOk result (out.new ≡ out.old ++ marked mark spot ∷ []) }
{
    put_token(out, Kind::Mark(mark), spot)
}

/// An operator.
pub fn put_operator(out: &mut List<Token>, op: Op, spot: Spot) -> Result<(), Memory>
    ensures { OnOk result (out.new ≡ out.old ++ operator op spot ∷ []) }
{
    put_token(out, Kind::Op(op), spot)
}

/// A name.
pub fn put_name(out: &mut List<Token>, name: Name) -> Result<(), Memory>
    ensures { OnOk result (out.new ≡ out.old ++ named name ∷ []) }
{
    put_token(out, Kind::Name(name.id), name.spot)
}

/// The `;` where there is one.
pub fn put_semicolon(out: &mut List<Token>, semicolon: Option<Spot>) -> Result<(), Memory>
    ensures { OnOk result (out.new ≡ out.old ++ semicolon_tokens semicolon) }
{
    match semicolon {
        None => Ok(()),
        Some(spot) => put_mark(out, Mark::Semicolon, spot),
    }
}
