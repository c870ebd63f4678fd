//! Lists of names, and what may be left out, each put at the end of a token list.
ghost use Rattle.std.specs.Prelude.{◌≡◌, ◌++◌, OnOk};
ghost use Rattle.fort_tree.specs.Blocks.{next_names_tokens};
ghost use Rattle.fort_yield.specs.Parts.{var_tokens};

use fort_base::{List, Memory};
use fort_lex_token::{Mark, Reserved, Token};
use fort_tree::{NextName, Spot};
use fort_yield_tokens::{put_mark, put_name, put_word};

pub fn put_next_names(names: &[NextName], out: &mut List<Token>) -> Result<(), Memory>
    ensures { OnOk result (out.new ≡ out.old ++ next_names_tokens names.now) }
{
    for next in names {
        put_mark(out, Mark::Comma, next.comma)?;
        put_name(out, next.name)?;
    }
    Ok(())
}

pub fn put_var(out: &mut List<Token>, var: Option<Spot>) -> Result<(), Memory>
    ensures { OnOk result (out.new ≡ out.old ++ var_tokens var) }
{
    match var {
        None => Ok(()),
        Some(spot) => put_word(out, Reserved::Var, spot),
    }
}
