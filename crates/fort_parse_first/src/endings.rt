//! What may stand behind an item of a block or a clause.
ghost use Rattle.fort_parse_reading.specs.Parser.{Reads};
ghost use Rattle.fort_parse_first.specs.Endings as spec;

use fort_lex_token::Mark;
use fort_parse_reading::{Cursor, Fault};
use fort_tree::Spot;

/// The `;` behind an item or a clause, where there is one; a second one is left.
///
/// It answers no fault. The chapter "Grammar".
#[tactic(auto, unfolding(crate::specs::Endings::semicolon_run))]
pub fn semicolon(tokens: &mut Cursor<'_>) -> Result<Option<Spot>, Fault>
    ensures { Reads (spec.semicolon_run tokens.old) result tokens.new }
{
    if tokens.sees_mark(Mark::Semicolon) {
        Ok(Some(tokens.mark(Mark::Semicolon)?))
    } else {
        Ok(None)
    }
}
