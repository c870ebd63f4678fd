//! The unit of a file.
ghost use Rattle.std.specs.Prelude.{◌≡◌, true};
ghost use Rattle.fort_tree.specs.Openers.{AllShallow};
ghost use Rattle.fort_link_units.specs.Answer.{UnitAnswers, begins_api as begins, opened};

use crate::apis::ApiGrammar;
use crate::components::read_component;
use crate::limits::first_crowded;
use crate::openers::{begins_api, first_deep_in};
use crate::places::place_of;
use crate::unit::Unit;
use fort_base::CheckFault;
use fort_base::rules::{SYNTAX, TOO_DEEP, TOO_MANY};
use fort_lex_token::Tokens;
use fort_parse_reading::{Cursor, Fault};
use std::alloc::Global;

/// The unit that a file's tokens are: an API where the first of them is `api`, else a component
/// with its imports and exports. The chapter is "Components and APIs".
///
/// It answers `Refused` with 202 and the place of the first token that stands inside more than 100
/// openers, among which `trait` and `object` are none in an API; else with 201 where the tokens are
/// no unit, at a token up to which none begins, at the last one where they end too early, or at 1:1
/// where there are none; else with 203 at the earliest place of what passes a limit. Its only other
/// error is want of memory, which [`fort_syntax::component`] also answers where runs stand more
/// than 400 deep in one another.
pub fn read_unit(alloc: Global, tokens: &Tokens) -> Result<Unit, CheckFault>
    ensures { UnitAnswers tokens.now result }
{
    if let Some(place) = first_deep_in(alloc, tokens.list.as_slice())? {
        return Err(CheckFault::Refused(TOO_DEEP, place));
    }
    if begins_api(tokens.list.as_slice()) {
        read_api(alloc, tokens)
    } else {
        read_component(alloc, tokens)
    }
}

/// The unit of a file that begins with `api`, and whose tokens stand in openers as they may.
fn read_api(alloc: Global, tokens: &Tokens) -> Result<Unit, CheckFault>
    requires own { begins tokens.now.list ≡ true }
    requires shallow { AllShallow (opened tokens.now.list) }
    ensures { UnitAnswers tokens.now result }
{
    let list = tokens.list.as_slice();
    let mut cursor = Cursor::new(list);
    let grammar = ApiGrammar {
        alloc,
        names: tokens.names.as_slice(),
        depth: list.len() + 1,
    };
    match grammar.whole(&mut cursor) {
        Ok(api) => match first_crowded(&api) {
            Some(place) => Err(CheckFault::Refused(TOO_MANY, place)),
            None => Ok(Unit::Api(api)),
        },
        Err(Fault::Memory) => Err(CheckFault::Memory),
        Err(Fault::TooDeep) => unreachable!(),
        Err(Fault::Syntax) => Err(CheckFault::Refused(SYNTAX, place_of(list, cursor.next()))),
    }
}
