//! Reading a component with imports and exports.
ghost use Rattle.std.specs.Prelude.{◌≡◌, ◌≤◌, ◌+◌, ◌∷◌, false, drop, length, IfOk};
ghost use Rattle.fort_tree.specs.Openers.{AllShallow};
ghost use Rattle.fort_tree.specs.Tokens.{named, word};
ghost use Rattle.fort_lex_token.specs.declared.reserved.Reserved.TheVariants as reserved;
ghost use Rattle.fort_parse_reading.specs.Parser.{Read};
ghost use Rattle.fort_link_units.specs.Answer.{UnitAnswers, begins_api, opened};
ghost use Rattle.fort_link_units.specs.Heads as spec;

use crate::heads::{Heads, HeadsGrammar};
use crate::places::place_of;
use crate::unit::{ComponentUnit, Unit};
use fort_base::rules::SYNTAX;
use fort_base::{Bytes, CheckFault, List, Memory};
use fort_lex_token::{Kind, Reserved, Token, Tokens};
use fort_parse_reading::{Cursor, Fault};
use fort_syntax::component;
use std::alloc::Global;

/// A list equal to the texts.
fn copied(alloc: Global, texts: &[Bytes]) -> Result<List<Bytes>, Memory>
    ensures { IfOk result (λ copy. copy ≡ texts.now) }
{
    let mut copy = List::new(alloc);
    for text in texts {
        copy.push(List::from_slice(alloc, text.as_slice())?)?;
    }
    Ok(copy)
}

/// The tokens of a component without its imports and exports, behind which these stand.
fn without_heads(
    alloc: Global,
    tokens: &Tokens,
    heads: &Heads,
    rest: &[Token],
) -> Result<Tokens, Memory>
    ensures { IfOk result (λ bare. bare ≡ record {
      list = word reserved.Component heads.now.component ∷ named heads.now.name ∷ rest.now;
      names = tokens.now.names;
      texts = tokens.now.texts;
    }) }
{
    let component = Token {
        kind: Kind::Word(Reserved::Component),
        gap: heads.component.gap,
        place: heads.component.place,
    };
    let name = Token {
        kind: Kind::Name(heads.name.id),
        gap: heads.name.spot.gap,
        place: heads.name.spot.place,
    };
    let mut list = List::from_slice(alloc, &[component, name])?;
    list.push_slice(rest)?;
    Ok(Tokens {
        list,
        names: copied(alloc, tokens.names.as_slice())?,
        texts: copied(alloc, tokens.texts.as_slice())?,
    })
}

/// The unit of a file that doesn't begin with `api`, and whose tokens stand in openers as they may.
pub(crate) fn read_component(alloc: Global, tokens: &Tokens) -> Result<Unit, CheckFault>
    requires own { begins_api tokens.now.list ≡ false }
    requires shallow { AllShallow (opened tokens.now.list) }
    ensures { UnitAnswers tokens.now result }
{
    let list = tokens.list.as_slice();
    let mut cursor = Cursor::new(list);
    let grammar = HeadsGrammar {
        alloc,
        depth: list.len() + 1,
    };
    match grammar.heads(&mut cursor) {
        Ok(heads) => behind_heads(alloc, tokens, heads, list.len() - cursor.left()),
        Err(Fault::Memory) => Err(CheckFault::Memory),
        Err(Fault::TooDeep) => unreachable!(),
        Err(Fault::Syntax) => Err(CheckFault::Refused(SYNTAX, place_of(list, cursor.next()))),
    }
}

/// The same where these heads were read, behind which the token of that number stands, or none.
fn behind_heads(
    alloc: Global,
    tokens: &Tokens,
    heads: Heads,
    end: usize,
) -> Result<Unit, CheckFault>
    requires own { begins_api tokens.now.list ≡ false }
    requires shallow { AllShallow (opened tokens.now.list) }
    requires within { end ≤ length tokens.now.list }
    requires read { (spec.heads (length tokens.now.list + 1)).run tokens.now.list
        ≡ Read heads (drop end tokens.now.list) }
    ensures { UnitAnswers tokens.now result }
{
    let list = tokens.list.as_slice();
    let rest = &list[end..];
    if rest.is_empty() {
        return Err(CheckFault::Refused(SYNTAX, place_of(list, None)));
    }
    let bare = without_heads(alloc, tokens, &heads, rest)?;
    let parsed = component(alloc, &bare)?;
    let Heads {
        imports,
        exports,
        ..
    } = heads;
    Ok(Unit::Component(ComponentUnit {
        imports,
        exports,
        parsed,
    }))
}
