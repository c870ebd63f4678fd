//! The productions of components.

ghost use Rattle.std.specs.Prelude.{◌≡◌, IfOk};
ghost use Rattle.fort_parse_reading.specs.Parser.{Reads};
ghost use Rattle.fort_parse_declarations.specs.Declarations as spec;
ghost use Rattle.fort_parse_declarations.specs.Whole.{ReadsWhole};

use crate::parsed::Parsed;
use crate::syntax::Syntax;
use fort_base::{Bytes, List, Memory};
use fort_lex_token::Reserved;
use fort_parse_reading::{Cursor, Fault};
use fort_tree::{Component, Export};
use std::alloc::Global;

/// A list equal to the texts.
fn copied(alloc: Global, texts: &[Bytes]) -> Result<List<Bytes>, Memory>
    ensures { IfOk result (λ copy. copy ≡ texts.now) }
{
    let mut copy = List::new(alloc);
    for text in texts {
        copy.push(List::from_slice(alloc, text.as_slice())?)?;
    }
    Ok(copy)
}

impl<'a> Syntax<'a> {
    #[tactic(auto, unfolding(crate::specs::Declarations::export_from))]
    fn export_from(&self, tokens: &mut Cursor<'_>) -> Result<Option<Export>, Fault>
        ensures { Reads ((spec.export_from self.now.names.now self.now.depth).run tokens.old) result
            tokens.new }
    {
        let export = tokens.word(Reserved::Export)?;
        let name = tokens.called(b"Executable", self.names)?;
        Ok(Some(Export { export, name }))
    }

    #[tactic(auto, unfolding(crate::specs::Declarations::export))]
    fn export(&self, tokens: &mut Cursor<'_>) -> Result<Option<Export>, Fault>
        ensures { Reads ((spec.export self.now.names.now self.now.depth).run tokens.old) result
            tokens.new }
    {
        if tokens.sees_word(Reserved::Export) {
            self.export_from(tokens)
        } else {
            Ok(None)
        }
    }

    #[tactic(auto, unfolding(crate::specs::Declarations::component))]
    fn component(&self, tokens: &mut Cursor<'_>, texts: &[Bytes]) -> Result<Component, Fault>
        ensures { Reads
            ((spec.component self.now.names.now self.now.depth texts.now).run tokens.old) result
            tokens.new }
    {
        let component = tokens.word(Reserved::Component)?;
        let name = tokens.name()?;
        let export = self.export(tokens)?;
        let declarations = self.declarations(tokens)?;
        let end = tokens.word(Reserved::End)?;
        Ok(Component {
            component,
            name,
            export,
            declarations,
            end,
            names: copied(self.alloc, self.names)?,
            texts: copied(self.alloc, texts)?,
        })
    }
}

/// A component and nothing after it, from tokens with these names and texts, each by its number,
/// which the component then has too. `depth` is the budget, at least one more than there are
/// tokens, and `floor` what it may not fall to. The faults are those of `Syntax`.
#[tactic(auto, unfolding(crate::specs::Declarations::whole))]
pub fn whole(
    alloc: Global,
    tokens: &mut Cursor<'_>,
    names: &[Bytes],
    texts: &[Bytes],
    depth: usize,
    floor: usize,
) -> Result<Parsed, Fault>
    ensures { ReadsWhole ((spec.whole names.now depth texts.now).run tokens.old) result tokens.new }
{
    let syntax = Syntax {
        alloc,
        names,
        depth,
        floor,
    };
    let component = syntax.component(tokens, texts)?;
    let parsed = Parsed { component };
    match tokens.next() {
        None => Ok(parsed),
        Some(_) => Err(Fault::Syntax),
    }
}
