//! What stands before a component's declarations: its name, its imports and its exports.
ghost use Rattle.std.specs.Prelude.{◌≡◌};
ghost use Rattle.fort_parse_reading.specs.Parser.{Reads};
ghost use Rattle.fort_link_units.specs.Heads as spec;

use crate::unit::Import;
use fort_base::List;
use fort_lex_token::Reserved;
use fort_parse_reading::{Cursor, Fault, add};
use fort_tree::{Export, Name, Spot};
use std::alloc::Global;

/// `"component" Name ("import" Name)* ("export" Name)*`
#[derive(Drop)]
pub(crate) struct Heads {
    pub(crate) component: Spot,
    pub(crate) name: Name,
    pub(crate) imports: List<Import>,
    pub(crate) exports: List<Export>,
}

/// What reads the heads of a component. The chapter is "Components and APIs".
#[derive(Clone, Copy)]
pub(crate) struct HeadsGrammar {
    pub(crate) alloc: Global,
    /// How many imports or exports may stand in a list: with more than there are tokens left it is
    /// never used up.
    pub(crate) depth: usize,
}

impl HeadsGrammar {
    #[tactic(auto, unfolding(crate::specs::Heads::import_))]
    fn import(&self, tokens: &mut Cursor<'_>) -> Result<Import, Fault>
        ensures { Reads ((spec.import_ self.now.depth).parser.run tokens.old) result tokens.new }
    {
        let import = tokens.word(Reserved::Import)?;
        let name = tokens.name()?;
        Ok(Import { import, name })
    }

    fn imports(&self, tokens: &mut Cursor<'_>) -> Result<List<Import>, Fault>
        ensures { Reads ((spec.imports self.now.depth).run tokens.old) result tokens.new }
    {
        let mut found = List::new(self.alloc);
        for _turn in 0..self.depth {
            if !tokens.sees_word(Reserved::Import) {
                return Ok(found);
            }
            add(&mut found, self.import(tokens)?)?;
        }
        Err(Fault::TooDeep)
    }

    #[tactic(auto, unfolding(crate::specs::Heads::export_))]
    fn export(&self, tokens: &mut Cursor<'_>) -> Result<Export, Fault>
        ensures { Reads ((spec.export_ self.now.depth).parser.run tokens.old) result tokens.new }
    {
        let export = tokens.word(Reserved::Export)?;
        let name = tokens.name()?;
        Ok(Export { export, name })
    }

    fn exports(&self, tokens: &mut Cursor<'_>) -> Result<List<Export>, Fault>
        ensures { Reads ((spec.exports self.now.depth).run tokens.old) result tokens.new }
    {
        let mut found = List::new(self.alloc);
        for _turn in 0..self.depth {
            if !tokens.sees_word(Reserved::Export) {
                return Ok(found);
            }
            add(&mut found, self.export(tokens)?)?;
        }
        Err(Fault::TooDeep)
    }

    /// The heads of a component.
    #[tactic(auto, unfolding(crate::specs::Heads::heads))]
    pub(crate) fn heads(&self, tokens: &mut Cursor<'_>) -> Result<Heads, Fault>
        ensures { Reads ((spec.heads self.now.depth).run tokens.old) result tokens.new }
    {
        let component = tokens.word(Reserved::Component)?;
        let name = tokens.name()?;
        let imports = self.imports(tokens)?;
        let exports = self.exports(tokens)?;
        Ok(Heads {
            component,
            name,
            imports,
            exports,
        })
    }
}
