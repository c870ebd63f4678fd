//! The productions of APIs.
ghost use Rattle.std.specs.Prelude.{◌≡◌};
ghost use Rattle.fort_parse_reading.specs.Parser.{Reads};
ghost use Rattle.fort_link_units.specs.Apis as spec;

use crate::unit::{Api, ApiDeclaration, ApiDeclared, FunctionHead};
use fort_base::{Bytes, List};
use fort_lex_token::{Kind, Mark, Reserved, Token};
use fort_parse_reading::{Cursor, Fault, add, is_line};
use fort_parse_types::TypeGrammar;
use fort_tree::{Name, Parameters, Spot};
use std::alloc::Global;

/// What reads APIs. Each method reads the part of its form that begins at the next token, and then
/// answers its tree; else the tokens that are left begin at the first one at which no such part
/// goes on, and the answer is [`Fault::Syntax`]. It is [`Fault::TooDeep`] where the budget is used
/// up, and [`Fault::Memory`] where memory is wanting. The chapter is "Components and APIs".
#[derive(Clone, Copy)]
pub(crate) struct ApiGrammar<'a> {
    pub(crate) alloc: Global,
    /// The spellings of names, by their numbers.
    pub(crate) names: &'a [Bytes],
    /// How deep types may lie in one another, and how many parts may stand in a list: with more
    /// than there are tokens left it is never used up. Rule 202 bounds how deep types lie.
    pub(crate) depth: usize,
}

#[tactic(auto, unfolding(crate::specs::Apis::begins_declaration))]
fn begins_declaration(kind: Kind) -> bool
    ensures { result ≡ spec.begins_declaration kind }
{
    match kind {
        Kind::Name(_) => true,
        Kind::Word(word) => matches!(word, Reserved::Trait | Reserved::Object),
        _ => false,
    }
}

/// Whether the next token begins a further declaration: behind a `;`, or on a new line.
#[tactic(auto, unfolding(crate::specs::Apis::begins_declared, fort_parse_first::specs::Beginnings::begins_apart_of))]
fn begins_declared(ready: bool, next: Option<Token>) -> bool
    ensures { result ≡ spec.begins_declared ready next }
{
    match next {
        Some(token) => (ready || is_line(token.gap)) && begins_declaration(token.kind),
        None => false,
    }
}

impl<'a> ApiGrammar<'a> {
    /// What reads types, with the same budget.
    fn types(&self) -> TypeGrammar<'a>
        ensures names { result.names.now ≡ self.now.names.now }
        ensures depth { result.depth ≡ self.now.depth }
    {
        TypeGrammar {
            alloc: self.alloc,
            names: self.names,
            depth: self.depth,
            floor: 0,
        }
    }

    #[tactic(auto, unfolding(crate::specs::Apis::semicolon))]
    fn semicolon(&self, tokens: &mut Cursor<'_>) -> Result<Option<Spot>, Fault>
        ensures { Reads ((spec.semicolon self.now.names.now self.now.depth).run tokens.old) result
            tokens.new }
    {
        if tokens.sees_mark(Mark::Semicolon) {
            Ok(Some(tokens.mark(Mark::Semicolon)?))
        } else {
            Ok(None)
        }
    }

    #[tactic(auto, unfolding(crate::specs::Apis::variable))]
    fn variable(&self, tokens: &mut Cursor<'_>, name: Name) -> Result<ApiDeclaration, Fault>
        ensures { Reads ((spec.variable self.now.names.now self.now.depth name).run tokens.old)
            result tokens.new }
    {
        let colon = tokens.colon()?;
        let ty = self.types().type_tree(tokens)?;
        Ok(ApiDeclaration::Variable { name, colon, ty })
    }

    #[tactic(auto, unfolding(crate::specs::Apis::head_rest))]
    fn head_rest(
        &self,
        tokens: &mut Cursor<'_>,
        name: Name,
        left: Spot,
        parameters: Option<Parameters>,
        right: Spot,
    ) -> Result<ApiDeclaration, Fault>
        ensures { Reads
            ((spec.head_rest self.now.names.now self.now.depth name left parameters right).run
            tokens.old) result tokens.new }
    {
        let colon = tokens.colon()?;
        let result = self.types().type_tree(tokens)?;
        Ok(ApiDeclaration::Function(FunctionHead {
            name,
            left,
            parameters,
            right,
            colon,
            result,
        }))
    }

    #[tactic(auto, unfolding(crate::specs::Apis::head))]
    fn head(&self, tokens: &mut Cursor<'_>, name: Name) -> Result<ApiDeclaration, Fault>
        ensures { Reads ((spec.head self.now.names.now self.now.depth name).run tokens.old) result
            tokens.new }
    {
        let left = tokens.mark(Mark::OpenParen)?;
        let parameters = self.types().maybe_parameters(tokens)?;
        let right = tokens.mark(Mark::CloseParen)?;
        self.head_rest(tokens, name, left, parameters, right)
    }

    #[tactic(auto, unfolding(crate::specs::Apis::named_declaration))]
    fn named_declaration(
        &self,
        tokens: &mut Cursor<'_>,
        name: Name,
    ) -> Result<ApiDeclaration, Fault>
        ensures { Reads
            ((spec.named_declaration self.now.names.now self.now.depth name).run tokens.old) result
            tokens.new }
    {
        if tokens.sees_mark(Mark::OpenParen) {
            self.head(tokens, name)
        } else {
            self.variable(tokens, name)
        }
    }

    #[tactic(auto, unfolding(crate::specs::Apis::trait_declaration))]
    fn trait_declaration(&self, tokens: &mut Cursor<'_>) -> Result<ApiDeclaration, Fault>
        ensures { Reads
            ((spec.trait_declaration self.now.names.now self.now.depth).parser.run tokens.old)
            result tokens.new }
    {
        let trait_ = tokens.word(Reserved::Trait)?;
        let name = tokens.name()?;
        Ok(ApiDeclaration::Trait { trait_, name })
    }

    #[tactic(auto, unfolding(crate::specs::Apis::object_declaration))]
    fn object_declaration(&self, tokens: &mut Cursor<'_>) -> Result<ApiDeclaration, Fault>
        ensures { Reads
            ((spec.object_declaration self.now.names.now self.now.depth).parser.run tokens.old)
            result tokens.new }
    {
        let object = tokens.word(Reserved::Object)?;
        let name = tokens.name()?;
        Ok(ApiDeclaration::Object { object, name })
    }

    #[tactic(auto, unfolding(crate::specs::Apis::declaration_at))]
    fn declaration_at(&self, tokens: &mut Cursor<'_>) -> Result<ApiDeclaration, Fault>
        ensures { Reads
            ((spec.declaration_at self.now.names.now self.now.depth).parser.run tokens.old) result
            tokens.new }
    {
        if tokens.sees_word(Reserved::Trait) {
            self.trait_declaration(tokens)
        } else if tokens.sees_word(Reserved::Object) {
            self.object_declaration(tokens)
        } else {
            let name = tokens.name()?;
            self.named_declaration(tokens, name)
        }
    }

    #[tactic(auto, unfolding(crate::specs::Apis::declared))]
    fn declared(&self, tokens: &mut Cursor<'_>) -> Result<ApiDeclared, Fault>
        ensures { Reads ((spec.declared self.now.names.now self.now.depth).parser.run tokens.old)
            result tokens.new }
    {
        let declaration = self.declaration_at(tokens)?;
        let semicolon = self.semicolon(tokens)?;
        Ok(ApiDeclared {
            declaration,
            semicolon,
        })
    }

    fn declarations(&self, tokens: &mut Cursor<'_>) -> Result<List<ApiDeclared>, Fault>
        ensures { Reads ((spec.declarations self.now.names.now self.now.depth).run tokens.old)
            result tokens.new }
    {
        let mut found = List::new(self.alloc);
        let mut ready = true;
        for _turn in 0..self.depth {
            if !begins_declared(ready, tokens.next()) {
                return Ok(found);
            }
            let declared = self.declared(tokens)?;
            ready = declared.semicolon.is_some();
            add(&mut found, declared)?;
        }
        Err(Fault::TooDeep)
    }

    #[tactic(auto, unfolding(crate::specs::Apis::api))]
    fn api(&self, tokens: &mut Cursor<'_>) -> Result<Api, Fault>
        ensures { Reads ((spec.api self.now.names.now self.now.depth).run tokens.old) result
            tokens.new }
    {
        let api = tokens.word(Reserved::Api)?;
        let name = tokens.name()?;
        let declarations = self.declarations(tokens)?;
        let end = tokens.word(Reserved::End)?;
        Ok(Api {
            api,
            name,
            declarations,
            end,
        })
    }

    /// An API, and nothing after it.
    #[tactic(auto, unfolding(crate::specs::Apis::whole))]
    pub(crate) fn whole(&self, tokens: &mut Cursor<'_>) -> Result<Api, Fault>
        ensures { Reads ((spec.whole self.now.names.now self.now.depth).run tokens.old) result
            tokens.new }
    {
        let api = self.api(tokens)?;
        match tokens.next() {
            None => Ok(api),
            Some(_) => Err(Fault::Syntax),
        }
    }
}
