//! The productions of types and parameters, each a method that reads it from what is left of a row
//! of tokens.

ghost use Rattle.std.specs.Prelude.{◌≡◌};
ghost use Rattle.fort_parse_reading.specs.Parser.{Reads};
ghost use Rattle.fort_parse_types.specs.Types as spec;

use fort_base::{Boxed, Bytes, List};
use fort_lex_token::{Kind, Mark};
use fort_parse_reading::{Cursor, Fault, add, is_called};
use fort_tree::{
    Name, NextParameter, NextType, Parameter, Parameters, SimpleType, Spot, TypeList, TypeTree,
};
use std::alloc::Global;

/// What reads types and parameters, each method its form from the next tokens, looking one token
/// ahead. Where it answers a tree, it has taken the tokens of that tree. Else the tokens that are
/// left begin at the first one with which the form does not go on, and the answer is
/// [`Fault::Syntax`]. It is [`Fault::TooDeep`] where the budget is used up, and [`Fault::Memory`]
/// where memory is wanting or the budget falls to the floor. The chapter is "Grammar".
#[derive(Clone, Copy)]
pub struct TypeGrammar<'a> {
    pub alloc: Global,
    /// The spellings of names, by their numbers.
    pub names: &'a [Bytes],
    /// How deep the parts that are read may lie in one another, and how many may stand in a list:
    /// with more than there are tokens left it is never used up.
    pub depth: usize,
    /// What `depth` may not fall to, so that the stack that a call takes has a bound.
    pub floor: usize,
}

impl<'a> TypeGrammar<'a> {
    /// A type.
    #[cycle(types)]
    #[tactic(auto, unfolding(crate::specs::Types::type_tree))]
    pub fn type_tree(&self, tokens: &mut Cursor<'_>) -> Result<TypeTree, Fault>
        ensures { Reads ((spec.type_tree self.now.names.now self.now.depth).parser.run tokens.old)
            result tokens.new }
    {
        if self.depth == 0 {
            return Err(Fault::TooDeep);
        }
        if self.depth <= self.floor {
            return Err(Fault::Memory);
        }
        TypeGrammar {
            depth: self.depth - 1,
            ..*self
        }
        .type_level(tokens)
    }

    #[cycle(types)]
    #[tactic(auto, unfolding(crate::specs::Types::type_level))]
    fn type_level(&self, tokens: &mut Cursor<'_>) -> Result<TypeTree, Fault>
        ensures { let names = self.now.names.now
            in Reads ((spec.type_level names (spec.type_tree names self.now.depth)).parser.run
            tokens.old) result tokens.new }
    {
        let domain = self.simple_type(tokens)?;
        if tokens.sees_mark(Mark::RightArrow) {
            self.arrow_from(tokens, domain)
        } else {
            Ok(TypeTree::Simple(domain))
        }
    }

    #[cycle(types)]
    #[tactic(auto, unfolding(crate::specs::Types::arrow_from))]
    fn arrow_from(&self, tokens: &mut Cursor<'_>, domain: SimpleType) -> Result<TypeTree, Fault>
        ensures { let names = self.now.names.now
            in Reads ((spec.arrow_from names (spec.type_tree names self.now.depth) domain).run
            tokens.old) result tokens.new }
    {
        let arrow = tokens.mark(Mark::RightArrow)?;
        let result = self.simple_type(tokens)?;
        Ok(TypeTree::Arrow(domain, arrow, result))
    }

    #[cycle(types)]
    #[tactic(auto, unfolding(crate::specs::Types::simple_type))]
    fn simple_type(&self, tokens: &mut Cursor<'_>) -> Result<SimpleType, Fault>
        ensures { let names = self.now.names.now
            in Reads ((spec.simple_type names (spec.type_tree names self.now.depth)).parser.run
            tokens.old) result tokens.new }
    {
        let Some(next) = tokens.next() else {
            return Err(Fault::Syntax);
        };
        match next.kind {
            Kind::Name(_) => {
                let name = tokens.name()?;
                self.named_type(tokens, name)
            }
            Kind::Mark(Mark::OpenParen) => {
                let left = tokens.mark(Mark::OpenParen)?;
                self.type_parts(tokens, left)
            }
            _ => Err(Fault::Syntax),
        }
    }

    #[cycle(types)]
    #[tactic(auto, unfolding(crate::specs::Types::named_type))]
    fn named_type(&self, tokens: &mut Cursor<'_>, name: Name) -> Result<SimpleType, Fault>
        ensures { let names = self.now.names.now
            in Reads ((spec.named_type names (spec.type_tree names self.now.depth) name).run
            tokens.old) result tokens.new }
    {
        if is_called(b"Array", self.names, name) && tokens.sees_mark(Mark::OpenStatic) {
            self.array_type(tokens, name)
        } else {
            Ok(SimpleType::Named(name))
        }
    }

    #[cycle(types)]
    #[tactic(auto, unfolding(crate::specs::Types::array_type))]
    fn array_type(&self, tokens: &mut Cursor<'_>, array: Name) -> Result<SimpleType, Fault>
        ensures { let names = self.now.names.now
            in Reads ((spec.array_type names (spec.type_tree names self.now.depth) array).run
            tokens.old) result tokens.new }
    {
        let left = tokens.mark(Mark::OpenStatic)?;
        let element = Boxed::new(self.alloc, self.type_tree(tokens)?)?;
        self.array_index(tokens, array, left, element)
    }

    #[tactic(auto, unfolding(crate::specs::Types::array_index))]
    fn array_index(
        &self,
        tokens: &mut Cursor<'_>,
        array: Name,
        left: Spot,
        element: Boxed<TypeTree>,
    ) -> Result<SimpleType, Fault>
        ensures { let names = self.now.names.now
            in Reads ((spec.array_index names (spec.type_tree names self.now.depth) array left
            element).run tokens.old) result tokens.new }
    {
        let comma = tokens.mark(Mark::Comma)?;
        let index = tokens.called(b"ZZ32", self.names)?;
        let right = tokens.mark(Mark::CloseStatic)?;
        Ok(SimpleType::Array {
            array,
            left,
            element,
            comma,
            index,
            right,
        })
    }

    #[cycle(types)]
    #[tactic(auto, unfolding(crate::specs::Types::type_parts))]
    fn type_parts(&self, tokens: &mut Cursor<'_>, left: Spot) -> Result<SimpleType, Fault>
        ensures { let names = self.now.names.now
            in Reads ((spec.type_parts names (spec.type_tree names self.now.depth) left).run
            tokens.old) result tokens.new }
    {
        let parts = self.maybe_types(tokens)?;
        let right = tokens.mark(Mark::CloseParen)?;
        Ok(SimpleType::Parts { left, parts, right })
    }

    #[cycle(types)]
    #[tactic(auto, unfolding(crate::specs::Types::maybe_types))]
    fn maybe_types(&self, tokens: &mut Cursor<'_>) -> Result<Option<TypeList>, Fault>
        ensures { let names = self.now.names.now
            in Reads ((spec.maybe_types names (spec.type_tree names self.now.depth)).run tokens.old)
            result tokens.new }
    {
        if tokens.sees_mark(Mark::CloseParen) {
            Ok(None)
        } else {
            Ok(Some(self.type_list(tokens)?))
        }
    }

    #[cycle(types)]
    #[tactic(auto, unfolding(crate::specs::Types::type_list))]
    fn type_list(&self, tokens: &mut Cursor<'_>) -> Result<TypeList, Fault>
        ensures { let names = self.now.names.now
            in Reads ((spec.type_list names (spec.type_tree names self.now.depth)).parser.run
            tokens.old) result tokens.new }
    {
        let first = Boxed::new(self.alloc, self.type_tree(tokens)?)?;
        let others = self.next_types(tokens)?;
        Ok(TypeList { first, others })
    }

    #[cycle(types)]
    fn next_types(&self, tokens: &mut Cursor<'_>) -> Result<List<NextType>, Fault>
        ensures { let names = self.now.names.now
            in Reads ((spec.next_types names (spec.type_tree names self.now.depth)).run tokens.old)
            result tokens.new }
    {
        let mut found = List::new(self.alloc);
        for _turn in 0..self.depth {
            if !tokens.sees_mark(Mark::Comma) {
                return Ok(found);
            }
            add(&mut found, self.next_type(tokens)?)?;
        }
        Err(Fault::TooDeep)
    }

    #[cycle(types)]
    #[tactic(auto, unfolding(crate::specs::Types::next_type))]
    fn next_type(&self, tokens: &mut Cursor<'_>) -> Result<NextType, Fault>
        ensures { let names = self.now.names.now
            in Reads ((spec.next_type names (spec.type_tree names self.now.depth)).parser.run
            tokens.old) result tokens.new }
    {
        let comma = tokens.mark(Mark::Comma)?;
        let ty = self.type_tree(tokens)?;
        Ok(NextType { comma, ty })
    }

    /// What follows the name of a parameter: `:` and a type.
    #[tactic(auto, unfolding(crate::specs::Types::typed))]
    pub fn typed(&self, tokens: &mut Cursor<'_>, name: Name) -> Result<Parameter, Fault>
        ensures { Reads ((spec.typed self.now.names.now self.now.depth name).run tokens.old) result
            tokens.new }
    {
        let colon = tokens.colon()?;
        let ty = self.type_tree(tokens)?;
        Ok(Parameter { name, colon, ty })
    }

    /// A parameter.
    #[tactic(auto, unfolding(crate::specs::Types::parameter))]
    pub fn parameter(&self, tokens: &mut Cursor<'_>) -> Result<Parameter, Fault>
        ensures { Reads ((spec.parameter self.now.names.now self.now.depth).parser.run tokens.old)
            result tokens.new }
    {
        let name = tokens.name()?;
        self.typed(tokens, name)
    }

    /// A further parameter, with the comma before it.
    #[tactic(auto, unfolding(crate::specs::Types::next_parameter))]
    pub fn next_parameter(&self, tokens: &mut Cursor<'_>) -> Result<NextParameter, Fault>
        ensures { Reads
            ((spec.next_parameter self.now.names.now self.now.depth).parser.run tokens.old) result
            tokens.new }
    {
        let comma = tokens.mark(Mark::Comma)?;
        let parameter = self.parameter(tokens)?;
        Ok(NextParameter { comma, parameter })
    }

    fn next_parameters(&self, tokens: &mut Cursor<'_>) -> Result<List<NextParameter>, Fault>
        ensures { Reads ((spec.next_parameters self.now.names.now self.now.depth).run tokens.old)
            result tokens.new }
    {
        let mut found = List::new(self.alloc);
        for _turn in 0..self.depth {
            if !tokens.sees_mark(Mark::Comma) {
                return Ok(found);
            }
            add(&mut found, self.next_parameter(tokens)?)?;
        }
        Err(Fault::TooDeep)
    }

    /// A parameter and those behind it, each after a comma.
    #[tactic(auto, unfolding(crate::specs::Types::parameters))]
    pub fn parameters(&self, tokens: &mut Cursor<'_>) -> Result<Parameters, Fault>
        ensures { Reads ((spec.parameters self.now.names.now self.now.depth).parser.run tokens.old)
            result tokens.new }
    {
        let first = self.parameter(tokens)?;
        let others = self.next_parameters(tokens)?;
        Ok(Parameters { first, others })
    }

    /// Parameters, or none before `)`.
    #[tactic(auto, unfolding(crate::specs::Types::maybe_parameters))]
    pub fn maybe_parameters(&self, tokens: &mut Cursor<'_>) -> Result<Option<Parameters>, Fault>
        ensures { Reads ((spec.maybe_parameters self.now.names.now self.now.depth).run tokens.old)
            result tokens.new }
    {
        if tokens.sees_mark(Mark::CloseParen) {
            Ok(None)
        } else {
            Ok(Some(self.parameters(tokens)?))
        }
    }
}
