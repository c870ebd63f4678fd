//! The productions of functions and methods. Where an operator is declared, the number of its
//! parameters and the `self` among them are asked at the token where they can fail first.

ghost use Rattle.std.specs.Prelude.{◌≡◌, ◌||◌};
ghost use Rattle.fort_parse_reading.specs.Parser.{Reads};
ghost use Rattle.fort_parse_declarations.specs.Methods as spec;

use crate::names::{takes_one, takes_two};
use crate::syntax::Syntax;
use fort_base::List;
use fort_lex_token::{Mark, Reserved};
use fort_parse_first::ends_without_body;
use fort_parse_reading::{Cursor, Fault, add, single};
use fort_tree::{
    Function, FunctionName, Method, MethodBody, MethodParameter, MethodParameters,
    NextMethodParameter, NextParameter, Parameters, Spot,
};

fn is_self(parameter: &MethodParameter) -> bool
    ensures { result ≡ spec.is_self parameter.now }
{
    match parameter {
        MethodParameter::Self_(_) => true,
        MethodParameter::Parameter(_) => false,
    }
}

/// Whether there is a `self` up to this parameter, where `seen` says whether there is one before
/// it.
fn has_self(seen: bool, parameter: &MethodParameter) -> bool
    ensures { result ≡ (seen || spec.is_self parameter.now) }
{
    seen || is_self(parameter)
}

impl<'a> Syntax<'a> {
    #[tactic(auto, unfolding(crate::specs::Methods::function_rest))]
    fn function_rest(
        &self,
        tokens: &mut Cursor<'_>,
        name: FunctionName,
        left: Spot,
        parameters: Option<Parameters>,
        right: Spot,
    ) -> Result<Function, Fault>
        ensures { Reads
            ((spec.function_rest self.now.names.now self.now.depth name left parameters right).run
            tokens.old) result tokens.new }
    {
        let colon = tokens.colon()?;
        let result = self.types().type_tree(tokens)?;
        let equals = tokens.equals()?;
        let body = self.expression(tokens)?;
        Ok(Function {
            name,
            left,
            parameters,
            right,
            colon,
            result,
            equals,
            body,
        })
    }

    /// A function behind its name, which is not an operator.
    #[tactic(auto, unfolding(crate::specs::Methods::function_from))]
    pub fn function_from(
        &self,
        tokens: &mut Cursor<'_>,
        name: FunctionName,
    ) -> Result<Function, Fault>
        ensures { Reads ((spec.function_from self.now.names.now self.now.depth name).run tokens.old)
            result tokens.new }
    {
        let left = tokens.mark(Mark::OpenParen)?;
        let parameters = self.types().maybe_parameters(tokens)?;
        let right = tokens.mark(Mark::CloseParen)?;
        self.function_rest(tokens, name, left, parameters, right)
    }

    #[tactic(auto, unfolding(crate::specs::Methods::operator_others))]
    fn operator_others(
        &self,
        tokens: &mut Cursor<'_>,
        name: FunctionName,
    ) -> Result<List<NextParameter>, Fault>
        ensures { Reads
            ((spec.operator_others self.now.names.now self.now.depth name).run tokens.old) result
            tokens.new }
    {
        if takes_two(name) && tokens.sees_mark(Mark::Comma) {
            let next = self.types().next_parameter(tokens)?;
            return Ok(single(self.alloc, next)?);
        }
        if takes_one(name) {
            Ok(List::new(self.alloc))
        } else {
            Err(Fault::Syntax)
        }
    }

    #[tactic(auto, unfolding(crate::specs::Methods::operator_parameters))]
    fn operator_parameters(
        &self,
        tokens: &mut Cursor<'_>,
        name: FunctionName,
    ) -> Result<Parameters, Fault>
        ensures { Reads
            ((spec.operator_parameters self.now.names.now self.now.depth name).run tokens.old)
            result tokens.new }
    {
        let first = self.types().parameter(tokens)?;
        let others = self.operator_others(tokens, name)?;
        Ok(Parameters { first, others })
    }

    /// A function that is an operator, behind its name.
    #[tactic(auto, unfolding(crate::specs::Methods::operator_from))]
    pub fn operator_from(
        &self,
        tokens: &mut Cursor<'_>,
        name: FunctionName,
    ) -> Result<Function, Fault>
        ensures { Reads ((spec.operator_from self.now.names.now self.now.depth name).run tokens.old)
            result tokens.new }
    {
        let left = tokens.mark(Mark::OpenParen)?;
        let parameters = self.operator_parameters(tokens, name)?;
        let right = tokens.mark(Mark::CloseParen)?;
        self.function_rest(tokens, name, left, Some(parameters), right)
    }

    #[tactic(auto, unfolding(crate::specs::Methods::self_parameter))]
    fn self_parameter(&self, tokens: &mut Cursor<'_>) -> Result<MethodParameter, Fault>
        ensures { Reads
            ((spec.self_parameter self.now.names.now self.now.depth).parser.run tokens.old) result
            tokens.new }
    {
        let spot = tokens.word(Reserved::Self_)?;
        Ok(MethodParameter::Self_(spot))
    }

    #[tactic(auto, unfolding(crate::specs::Methods::plain_parameter))]
    fn plain_parameter(&self, tokens: &mut Cursor<'_>) -> Result<MethodParameter, Fault>
        ensures { Reads
            ((spec.plain_parameter self.now.names.now self.now.depth).parser.run tokens.old) result
            tokens.new }
    {
        let parameter = self.types().parameter(tokens)?;
        Ok(MethodParameter::Parameter(parameter))
    }

    #[tactic(auto, unfolding(crate::specs::Methods::method_parameter_at))]
    fn method_parameter_at(
        &self,
        tokens: &mut Cursor<'_>,
        seen: bool,
    ) -> Result<MethodParameter, Fault>
        ensures { Reads
            ((spec.method_parameter_at self.now.names.now self.now.depth seen).parser.run
            tokens.old) result tokens.new }
    {
        if !seen && tokens.sees_word(Reserved::Self_) {
            self.self_parameter(tokens)
        } else {
            self.plain_parameter(tokens)
        }
    }

    #[tactic(auto, unfolding(crate::specs::Methods::next_method_parameter))]
    fn next_method_parameter(
        &self,
        tokens: &mut Cursor<'_>,
        seen: bool,
    ) -> Result<NextMethodParameter, Fault>
        ensures { Reads
            ((spec.next_method_parameter self.now.names.now self.now.depth seen).parser.run
            tokens.old) result tokens.new }
    {
        let comma = tokens.mark(Mark::Comma)?;
        let parameter = self.method_parameter_at(tokens, seen)?;
        Ok(NextMethodParameter { comma, parameter })
    }

    fn next_method_parameters(
        &self,
        tokens: &mut Cursor<'_>,
        seen: bool,
    ) -> Result<List<NextMethodParameter>, Fault>
        ensures { Reads
            ((spec.next_method_parameters self.now.names.now self.now.depth seen).run tokens.old)
            result tokens.new }
    {
        let mut found = List::new(self.alloc);
        let mut behind = seen;
        for _turn in 0..self.depth {
            if !tokens.sees_mark(Mark::Comma) {
                return Ok(found);
            }
            let next = self.next_method_parameter(tokens, behind)?;
            behind = has_self(behind, &next.parameter);
            add(&mut found, next)?;
        }
        Err(Fault::TooDeep)
    }

    #[tactic(auto, unfolding(crate::specs::Methods::method_list))]
    fn method_list(&self, tokens: &mut Cursor<'_>) -> Result<MethodParameters, Fault>
        ensures { Reads ((spec.method_list self.now.names.now self.now.depth).run tokens.old) result
            tokens.new }
    {
        let first = self.method_parameter_at(tokens, false)?;
        let others = self.next_method_parameters(tokens, is_self(&first))?;
        Ok(MethodParameters { first, others })
    }

    #[tactic(auto, unfolding(crate::specs::Methods::maybe_method_list))]
    fn maybe_method_list(&self, tokens: &mut Cursor<'_>) -> Result<Option<MethodParameters>, Fault>
        ensures { Reads ((spec.maybe_method_list self.now.names.now self.now.depth).run tokens.old)
            result tokens.new }
    {
        if tokens.sees_mark(Mark::CloseParen) {
            Ok(None)
        } else {
            Ok(Some(self.method_list(tokens)?))
        }
    }

    #[tactic(auto, unfolding(crate::specs::Methods::plain_second))]
    fn plain_second(&self, tokens: &mut Cursor<'_>) -> Result<List<NextMethodParameter>, Fault>
        ensures { Reads ((spec.plain_second self.now.names.now self.now.depth).run tokens.old)
            result tokens.new }
    {
        let comma = tokens.mark(Mark::Comma)?;
        let parameter = MethodParameter::Parameter(self.types().parameter(tokens)?);
        Ok(single(self.alloc, NextMethodParameter { comma, parameter })?)
    }

    #[tactic(auto, unfolding(crate::specs::Methods::self_second))]
    fn self_second(&self, tokens: &mut Cursor<'_>) -> Result<List<NextMethodParameter>, Fault>
        ensures { Reads ((spec.self_second self.now.names.now self.now.depth).run tokens.old) result
            tokens.new }
    {
        let comma = tokens.mark(Mark::Comma)?;
        let parameter = MethodParameter::Self_(tokens.word(Reserved::Self_)?);
        Ok(single(self.alloc, NextMethodParameter { comma, parameter })?)
    }

    #[tactic(auto, unfolding(crate::specs::Methods::self_first))]
    fn self_first(
        &self,
        tokens: &mut Cursor<'_>,
        name: FunctionName,
    ) -> Result<MethodParameters, Fault>
        ensures { Reads ((spec.self_first self.now.names.now self.now.depth name).run tokens.old)
            result tokens.new }
    {
        let first = MethodParameter::Self_(tokens.word(Reserved::Self_)?);
        let others = if takes_two(name) && tokens.sees_mark(Mark::Comma) {
            self.plain_second(tokens)?
        } else if takes_one(name) {
            List::new(self.alloc)
        } else {
            return Err(Fault::Syntax);
        };
        Ok(MethodParameters { first, others })
    }

    #[tactic(auto, unfolding(crate::specs::Methods::plain_first))]
    fn plain_first(&self, tokens: &mut Cursor<'_>) -> Result<MethodParameters, Fault>
        ensures { Reads ((spec.plain_first self.now.names.now self.now.depth).run tokens.old) result
            tokens.new }
    {
        let first = MethodParameter::Parameter(self.types().parameter(tokens)?);
        let others = self.self_second(tokens)?;
        Ok(MethodParameters { first, others })
    }

    #[tactic(auto, unfolding(crate::specs::Methods::operator_list))]
    fn operator_list(
        &self,
        tokens: &mut Cursor<'_>,
        name: FunctionName,
    ) -> Result<MethodParameters, Fault>
        ensures { Reads ((spec.operator_list self.now.names.now self.now.depth name).run tokens.old)
            result tokens.new }
    {
        if takes_two(name) && !tokens.sees_word(Reserved::Self_) {
            self.plain_first(tokens)
        } else {
            self.self_first(tokens, name)
        }
    }

    #[tactic(auto, unfolding(crate::specs::Methods::with_body))]
    fn with_body(&self, tokens: &mut Cursor<'_>) -> Result<Option<MethodBody>, Fault>
        ensures { Reads ((spec.with_body self.now.names.now self.now.depth).run tokens.old) result
            tokens.new }
    {
        let equals = tokens.equals()?;
        let body = self.expression(tokens)?;
        Ok(Some(MethodBody { equals, body }))
    }

    #[tactic(auto, unfolding(crate::specs::Methods::method_body))]
    fn method_body(
        &self,
        tokens: &mut Cursor<'_>,
        optional: bool,
    ) -> Result<Option<MethodBody>, Fault>
        ensures { Reads
            ((spec.method_body self.now.names.now self.now.depth optional).run tokens.old) result
            tokens.new }
    {
        if ends_without_body(optional, tokens.next()) {
            Ok(None)
        } else {
            self.with_body(tokens)
        }
    }

    #[tactic(auto, unfolding(crate::specs::Methods::method_rest))]
    fn method_rest(
        &self,
        tokens: &mut Cursor<'_>,
        optional: bool,
        name: FunctionName,
        left: Spot,
        parameters: Option<MethodParameters>,
        right: Spot,
    ) -> Result<Method, Fault>
        ensures { Reads
            ((spec.method_rest self.now.names.now self.now.depth optional name left parameters
            right).run tokens.old) result tokens.new }
    {
        let colon = tokens.colon()?;
        let result = self.types().type_tree(tokens)?;
        let body = self.method_body(tokens, optional)?;
        Ok(Method {
            name,
            left,
            parameters,
            right,
            colon,
            result,
            body,
        })
    }

    /// A method behind its name, which is not an operator; its body is optional or not.
    #[tactic(auto, unfolding(crate::specs::Methods::method_from))]
    pub fn method_from(
        &self,
        tokens: &mut Cursor<'_>,
        optional: bool,
        name: FunctionName,
    ) -> Result<Method, Fault>
        ensures { Reads
            ((spec.method_from self.now.names.now self.now.depth optional name).run tokens.old)
            result tokens.new }
    {
        let left = tokens.mark(Mark::OpenParen)?;
        let parameters = self.maybe_method_list(tokens)?;
        let right = tokens.mark(Mark::CloseParen)?;
        self.method_rest(tokens, optional, name, left, parameters, right)
    }

    /// A method that is an operator, behind its name; its body is optional or not.
    #[tactic(auto, unfolding(crate::specs::Methods::operator_method_from))]
    pub fn operator_method_from(
        &self,
        tokens: &mut Cursor<'_>,
        optional: bool,
        name: FunctionName,
    ) -> Result<Method, Fault>
        ensures { Reads
            ((spec.operator_method_from self.now.names.now self.now.depth optional name).run
            tokens.old) result tokens.new }
    {
        let left = tokens.mark(Mark::OpenParen)?;
        let parameters = self.operator_list(tokens, name)?;
        let right = tokens.mark(Mark::CloseParen)?;
        self.method_rest(tokens, optional, name, left, Some(parameters), right)
    }
}
