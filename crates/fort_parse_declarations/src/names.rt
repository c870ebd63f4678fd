//! The productions of names of types, of the names of functions and of the parameters of objects.

ghost use Rattle.std.specs.Prelude.{◌≡◌};
ghost use Rattle.fort_parse_reading.specs.Parser.{Reads, accept_run};
ghost use Rattle.fort_parse_reading.specs.Words.{sees};
ghost use Rattle.fort_tree.specs.Tokens.{is_name};
ghost use Rattle.fort_parse_declarations.specs.Names as spec;

use crate::syntax::Syntax;
use fort_base::List;
use fort_lex_token::{Kind, Mark, Reserved, Token};
use fort_ops::Op;
use fort_parse_reading::{Cursor, Fault, add, spot_of};
use fort_tree::{
    Comprises, Excludes, Extends, FunctionName, Name, Names, NextName, NextObjectParameter,
    ObjectParameter, ObjectParameterList, ObjectParameters, Sign, Spot,
};

#[tactic(auto, unfolding(crate::specs::Names::declared_of))]
fn declared_of(token: Token) -> Option<Sign>
    ensures { result ≡ spec.declared_of token }
{
    match token.kind {
        Kind::Op(Op::Juxt) => None,
        Kind::Op(op) => Some(Sign {
            op,
            spot: spot_of(&token),
        }),
        _ => None,
    }
}

/// An operator that may be declared.
fn declared_sign(tokens: &mut Cursor<'_>) -> Result<Sign, Fault>
    ensures { Reads (accept_run spec.declared_of tokens.old) result tokens.new }
{
    let Some(next) = tokens.next() else {
        return Err(Fault::Syntax);
    };
    let Some(sign) = declared_of(next) else {
        return Err(Fault::Syntax);
    };
    match sign.op {
        Op::Power => {
            tokens.power()?;
        }
        Op::Not => {
            tokens.prefix()?;
        }
        _ => {
            tokens.sign()?;
        }
    }
    Ok(sign)
}

/// Whether a function with this name may have one parameter.
pub fn takes_one(name: FunctionName) -> bool
    ensures { result ≡ spec.takes_one name }
{
    match name {
        FunctionName::Name(_) => true,
        FunctionName::Operator(_, sign) => matches!(sign.op, Op::Minus | Op::Not),
        FunctionName::Juxtaposition(..) => false,
    }
}

/// Whether a function with this name may have two parameters.
pub fn takes_two(name: FunctionName) -> bool
    ensures { result ≡ spec.takes_two name }
{
    match name {
        FunctionName::Name(_) | FunctionName::Juxtaposition(..) => true,
        FunctionName::Operator(_, sign) => !matches!(sign.op, Op::Juxt | Op::Not),
    }
}

#[tactic(auto, unfolding(fort_parse_reading::specs::Words::sees))]
fn sees_name(next: Option<Token>) -> bool
    ensures { result ≡ sees is_name next }
{
    match next {
        Some(token) => matches!(token.kind, Kind::Name(_)),
        None => false,
    }
}

impl<'a> Syntax<'a> {
    /// The `;` behind a declaration or a member, if one stands there.
    #[tactic(auto, unfolding(crate::specs::Names::semicolon))]
    pub fn semicolon(&self, tokens: &mut Cursor<'_>) -> Result<Option<Spot>, Fault>
        ensures { Reads ((spec.semicolon self.now.names.now self.now.depth).run tokens.old) result
            tokens.new }
    {
        if tokens.sees_mark(Mark::Semicolon) {
            Ok(Some(tokens.mark(Mark::Semicolon)?))
        } else {
            Ok(None)
        }
    }

    #[tactic(auto, unfolding(crate::specs::Names::juxtaposition_name))]
    fn juxtaposition_name(&self, tokens: &mut Cursor<'_>, opr: Spot) -> Result<FunctionName, Fault>
        ensures { Reads
            ((spec.juxtaposition_name self.now.names.now self.now.depth opr).run tokens.old) result
            tokens.new }
    {
        let name = tokens.called(b"juxtaposition", self.names)?;
        Ok(FunctionName::Juxtaposition(opr, name))
    }

    #[tactic(auto, unfolding(crate::specs::Names::operator_name))]
    fn operator_name(&self, tokens: &mut Cursor<'_>, opr: Spot) -> Result<FunctionName, Fault>
        ensures { Reads ((spec.operator_name self.now.names.now self.now.depth opr).run tokens.old)
            result tokens.new }
    {
        let sign = declared_sign(tokens)?;
        Ok(FunctionName::Operator(opr, sign))
    }

    /// What follows `opr`: an operator, or the name `juxtaposition`.
    #[tactic(auto, unfolding(crate::specs::Names::opr_name))]
    pub fn opr_name(&self, tokens: &mut Cursor<'_>, opr: Spot) -> Result<FunctionName, Fault>
        ensures { Reads ((spec.opr_name self.now.names.now self.now.depth opr).run tokens.old)
            result tokens.new }
    {
        if sees_name(tokens.next()) {
            self.juxtaposition_name(tokens, opr)
        } else {
            self.operator_name(tokens, opr)
        }
    }

    #[tactic(auto, unfolding(crate::specs::Names::next_name))]
    fn next_name(&self, tokens: &mut Cursor<'_>) -> Result<NextName, Fault>
        ensures { Reads ((spec.next_name self.now.names.now self.now.depth).parser.run tokens.old)
            result tokens.new }
    {
        let comma = tokens.mark(Mark::Comma)?;
        let name = tokens.name()?;
        Ok(NextName { comma, name })
    }

    fn next_names(&self, tokens: &mut Cursor<'_>) -> Result<List<NextName>, Fault>
        ensures { Reads ((spec.next_names self.now.names.now self.now.depth).run tokens.old) result
            tokens.new }
    {
        let mut found = List::new(self.alloc);
        for _turn in 0..self.depth {
            if !tokens.sees_mark(Mark::Comma) {
                return Ok(found);
            }
            add(&mut found, self.next_name(tokens)?)?;
        }
        Err(Fault::TooDeep)
    }

    #[tactic(auto, unfolding(crate::specs::Names::braces))]
    fn braces(&self, tokens: &mut Cursor<'_>) -> Result<Names, Fault>
        ensures { Reads ((spec.braces self.now.names.now self.now.depth).run tokens.old) result
            tokens.new }
    {
        let left = tokens.mark(Mark::OpenBrace)?;
        let first = tokens.name()?;
        let others = self.next_names(tokens)?;
        let right = tokens.mark(Mark::CloseBrace)?;
        Ok(Names::Braces {
            left,
            first,
            others,
            right,
        })
    }

    /// The name of a type, or names of types in braces.
    #[tactic(auto, unfolding(crate::specs::Names::type_names))]
    pub fn type_names(&self, tokens: &mut Cursor<'_>) -> Result<Names, Fault>
        ensures { Reads ((spec.type_names self.now.names.now self.now.depth).run tokens.old) result
            tokens.new }
    {
        if tokens.sees_mark(Mark::OpenBrace) {
            self.braces(tokens)
        } else {
            Ok(Names::One(tokens.name()?))
        }
    }

    /// `extends` and names, if it stands there.
    #[tactic(auto, unfolding(crate::specs::Names::extends))]
    pub fn extends(&self, tokens: &mut Cursor<'_>) -> Result<Option<Extends>, Fault>
        ensures { Reads ((spec.extends self.now.names.now self.now.depth).run tokens.old) result
            tokens.new }
    {
        if !tokens.sees_word(Reserved::Extends) {
            return Ok(None);
        }
        let extends = tokens.word(Reserved::Extends)?;
        let names = self.type_names(tokens)?;
        Ok(Some(Extends { extends, names }))
    }

    /// `excludes` and names, if it stands there.
    #[tactic(auto, unfolding(crate::specs::Names::excludes))]
    pub fn excludes(&self, tokens: &mut Cursor<'_>) -> Result<Option<Excludes>, Fault>
        ensures { Reads ((spec.excludes self.now.names.now self.now.depth).run tokens.old) result
            tokens.new }
    {
        if !tokens.sees_word(Reserved::Excludes) {
            return Ok(None);
        }
        let excludes = tokens.word(Reserved::Excludes)?;
        let names = self.type_names(tokens)?;
        Ok(Some(Excludes { excludes, names }))
    }

    /// `comprises` and names, if it stands there.
    #[tactic(auto, unfolding(crate::specs::Names::comprises))]
    pub fn comprises(&self, tokens: &mut Cursor<'_>) -> Result<Option<Comprises>, Fault>
        ensures { Reads ((spec.comprises self.now.names.now self.now.depth).run tokens.old) result
            tokens.new }
    {
        if !tokens.sees_word(Reserved::Comprises) {
            return Ok(None);
        }
        let comprises = tokens.word(Reserved::Comprises)?;
        let names = self.type_names(tokens)?;
        Ok(Some(Comprises { comprises, names }))
    }

    #[tactic(auto, unfolding(crate::specs::Names::object_typed))]
    fn object_typed(
        &self,
        tokens: &mut Cursor<'_>,
        var: Option<Spot>,
        name: Name,
    ) -> Result<ObjectParameter, Fault>
        ensures { Reads
            ((spec.object_typed self.now.names.now self.now.depth var name).run tokens.old) result
            tokens.new }
    {
        let colon = tokens.colon()?;
        let ty = self.types().type_tree(tokens)?;
        Ok(ObjectParameter {
            var,
            name,
            colon,
            ty,
        })
    }

    #[tactic(auto, unfolding(crate::specs::Names::var_parameter))]
    fn var_parameter(&self, tokens: &mut Cursor<'_>) -> Result<ObjectParameter, Fault>
        ensures { Reads
            ((spec.var_parameter self.now.names.now self.now.depth).parser.run tokens.old) result
            tokens.new }
    {
        let var = tokens.word(Reserved::Var)?;
        let name = tokens.name()?;
        self.object_typed(tokens, Some(var), name)
    }

    #[tactic(auto, unfolding(crate::specs::Names::object_parameter))]
    fn object_parameter(&self, tokens: &mut Cursor<'_>) -> Result<ObjectParameter, Fault>
        ensures { Reads
            ((spec.object_parameter self.now.names.now self.now.depth).parser.run tokens.old) result
            tokens.new }
    {
        if tokens.sees_word(Reserved::Var) {
            self.var_parameter(tokens)
        } else {
            let name = tokens.name()?;
            self.object_typed(tokens, None, name)
        }
    }

    #[tactic(auto, unfolding(crate::specs::Names::next_object_parameter))]
    fn next_object_parameter(&self, tokens: &mut Cursor<'_>) -> Result<NextObjectParameter, Fault>
        ensures { Reads
            ((spec.next_object_parameter self.now.names.now self.now.depth).parser.run tokens.old)
            result tokens.new }
    {
        let comma = tokens.mark(Mark::Comma)?;
        let parameter = self.object_parameter(tokens)?;
        Ok(NextObjectParameter { comma, parameter })
    }

    fn next_object_parameters(
        &self,
        tokens: &mut Cursor<'_>,
    ) -> Result<List<NextObjectParameter>, Fault>
        ensures { Reads
            ((spec.next_object_parameters self.now.names.now self.now.depth).run tokens.old) result
            tokens.new }
    {
        let mut found = List::new(self.alloc);
        for _turn in 0..self.depth {
            if !tokens.sees_mark(Mark::Comma) {
                return Ok(found);
            }
            add(&mut found, self.next_object_parameter(tokens)?)?;
        }
        Err(Fault::TooDeep)
    }

    #[tactic(auto, unfolding(crate::specs::Names::object_parameter_list))]
    fn object_parameter_list(&self, tokens: &mut Cursor<'_>) -> Result<ObjectParameterList, Fault>
        ensures { Reads
            ((spec.object_parameter_list self.now.names.now self.now.depth).parser.run tokens.old)
            result tokens.new }
    {
        let first = self.object_parameter(tokens)?;
        let others = self.next_object_parameters(tokens)?;
        Ok(ObjectParameterList { first, others })
    }

    #[tactic(auto, unfolding(crate::specs::Names::maybe_object_list))]
    fn maybe_object_list(
        &self,
        tokens: &mut Cursor<'_>,
    ) -> Result<Option<ObjectParameterList>, Fault>
        ensures { Reads ((spec.maybe_object_list self.now.names.now self.now.depth).run tokens.old)
            result tokens.new }
    {
        if tokens.sees_mark(Mark::CloseParen) {
            Ok(None)
        } else {
            Ok(Some(self.object_parameter_list(tokens)?))
        }
    }

    #[tactic(auto, unfolding(crate::specs::Names::object_parens))]
    fn object_parens(&self, tokens: &mut Cursor<'_>) -> Result<Option<ObjectParameters>, Fault>
        ensures { Reads ((spec.object_parens self.now.names.now self.now.depth).run tokens.old)
            result tokens.new }
    {
        let left = tokens.mark(Mark::OpenParen)?;
        let parameters = self.maybe_object_list(tokens)?;
        let right = tokens.mark(Mark::CloseParen)?;
        Ok(Some(ObjectParameters {
            left,
            parameters,
            right,
        }))
    }

    /// The parameters of an object in parentheses, if `(` stands there.
    #[tactic(auto, unfolding(crate::specs::Names::object_parameters))]
    pub fn object_parameters(
        &self,
        tokens: &mut Cursor<'_>,
    ) -> Result<Option<ObjectParameters>, Fault>
        ensures { Reads ((spec.object_parameters self.now.names.now self.now.depth).run tokens.old)
            result tokens.new }
    {
        if tokens.sees_mark(Mark::OpenParen) {
            self.object_parens(tokens)
        } else {
            Ok(None)
        }
    }
}
