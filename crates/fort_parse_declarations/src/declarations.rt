//! The productions of declarations: of traits, of objects, of functions and of variables.

ghost use Rattle.std.specs.Prelude.{◌≡◌};
ghost use Rattle.fort_parse_reading.specs.Parser.{Reads};
ghost use Rattle.fort_parse_declarations.specs.Declarations as spec;

use crate::syntax::Syntax;
use fort_base::List;
use fort_lex_token::{Kind, Mark, Reserved};
use fort_parse_first::{begins_declared, begins_object_entry, begins_trait_entry};
use fort_parse_reading::{Cursor, Fault, add};
use fort_tree::{
    Declaration, Declared, FunctionName, Name, Object, ObjectEntry, ObjectMember, ObjectParameters,
    Spot, Trait, TraitEntry, TraitMember,
};

impl<'a> Syntax<'a> {
    #[tactic(auto, unfolding(crate::specs::Declarations::trait_field))]
    fn trait_field(&self, tokens: &mut Cursor<'_>, name: Name) -> Result<TraitMember, Fault>
        ensures { Reads ((spec.trait_field self.now.names.now self.now.depth name).run tokens.old)
            result tokens.new }
    {
        let colon = tokens.colon()?;
        let ty = self.types().type_tree(tokens)?;
        Ok(TraitMember::Field { name, colon, ty })
    }

    #[tactic(auto, unfolding(crate::specs::Declarations::trait_operator))]
    fn trait_operator(&self, tokens: &mut Cursor<'_>) -> Result<TraitMember, Fault>
        ensures { Reads
            ((spec.trait_operator self.now.names.now self.now.depth).parser.run tokens.old) result
            tokens.new }
    {
        let opr = tokens.word(Reserved::Opr)?;
        let name = self.opr_name(tokens, opr)?;
        let method = self.operator_method_from(tokens, true, name)?;
        Ok(TraitMember::Method(method))
    }

    #[tactic(auto, unfolding(crate::specs::Declarations::trait_named))]
    fn trait_named(&self, tokens: &mut Cursor<'_>, name: Name) -> Result<TraitMember, Fault>
        ensures { Reads ((spec.trait_named self.now.names.now self.now.depth name).run tokens.old)
            result tokens.new }
    {
        if tokens.sees_mark(Mark::OpenParen) {
            let method = self.method_from(tokens, true, FunctionName::Name(name))?;
            Ok(TraitMember::Method(method))
        } else {
            self.trait_field(tokens, name)
        }
    }

    #[tactic(auto, unfolding(crate::specs::Declarations::trait_member_at))]
    fn trait_member_at(&self, tokens: &mut Cursor<'_>) -> Result<TraitMember, Fault>
        ensures { Reads
            ((spec.trait_member_at self.now.names.now self.now.depth).parser.run tokens.old) result
            tokens.new }
    {
        if tokens.sees_word(Reserved::Opr) {
            self.trait_operator(tokens)
        } else {
            let name = tokens.name()?;
            self.trait_named(tokens, name)
        }
    }

    #[tactic(auto, unfolding(crate::specs::Declarations::trait_entry))]
    fn trait_entry(&self, tokens: &mut Cursor<'_>) -> Result<TraitEntry, Fault>
        ensures { Reads ((spec.trait_entry self.now.names.now self.now.depth).parser.run tokens.old)
            result tokens.new }
    {
        let member = self.trait_member_at(tokens)?;
        let semicolon = self.semicolon(tokens)?;
        Ok(TraitEntry { member, semicolon })
    }

    fn trait_entries(&self, tokens: &mut Cursor<'_>) -> Result<List<TraitEntry>, Fault>
        ensures { Reads ((spec.trait_entries self.now.names.now self.now.depth).run tokens.old)
            result tokens.new }
    {
        let mut found = List::new(self.alloc);
        let mut ready = true;
        for _turn in 0..self.depth {
            if !begins_trait_entry(ready, tokens.next()) {
                return Ok(found);
            }
            let entry = self.trait_entry(tokens)?;
            ready = entry.semicolon.is_some();
            add(&mut found, entry)?;
        }
        Err(Fault::TooDeep)
    }

    #[tactic(auto, unfolding(crate::specs::Declarations::trait_from))]
    fn trait_from(&self, tokens: &mut Cursor<'_>, at_trait: Spot) -> Result<Trait, Fault>
        ensures { Reads
            ((spec.trait_from self.now.names.now self.now.depth at_trait).run tokens.old) result
            tokens.new }
    {
        let name = tokens.name()?;
        let extends = self.extends(tokens)?;
        let excludes = self.excludes(tokens)?;
        let comprises = self.comprises(tokens)?;
        let members = self.trait_entries(tokens)?;
        let end = tokens.word(Reserved::End)?;
        Ok(Trait {
            trait_: at_trait,
            name,
            extends,
            excludes,
            comprises,
            members,
            end,
        })
    }

    #[tactic(auto, unfolding(crate::specs::Declarations::object_variable))]
    fn object_variable(
        &self,
        tokens: &mut Cursor<'_>,
        var: Option<Spot>,
        name: Name,
    ) -> Result<ObjectMember, Fault>
        ensures { Reads
            ((spec.object_variable self.now.names.now self.now.depth var name).run tokens.old)
            result tokens.new }
    {
        let variable = self.variable(tokens, var, name)?;
        Ok(ObjectMember::Variable(variable))
    }

    #[tactic(auto, unfolding(crate::specs::Declarations::object_var))]
    fn object_var(&self, tokens: &mut Cursor<'_>) -> Result<ObjectMember, Fault>
        ensures { Reads ((spec.object_var self.now.names.now self.now.depth).parser.run tokens.old)
            result tokens.new }
    {
        let var = tokens.word(Reserved::Var)?;
        let name = tokens.name()?;
        self.object_variable(tokens, Some(var), name)
    }

    #[tactic(auto, unfolding(crate::specs::Declarations::object_operator))]
    fn object_operator(&self, tokens: &mut Cursor<'_>) -> Result<ObjectMember, Fault>
        ensures { Reads
            ((spec.object_operator self.now.names.now self.now.depth).parser.run tokens.old) result
            tokens.new }
    {
        let opr = tokens.word(Reserved::Opr)?;
        let name = self.opr_name(tokens, opr)?;
        let method = self.operator_method_from(tokens, false, name)?;
        Ok(ObjectMember::Method(method))
    }

    #[tactic(auto, unfolding(crate::specs::Declarations::object_named))]
    fn object_named(&self, tokens: &mut Cursor<'_>, name: Name) -> Result<ObjectMember, Fault>
        ensures { Reads ((spec.object_named self.now.names.now self.now.depth name).run tokens.old)
            result tokens.new }
    {
        if tokens.sees_mark(Mark::OpenParen) {
            let method = self.method_from(tokens, false, FunctionName::Name(name))?;
            Ok(ObjectMember::Method(method))
        } else {
            self.object_variable(tokens, None, name)
        }
    }

    #[tactic(auto, unfolding(crate::specs::Declarations::object_member_at))]
    fn object_member_at(&self, tokens: &mut Cursor<'_>) -> Result<ObjectMember, Fault>
        ensures { Reads
            ((spec.object_member_at self.now.names.now self.now.depth).parser.run tokens.old) result
            tokens.new }
    {
        if tokens.sees_word(Reserved::Var) {
            self.object_var(tokens)
        } else if tokens.sees_word(Reserved::Opr) {
            self.object_operator(tokens)
        } else {
            let name = tokens.name()?;
            self.object_named(tokens, name)
        }
    }

    #[tactic(auto, unfolding(crate::specs::Declarations::object_entry))]
    fn object_entry(&self, tokens: &mut Cursor<'_>) -> Result<ObjectEntry, Fault>
        ensures { Reads
            ((spec.object_entry self.now.names.now self.now.depth).parser.run tokens.old) result
            tokens.new }
    {
        let member = self.object_member_at(tokens)?;
        let semicolon = self.semicolon(tokens)?;
        Ok(ObjectEntry { member, semicolon })
    }

    fn object_entries(&self, tokens: &mut Cursor<'_>) -> Result<List<ObjectEntry>, Fault>
        ensures { Reads ((spec.object_entries self.now.names.now self.now.depth).run tokens.old)
            result tokens.new }
    {
        let mut found = List::new(self.alloc);
        let mut ready = true;
        for _turn in 0..self.depth {
            if !begins_object_entry(ready, tokens.next()) {
                return Ok(found);
            }
            let entry = self.object_entry(tokens)?;
            ready = entry.semicolon.is_some();
            add(&mut found, entry)?;
        }
        Err(Fault::TooDeep)
    }

    #[tactic(auto, unfolding(crate::specs::Declarations::object_rest))]
    fn object_rest(
        &self,
        tokens: &mut Cursor<'_>,
        at_object: Spot,
        name: Name,
        parameters: Option<ObjectParameters>,
    ) -> Result<Object, Fault>
        ensures { Reads
            ((spec.object_rest self.now.names.now self.now.depth at_object name parameters).run
            tokens.old) result tokens.new }
    {
        let extends = self.extends(tokens)?;
        let members = self.object_entries(tokens)?;
        let end = tokens.word(Reserved::End)?;
        Ok(Object {
            object: at_object,
            name,
            parameters,
            extends,
            members,
            end,
        })
    }

    #[tactic(auto, unfolding(crate::specs::Declarations::object_from))]
    fn object_from(&self, tokens: &mut Cursor<'_>, at_object: Spot) -> Result<Object, Fault>
        ensures { Reads
            ((spec.object_from self.now.names.now self.now.depth at_object).run tokens.old) result
            tokens.new }
    {
        let name = tokens.name()?;
        let parameters = self.object_parameters(tokens)?;
        self.object_rest(tokens, at_object, name, parameters)
    }

    #[tactic(auto, unfolding(crate::specs::Declarations::variable_declaration))]
    fn variable_declaration(
        &self,
        tokens: &mut Cursor<'_>,
        var: Option<Spot>,
        name: Name,
    ) -> Result<Declaration, Fault>
        ensures { Reads
            ((spec.variable_declaration self.now.names.now self.now.depth var name).run tokens.old)
            result tokens.new }
    {
        let variable = self.variable(tokens, var, name)?;
        Ok(Declaration::Variable(variable))
    }

    #[tactic(auto, unfolding(crate::specs::Declarations::var_declaration))]
    fn var_declaration(&self, tokens: &mut Cursor<'_>) -> Result<Declaration, Fault>
        ensures { Reads
            ((spec.var_declaration self.now.names.now self.now.depth).parser.run tokens.old) result
            tokens.new }
    {
        let var = tokens.word(Reserved::Var)?;
        let name = tokens.name()?;
        self.variable_declaration(tokens, Some(var), name)
    }

    #[tactic(auto, unfolding(crate::specs::Declarations::operator_declaration))]
    fn operator_declaration(&self, tokens: &mut Cursor<'_>) -> Result<Declaration, Fault>
        ensures { Reads
            ((spec.operator_declaration self.now.names.now self.now.depth).parser.run tokens.old)
            result tokens.new }
    {
        let opr = tokens.word(Reserved::Opr)?;
        let name = self.opr_name(tokens, opr)?;
        let function = self.operator_from(tokens, name)?;
        Ok(Declaration::Function(function))
    }

    #[tactic(auto, unfolding(crate::specs::Declarations::named_declaration))]
    fn named_declaration(&self, tokens: &mut Cursor<'_>, name: Name) -> Result<Declaration, Fault>
        ensures { Reads
            ((spec.named_declaration self.now.names.now self.now.depth name).run tokens.old) result
            tokens.new }
    {
        if tokens.sees_mark(Mark::OpenParen) {
            let function = self.function_from(tokens, FunctionName::Name(name))?;
            Ok(Declaration::Function(function))
        } else {
            self.variable_declaration(tokens, None, name)
        }
    }

    fn word_declaration(
        &self,
        tokens: &mut Cursor<'_>,
        word: Reserved,
    ) -> Result<Declaration, Fault>
        ensures { Reads
            ((spec.word_declaration self.now.names.now self.now.depth word).parser.run tokens.old)
            result tokens.new }
    {
        match word {
            Reserved::Var => self.var_declaration(tokens),
            Reserved::Opr => self.operator_declaration(tokens),
            Reserved::Trait => {
                let spot = tokens.word(Reserved::Trait)?;
                Ok(Declaration::Trait(self.trait_from(tokens, spot)?))
            }
            Reserved::Object => {
                let spot = tokens.word(Reserved::Object)?;
                Ok(Declaration::Object(self.object_from(tokens, spot)?))
            }
            _ => Err(Fault::Syntax),
        }
    }

    #[tactic(auto, unfolding(crate::specs::Declarations::declaration_at))]
    fn declaration_at(&self, tokens: &mut Cursor<'_>) -> Result<Declaration, Fault>
        ensures { Reads
            ((spec.declaration_at self.now.names.now self.now.depth).parser.run tokens.old) result
            tokens.new }
    {
        let Some(next) = tokens.next() else {
            return Err(Fault::Syntax);
        };
        match next.kind {
            Kind::Word(word) => self.word_declaration(tokens, word),
            Kind::Name(_) => {
                let name = tokens.name()?;
                self.named_declaration(tokens, name)
            }
            _ => Err(Fault::Syntax),
        }
    }

    #[tactic(auto, unfolding(crate::specs::Declarations::declared))]
    fn declared(&self, tokens: &mut Cursor<'_>) -> Result<Declared, Fault>
        ensures { Reads ((spec.declared self.now.names.now self.now.depth).parser.run tokens.old)
            result tokens.new }
    {
        let declaration = self.declaration_at(tokens)?;
        let semicolon = self.semicolon(tokens)?;
        Ok(Declared {
            declaration,
            semicolon,
        })
    }

    /// Declarations, each behind a `;` or on a new line.
    pub fn declarations(&self, tokens: &mut Cursor<'_>) -> Result<List<Declared>, Fault>
        ensures { Reads ((spec.declarations self.now.names.now self.now.depth).run tokens.old)
            result tokens.new }
    {
        let mut found = List::new(self.alloc);
        let mut ready = true;
        for _turn in 0..self.depth {
            if !begins_declared(ready, tokens.next()) {
                return Ok(found);
            }
            let declared = self.declared(tokens)?;
            ready = declared.semicolon.is_some();
            add(&mut found, declared)?;
        }
        Err(Fault::TooDeep)
    }
}
