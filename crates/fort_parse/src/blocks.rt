//! Reading blocks, and the parts of the forms that end with `end`.
ghost use Rattle.std.specs.Prelude.{◌≡◌};
ghost use Rattle.fort_tree.specs.declared.delimited.CaseClause.{out-CaseClause};
ghost use Rattle.fort_tree.specs.declared.delimited.TypeClause.{out-TypeClause};
ghost use Rattle.fort_parse_reading.specs.Parser.{Reads};
ghost use Rattle.fort_parse.specs.Blocks as block_spec;
ghost use Rattle.fort_parse.specs.Runs.{run_at};
ghost use Rattle.fort_parse.specs.Nests.{Nests};

use crate::grammar::Grammar;
use fort_base::{Boxed, Bytes, List};
use fort_lex_token::{Mark, Reserved};
use fort_parse_first::{
    PlainNames, begins_case_clause, begins_else, begins_item, begins_type_clause, plain_name,
    plain_names, sees_head, semicolon,
};
use fort_parse_reading::{Cursor, Fault, add};
use fort_tree::{
    Also, Block, BlockItem, CaseClause, Catch, Elif, ElseBlock, ElseClause, Expr, Finally, Item,
    Name, NextGenerator, Operand, Run, Spot, TypeClause, TypeTree, Variable,
};
use std::alloc::Global;

/// Whether there is a `;` behind the last of these clauses.
pub fn case_ended(clauses: &[CaseClause]) -> bool
    ensures { result ≡ block_spec.last_ended (λ c. (out-CaseClause c).semicolon) clauses.now }
{
    match clauses {
        [.., last] => last.semicolon.is_some(),
        [] => false,
    }
}

/// Whether there is a `;` behind the last of these clauses.
pub fn type_ended(clauses: &[TypeClause]) -> bool
    ensures { result ≡ block_spec.last_ended (λ c. (out-TypeClause c).semicolon) clauses.now }
{
    match clauses {
        [.., last] => last.semicolon.is_some(),
        [] => false,
    }
}

impl<F: Fn(Global, &[Bytes], usize, usize, &mut Cursor<'_>, bool) -> Result<Run, Fault>> Grammar<
    '_,
    F,
> {
    #[tactic(auto, unfolding(crate::specs::Blocks::initialised))]
    fn initialised(
        &self,
        tokens: &mut Cursor<'_>,
        var: Option<Spot>,
        name: Name,
        colon: Spot,
        ty: TypeTree,
    ) -> Result<Variable, Fault>
        requires { Nests self.now.names.now self.now.depth (F.pre self.now.inner)
            (F.post self.now.inner) }
        ensures { Reads
            ((block_spec.initialised self.now.names.now (run_at self.now.names.now self.now.depth)
            var name colon ty).run tokens.old) result tokens.new }
    {
        let sign = tokens.initial_sign()?;
        let value = self.expr(tokens, false)?;
        Ok(Variable {
            var,
            name,
            colon,
            ty,
            sign,
            value,
        })
    }

    #[tactic(auto, unfolding(crate::specs::Blocks::variable_from))]
    pub fn variable_from(
        &self,
        tokens: &mut Cursor<'_>,
        var: Option<Spot>,
        name: Name,
    ) -> Result<Variable, Fault>
        requires { Nests self.now.names.now self.now.depth (F.pre self.now.inner)
            (F.post self.now.inner) }
        ensures { Reads
            ((block_spec.variable_from self.now.names.now (run_at self.now.names.now self.now.depth)
            var name).run tokens.old) result tokens.new }
    {
        let colon = tokens.colon()?;
        let ty = self.types().type_tree(tokens)?;
        self.initialised(tokens, var, name, colon, ty)
    }

    #[tactic(auto, unfolding(crate::specs::Blocks::var_item))]
    fn var_item(&self, tokens: &mut Cursor<'_>) -> Result<Item, Fault>
        requires { Nests self.now.names.now self.now.depth (F.pre self.now.inner)
            (F.post self.now.inner) }
        ensures { Reads
            ((block_spec.var_item self.now.names.now
            (run_at self.now.names.now self.now.depth)).parser.run tokens.old) result
            tokens.new }
    {
        let var = tokens.word(Reserved::Var)?;
        let name = tokens.name()?;
        let variable = self.variable_from(tokens, Some(var), name)?;
        Ok(Item::Variable(Boxed::new(self.alloc, variable)?))
    }

    #[tactic(auto, unfolding(crate::specs::Blocks::names_from))]
    fn names_from(&self, tokens: &mut Cursor<'_>, names: PlainNames) -> Result<Item, Fault>
        requires { Nests self.now.names.now self.now.depth (F.pre self.now.inner)
            (F.post self.now.inner) }
        ensures { Reads
            ((block_spec.names_from self.now.names.now (run_at self.now.names.now self.now.depth)
            names).run tokens.old) result tokens.new }
    {
        let colon = tokens.colon()?;
        let ty = Boxed::new(self.alloc, self.types().type_tree(tokens)?)?;
        let equals = tokens.equals()?;
        let value = Boxed::new(self.alloc, self.expr(tokens, false)?)?;
        Ok(Item::Names {
            left: names.left,
            first: names.first,
            others: names.others,
            right: names.right,
            colon,
            ty,
            equals,
            value,
        })
    }

    #[tactic(auto, unfolding(crate::specs::Blocks::flat_item))]
    fn flat_item(&self, tokens: &mut Cursor<'_>, first: Operand) -> Result<Item, Fault>
        requires { Nests self.now.names.now self.now.depth (F.pre self.now.inner)
            (F.post self.now.inner) }
        ensures { Reads
            ((block_spec.flat_item self.now.names.now (run_at self.now.names.now self.now.depth)
            first).run tokens.old) result tokens.new }
    {
        let expr = self.expr_from(tokens, false, first)?;
        Ok(Item::Expr(expr))
    }

    #[tactic(auto, unfolding(crate::specs::Blocks::declared))]
    fn declared(&self, tokens: &mut Cursor<'_>, first: Operand) -> Result<Item, Fault>
        requires { Nests self.now.names.now self.now.depth (F.pre self.now.inner)
            (F.post self.now.inner) }
        ensures { Reads
            ((block_spec.declared self.now.names.now (run_at self.now.names.now self.now.depth)
            first).run tokens.old) result tokens.new }
    {
        if let Some(name) = plain_name(&first) {
            let variable = self.variable_from(tokens, None, name)?;
            return Ok(Item::Variable(Boxed::new(self.alloc, variable)?));
        }
        match plain_names(self.alloc, &first)? {
            Some(names) => self.names_from(tokens, names),
            None => self.flat_item(tokens, first),
        }
    }

    #[tactic(auto, unfolding(crate::specs::Blocks::item_from))]
    fn item_from(&self, tokens: &mut Cursor<'_>, first: Operand) -> Result<Item, Fault>
        requires { Nests self.now.names.now self.now.depth (F.pre self.now.inner)
            (F.post self.now.inner) }
        ensures { Reads
            ((block_spec.item_from self.now.names.now (run_at self.now.names.now self.now.depth)
            first).run tokens.old) result tokens.new }
    {
        if tokens.sees_range() {
            self.declared(tokens, first)
        } else {
            self.flat_item(tokens, first)
        }
    }

    #[tactic(auto, unfolding(crate::specs::Blocks::head_item))]
    fn head_item(&self, tokens: &mut Cursor<'_>) -> Result<Item, Fault>
        requires { Nests self.now.names.now self.now.depth (F.pre self.now.inner)
            (F.post self.now.inner) }
        ensures { Reads
            ((block_spec.head_item self.now.names.now
            (run_at self.now.names.now self.now.depth)).parser.run tokens.old) result
            tokens.new }
    {
        let head = Boxed::new(self.alloc, self.head(tokens)?)?;
        let expr = self.opened(tokens, head)?;
        Ok(Item::Expr(expr))
    }

    #[tactic(auto, unfolding(crate::specs::Blocks::item))]
    fn item(&self, tokens: &mut Cursor<'_>) -> Result<Item, Fault>
        requires { Nests self.now.names.now self.now.depth (F.pre self.now.inner)
            (F.post self.now.inner) }
        ensures { Reads
            ((block_spec.item self.now.names.now
            (run_at self.now.names.now self.now.depth)).parser.run tokens.old) result
            tokens.new }
    {
        if tokens.sees_word(Reserved::Var) {
            return self.var_item(tokens);
        }
        if sees_head(tokens.next()) {
            return self.head_item(tokens);
        }
        let first = self.operand(tokens, true)?;
        self.item_from(tokens, first)
    }

    #[tactic(auto, unfolding(crate::specs::Blocks::block_item))]
    fn block_item(&self, tokens: &mut Cursor<'_>) -> Result<BlockItem, Fault>
        requires { Nests self.now.names.now self.now.depth (F.pre self.now.inner)
            (F.post self.now.inner) }
        ensures { Reads
            ((block_spec.block_item self.now.names.now
            (run_at self.now.names.now self.now.depth)).parser.run tokens.old) result
            tokens.new }
    {
        let item = self.item(tokens)?;
        let semicolon = semicolon(tokens)?;
        Ok(BlockItem { item, semicolon })
    }

    pub fn block(&self, tokens: &mut Cursor<'_>) -> Result<Block, Fault>
        requires { Nests self.now.names.now self.now.depth (F.pre self.now.inner)
            (F.post self.now.inner) }
        ensures { Reads
            ((block_spec.block self.now.names.now (run_at self.now.names.now self.now.depth)).run
            tokens.old) result tokens.new }
    {
        let mut found = List::new(self.alloc);
        let mut ready = true;
        for _turn in 0..self.depth {
            if !begins_item(ready, tokens.next()) {
                return Ok(found);
            }
            let item = self.block_item(tokens)?;
            ready = item.semicolon.is_some();
            add(&mut found, item)?;
        }
        Err(Fault::TooDeep)
    }

    #[tactic(auto, unfolding(crate::specs::Blocks::case_clause))]
    fn case_clause(&self, tokens: &mut Cursor<'_>) -> Result<CaseClause, Fault>
        requires { Nests self.now.names.now self.now.depth (F.pre self.now.inner)
            (F.post self.now.inner) }
        ensures { Reads
            ((block_spec.case_clause self.now.names.now
            (run_at self.now.names.now self.now.depth)).parser.run tokens.old) result
            tokens.new }
    {
        let subject = self.flat(tokens, true)?;
        let arrow = tokens.mark(Mark::DoubleArrow)?;
        let value = self.expr(tokens, false)?;
        let semicolon = semicolon(tokens)?;
        Ok(CaseClause {
            subject,
            arrow,
            value,
            semicolon,
        })
    }

    fn case_list(&self, tokens: &mut Cursor<'_>) -> Result<List<CaseClause>, Fault>
        requires { Nests self.now.names.now self.now.depth (F.pre self.now.inner)
            (F.post self.now.inner) }
        ensures { Reads
            ((block_spec.case_list self.now.names.now
            (run_at self.now.names.now self.now.depth)).run tokens.old) result tokens.new }
    {
        let mut found = List::new(self.alloc);
        let mut ready = true;
        for _turn in 0..self.depth {
            if !begins_case_clause(ready, tokens.next()) {
                return Ok(found);
            }
            let clause = self.case_clause(tokens)?;
            ready = clause.semicolon.is_some();
            add(&mut found, clause)?;
        }
        Err(Fault::TooDeep)
    }

    #[tactic(auto, unfolding(crate::specs::Blocks::case_clauses))]
    pub fn case_clauses(&self, tokens: &mut Cursor<'_>) -> Result<List<CaseClause>, Fault>
        requires { Nests self.now.names.now self.now.depth (F.pre self.now.inner)
            (F.post self.now.inner) }
        ensures { Reads
            ((block_spec.case_clauses self.now.names.now
            (run_at self.now.names.now self.now.depth)).run tokens.old) result tokens.new }
    {
        let clauses = self.case_list(tokens)?;
        if clauses.is_empty() {
            return Err(Fault::Syntax);
        }
        Ok(clauses)
    }

    #[tactic(auto, unfolding(crate::specs::Blocks::type_clause))]
    fn type_clause(&self, tokens: &mut Cursor<'_>) -> Result<TypeClause, Fault>
        requires { Nests self.now.names.now self.now.depth (F.pre self.now.inner)
            (F.post self.now.inner) }
        ensures { Reads
            ((block_spec.type_clause self.now.names.now
            (run_at self.now.names.now self.now.depth)).parser.run tokens.old) result
            tokens.new }
    {
        let ty = self.types().type_tree(tokens)?;
        let arrow = tokens.mark(Mark::DoubleArrow)?;
        let value = self.expr(tokens, false)?;
        let semicolon = semicolon(tokens)?;
        Ok(TypeClause {
            ty,
            arrow,
            value,
            semicolon,
        })
    }

    fn type_clause_list(&self, tokens: &mut Cursor<'_>) -> Result<List<TypeClause>, Fault>
        requires { Nests self.now.names.now self.now.depth (F.pre self.now.inner)
            (F.post self.now.inner) }
        ensures { Reads
            ((block_spec.type_clause_list self.now.names.now
            (run_at self.now.names.now self.now.depth)).run tokens.old) result tokens.new }
    {
        let mut found = List::new(self.alloc);
        let mut ready = true;
        for _turn in 0..self.depth {
            if !begins_type_clause(ready, tokens.next()) {
                return Ok(found);
            }
            let clause = self.type_clause(tokens)?;
            ready = clause.semicolon.is_some();
            add(&mut found, clause)?;
        }
        Err(Fault::TooDeep)
    }

    #[tactic(auto, unfolding(crate::specs::Blocks::type_clauses))]
    pub fn type_clauses(&self, tokens: &mut Cursor<'_>) -> Result<List<TypeClause>, Fault>
        requires { Nests self.now.names.now self.now.depth (F.pre self.now.inner)
            (F.post self.now.inner) }
        ensures { Reads
            ((block_spec.type_clauses self.now.names.now
            (run_at self.now.names.now self.now.depth)).run tokens.old) result tokens.new }
    {
        let clauses = self.type_clause_list(tokens)?;
        if clauses.is_empty() {
            return Err(Fault::Syntax);
        }
        Ok(clauses)
    }

    #[tactic(auto, unfolding(crate::specs::Blocks::else_from))]
    fn else_from(
        &self,
        tokens: &mut Cursor<'_>,
        semicolon: Option<Spot>,
    ) -> Result<Option<Boxed<ElseClause>>, Fault>
        requires { Nests self.now.names.now self.now.depth (F.pre self.now.inner)
            (F.post self.now.inner) }
        ensures { Reads
            ((block_spec.else_from self.now.names.now (run_at self.now.names.now self.now.depth)
            semicolon).run tokens.old) result tokens.new }
    {
        let else_ = tokens.word(Reserved::Else)?;
        let arrow = tokens.mark(Mark::DoubleArrow)?;
        let value = self.expr(tokens, false)?;
        let clause = ElseClause {
            semicolon,
            else_,
            arrow,
            value,
        };
        Ok(Some(Boxed::new(self.alloc, clause)?))
    }

    #[tactic(auto, unfolding(crate::specs::Blocks::second_else))]
    fn second_else(&self, tokens: &mut Cursor<'_>) -> Result<Option<Boxed<ElseClause>>, Fault>
        requires { Nests self.now.names.now self.now.depth (F.pre self.now.inner)
            (F.post self.now.inner) }
        ensures { Reads
            ((block_spec.second_else self.now.names.now
            (run_at self.now.names.now self.now.depth)).run tokens.old) result tokens.new }
    {
        let second = tokens.mark(Mark::Semicolon)?;
        self.else_from(tokens, Some(second))
    }

    #[tactic(auto, unfolding(crate::specs::Blocks::else_clause))]
    pub fn else_clause(
        &self,
        tokens: &mut Cursor<'_>,
        ended: bool,
    ) -> Result<Option<Boxed<ElseClause>>, Fault>
        requires { Nests self.now.names.now self.now.depth (F.pre self.now.inner)
            (F.post self.now.inner) }
        ensures { Reads
            ((block_spec.else_clause self.now.names.now (run_at self.now.names.now self.now.depth)
            ended).run tokens.old) result tokens.new }
    {
        if ended && tokens.sees_mark(Mark::Semicolon) {
            self.second_else(tokens)
        } else if begins_else(ended, tokens.next()) {
            self.else_from(tokens, None)
        } else {
            Ok(None)
        }
    }

    #[tactic(auto, unfolding(crate::specs::Blocks::also_block))]
    fn also_block(&self, tokens: &mut Cursor<'_>) -> Result<Also, Fault>
        requires { Nests self.now.names.now self.now.depth (F.pre self.now.inner)
            (F.post self.now.inner) }
        ensures { Reads
            ((block_spec.also_block self.now.names.now
            (run_at self.now.names.now self.now.depth)).parser.run tokens.old) result
            tokens.new }
    {
        let also = tokens.word(Reserved::Also)?;
        let do_ = tokens.word(Reserved::Do)?;
        let block = self.block(tokens)?;
        Ok(Also { also, do_, block })
    }

    pub fn also_blocks(&self, tokens: &mut Cursor<'_>) -> Result<List<Also>, Fault>
        requires { Nests self.now.names.now self.now.depth (F.pre self.now.inner)
            (F.post self.now.inner) }
        ensures { Reads
            ((block_spec.also_blocks self.now.names.now
            (run_at self.now.names.now self.now.depth)).run tokens.old) result tokens.new }
    {
        let mut found = List::new(self.alloc);
        for _turn in 0..self.depth {
            if !tokens.sees_word(Reserved::Also) {
                return Ok(found);
            }
            add(&mut found, self.also_block(tokens)?)?;
        }
        Err(Fault::TooDeep)
    }

    #[tactic(auto, unfolding(crate::specs::Blocks::elif))]
    fn elif(&self, tokens: &mut Cursor<'_>) -> Result<Elif, Fault>
        requires { Nests self.now.names.now self.now.depth (F.pre self.now.inner)
            (F.post self.now.inner) }
        ensures { Reads
            ((block_spec.elif self.now.names.now
            (run_at self.now.names.now self.now.depth)).parser.run tokens.old) result
            tokens.new }
    {
        let elif = tokens.word(Reserved::Elif)?;
        let condition = self.flat(tokens, true)?;
        let then = tokens.word(Reserved::Then)?;
        let block = self.block(tokens)?;
        Ok(Elif {
            elif,
            condition,
            then,
            block,
        })
    }

    pub fn elifs(&self, tokens: &mut Cursor<'_>) -> Result<List<Elif>, Fault>
        requires { Nests self.now.names.now self.now.depth (F.pre self.now.inner)
            (F.post self.now.inner) }
        ensures { Reads
            ((block_spec.elifs self.now.names.now (run_at self.now.names.now self.now.depth)).run
            tokens.old) result tokens.new }
    {
        let mut found = List::new(self.alloc);
        for _turn in 0..self.depth {
            if !tokens.sees_word(Reserved::Elif) {
                return Ok(found);
            }
            add(&mut found, self.elif(tokens)?)?;
        }
        Err(Fault::TooDeep)
    }

    #[tactic(auto, unfolding(crate::specs::Blocks::else_block))]
    pub fn else_block(&self, tokens: &mut Cursor<'_>) -> Result<Option<ElseBlock>, Fault>
        requires { Nests self.now.names.now self.now.depth (F.pre self.now.inner)
            (F.post self.now.inner) }
        ensures { Reads
            ((block_spec.else_block self.now.names.now
            (run_at self.now.names.now self.now.depth)).run tokens.old) result tokens.new }
    {
        if tokens.sees_word(Reserved::Else) {
            let else_ = tokens.word(Reserved::Else)?;
            let block = self.block(tokens)?;
            Ok(Some(ElseBlock { else_, block }))
        } else {
            Ok(None)
        }
    }

    #[tactic(auto, unfolding(crate::specs::Blocks::catch_from))]
    fn catch_from(&self, tokens: &mut Cursor<'_>) -> Result<Option<Catch>, Fault>
        requires { Nests self.now.names.now self.now.depth (F.pre self.now.inner)
            (F.post self.now.inner) }
        ensures { Reads
            ((block_spec.catch_from self.now.names.now
            (run_at self.now.names.now self.now.depth)).run tokens.old) result tokens.new }
    {
        let catch = tokens.word(Reserved::Catch)?;
        let name = tokens.name()?;
        let clauses = self.type_clauses(tokens)?;
        Ok(Some(Catch {
            catch,
            name,
            clauses,
        }))
    }

    #[tactic(auto, unfolding(crate::specs::Blocks::catch))]
    pub fn catch(&self, tokens: &mut Cursor<'_>) -> Result<Option<Catch>, Fault>
        requires { Nests self.now.names.now self.now.depth (F.pre self.now.inner)
            (F.post self.now.inner) }
        ensures { Reads
            ((block_spec.catch self.now.names.now (run_at self.now.names.now self.now.depth)).run
            tokens.old) result tokens.new }
    {
        if tokens.sees_word(Reserved::Catch) {
            self.catch_from(tokens)
        } else {
            Ok(None)
        }
    }

    #[tactic(auto, unfolding(crate::specs::Blocks::finally))]
    pub fn finally(&self, tokens: &mut Cursor<'_>, optional: bool) -> Result<Option<Finally>, Fault>
        requires { Nests self.now.names.now self.now.depth (F.pre self.now.inner)
            (F.post self.now.inner) }
        ensures { Reads
            ((block_spec.finally self.now.names.now (run_at self.now.names.now self.now.depth)
            optional).run tokens.old) result tokens.new }
    {
        if tokens.sees_word(Reserved::Finally) {
            let finally = tokens.word(Reserved::Finally)?;
            let block = self.block(tokens)?;
            Ok(Some(Finally { finally, block }))
        } else if optional {
            Ok(None)
        } else {
            Err(Fault::Syntax)
        }
    }

    #[tactic(auto, unfolding(crate::specs::Blocks::next_generator))]
    fn next_generator(&self, tokens: &mut Cursor<'_>) -> Result<NextGenerator, Fault>
        requires { Nests self.now.names.now self.now.depth (F.pre self.now.inner)
            (F.post self.now.inner) }
        ensures { Reads
            ((block_spec.next_generator self.now.names.now
            (run_at self.now.names.now self.now.depth)).parser.run tokens.old) result
            tokens.new }
    {
        let comma = tokens.mark(Mark::Comma)?;
        let generator = self.generator(tokens, false)?;
        Ok(NextGenerator { comma, generator })
    }

    pub fn next_generators(&self, tokens: &mut Cursor<'_>) -> Result<List<NextGenerator>, Fault>
        requires { Nests self.now.names.now self.now.depth (F.pre self.now.inner)
            (F.post self.now.inner) }
        ensures { Reads
            ((block_spec.next_generators self.now.names.now
            (run_at self.now.names.now self.now.depth)).run tokens.old) result tokens.new }
    {
        let mut found = List::new(self.alloc);
        for _turn in 0..self.depth {
            if !tokens.sees_mark(Mark::Comma) {
                return Ok(found);
            }
            add(&mut found, self.next_generator(tokens)?)?;
        }
        Err(Fault::TooDeep)
    }
}
