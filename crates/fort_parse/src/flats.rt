//! Reading flat expressions, generators, heads and expressions.
ghost use Rattle.std.specs.Prelude.{◌≡◌};
ghost use Rattle.fort_parse_reading.specs.Parser.{Reads};
ghost use Rattle.fort_parse.specs.Flats as flats;
ghost use Rattle.fort_parse.specs.Runs.{run_at};
ghost use Rattle.fort_parse.specs.Nests.{Nests};

use crate::grammar::Grammar;
use fort_base::{Boxed, Bytes, List};
use fort_lex_token::{Kind, Mark, Reserved};
use fort_parse_first::{begins_flat_part, sees_assign, sees_head, sees_infix, sees_prefix};
use fort_parse_reading::{Cursor, Fault, add};
use fort_tree::{
    AssignSign, Big, Expr, ExprList, Flat, FlatPart, Generator, Head, Name, NextExpr, Operand, Run,
    Spot,
};
use std::alloc::Global;

impl<F: Fn(Global, &[Bytes], usize, usize, &mut Cursor<'_>, bool) -> Result<Run, Fault>> Grammar<
    '_,
    F,
> {
    #[tactic(auto, unfolding(crate::specs::Flats::prefixed))]
    fn prefixed(&self, tokens: &mut Cursor<'_>, blocks: bool) -> Result<Operand, Fault>
        requires { Nests self.now.names.now self.now.depth (F.pre self.now.inner)
            (F.post self.now.inner) }
        ensures { Reads
            ((flats.prefixed self.now.names.now (run_at self.now.names.now self.now.depth)
            blocks).parser.run tokens.old) result tokens.new }
    {
        let prefix = Some(tokens.prefix()?);
        let run = self.run(tokens, blocks)?;
        Ok(Operand { prefix, run })
    }

    #[tactic(auto, unfolding(crate::specs::Flats::operand))]
    pub fn operand(&self, tokens: &mut Cursor<'_>, blocks: bool) -> Result<Operand, Fault>
        requires { Nests self.now.names.now self.now.depth (F.pre self.now.inner)
            (F.post self.now.inner) }
        ensures { Reads
            ((flats.operand self.now.names.now (run_at self.now.names.now self.now.depth)
            blocks).parser.run tokens.old) result tokens.new }
    {
        if sees_prefix(tokens.next()) {
            return self.prefixed(tokens, blocks);
        }
        let run = self.run(tokens, blocks)?;
        Ok(Operand { prefix: None, run })
    }

    #[tactic(auto, unfolding(crate::specs::Flats::infix_part))]
    fn infix_part(&self, tokens: &mut Cursor<'_>, blocks: bool) -> Result<FlatPart, Fault>
        requires { Nests self.now.names.now self.now.depth (F.pre self.now.inner)
            (F.post self.now.inner) }
        ensures { Reads
            ((flats.infix_part self.now.names.now (run_at self.now.names.now self.now.depth)
            blocks).parser.run tokens.old) result tokens.new }
    {
        let sign = tokens.sign()?;
        let operand = self.operand(tokens, blocks)?;
        Ok(FlatPart::Infix(sign, operand))
    }

    #[tactic(auto, unfolding(crate::specs::Flats::flat_part))]
    fn flat_part(&self, tokens: &mut Cursor<'_>, blocks: bool) -> Result<FlatPart, Fault>
        requires { Nests self.now.names.now self.now.depth (F.pre self.now.inner)
            (F.post self.now.inner) }
        ensures { Reads
            ((flats.flat_part self.now.names.now (run_at self.now.names.now self.now.depth)
            blocks).parser.run tokens.old) result tokens.new }
    {
        if sees_infix(tokens.next()) {
            return self.infix_part(tokens, blocks);
        }
        Ok(FlatPart::Run(self.run(tokens, blocks)?))
    }

    fn flat_parts(
        &self,
        tokens: &mut Cursor<'_>,
        found: List<FlatPart>,
        lines: bool,
        blocks: bool,
    ) -> Result<List<FlatPart>, Fault>
        requires { Nests self.now.names.now self.now.depth (F.pre self.now.inner)
            (F.post self.now.inner) }
        ensures { Reads
            ((flats.flat_parts self.now.names.now (run_at self.now.names.now self.now.depth) found
            lines blocks).run tokens.old) result tokens.new }
    {
        let mut found = found;
        for _turn in 0..self.depth {
            if !begins_flat_part(lines, blocks, tokens.next()) {
                return Ok(found);
            }
            add(&mut found, self.flat_part(tokens, blocks)?)?;
        }
        Err(Fault::TooDeep)
    }

    #[tactic(auto, unfolding(crate::specs::Flats::flat))]
    pub fn flat(&self, tokens: &mut Cursor<'_>, blocks: bool) -> Result<Flat, Fault>
        requires { Nests self.now.names.now self.now.depth (F.pre self.now.inner)
            (F.post self.now.inner) }
        ensures { Reads
            ((flats.flat self.now.names.now (run_at self.now.names.now self.now.depth)
            blocks).parser.run tokens.old) result tokens.new }
    {
        let first = self.operand(tokens, blocks)?;
        let rest = self.flat_parts(tokens, List::new(self.alloc), false, blocks)?;
        Ok(Flat { first, rest })
    }

    #[tactic(auto, unfolding(crate::specs::Flats::sequential))]
    fn sequential(
        &self,
        tokens: &mut Cursor<'_>,
        name: Name,
        arrow: Spot,
    ) -> Result<Generator, Fault>
        requires { Nests self.now.names.now self.now.depth (F.pre self.now.inner)
            (F.post self.now.inner) }
        ensures { Reads
            ((flats.sequential self.now.names.now (run_at self.now.names.now self.now.depth) name
            arrow).run tokens.old) result tokens.new }
    {
        let seq = tokens.word(Reserved::Seq)?;
        let left = tokens.mark(Mark::OpenParen)?;
        let source = self.flat(tokens, true)?;
        let right = tokens.mark(Mark::CloseParen)?;
        Ok(Generator::Sequential {
            name,
            arrow,
            seq,
            left,
            source,
            right,
        })
    }

    #[tactic(auto, unfolding(crate::specs::Flats::parallel))]
    fn parallel(
        &self,
        tokens: &mut Cursor<'_>,
        blocks: bool,
        name: Name,
        arrow: Spot,
    ) -> Result<Generator, Fault>
        requires { Nests self.now.names.now self.now.depth (F.pre self.now.inner)
            (F.post self.now.inner) }
        ensures { Reads
            ((flats.parallel self.now.names.now (run_at self.now.names.now self.now.depth) blocks
            name arrow).run tokens.old) result tokens.new }
    {
        let source = self.flat(tokens, blocks)?;
        Ok(Generator::Parallel {
            name,
            arrow,
            source,
        })
    }

    #[tactic(auto, unfolding(crate::specs::Flats::generator))]
    pub fn generator(&self, tokens: &mut Cursor<'_>, blocks: bool) -> Result<Generator, Fault>
        requires { Nests self.now.names.now self.now.depth (F.pre self.now.inner)
            (F.post self.now.inner) }
        ensures { Reads
            ((flats.generator self.now.names.now (run_at self.now.names.now self.now.depth)
            blocks).parser.run tokens.old) result tokens.new }
    {
        let name = tokens.name()?;
        let arrow = tokens.mark(Mark::LeftArrow)?;
        if tokens.sees_word(Reserved::Seq) {
            self.sequential(tokens, name, arrow)
        } else {
            self.parallel(tokens, blocks, name, arrow)
        }
    }

    #[tactic(auto, unfolding(crate::specs::Flats::reduction))]
    fn reduction(&self, tokens: &mut Cursor<'_>, big: Big) -> Result<Head, Fault>
        requires { Nests self.now.names.now self.now.depth (F.pre self.now.inner)
            (F.post self.now.inner) }
        ensures { Reads
            ((flats.reduction self.now.names.now (run_at self.now.names.now self.now.depth) big).run
            tokens.old) result tokens.new }
    {
        let left = tokens.mark(Mark::OpenBracket)?;
        let generator = self.generator(tokens, true)?;
        let right = tokens.mark(Mark::CloseBracket)?;
        Ok(Head::Big {
            big,
            left,
            generator,
            right,
        })
    }

    #[tactic(auto, unfolding(crate::specs::Flats::big_reduction))]
    fn big_reduction(&self, tokens: &mut Cursor<'_>, spot: Spot) -> Result<Head, Fault>
        requires { Nests self.now.names.now self.now.depth (F.pre self.now.inner)
            (F.post self.now.inner) }
        ensures { Reads
            ((flats.big_reduction self.now.names.now (run_at self.now.names.now self.now.depth)
            spot).run tokens.old) result tokens.new }
    {
        let big = tokens.big_operator(spot)?;
        self.reduction(tokens, big)
    }

    #[tactic(auto, unfolding(crate::specs::Flats::function))]
    fn function(&self, tokens: &mut Cursor<'_>, fn_: Spot) -> Result<Head, Fault>
        requires { Nests self.now.names.now self.now.depth (F.pre self.now.inner)
            (F.post self.now.inner) }
        ensures { Reads
            ((flats.function self.now.names.now (run_at self.now.names.now self.now.depth) fn_).run
            tokens.old) result tokens.new }
    {
        let left = tokens.mark(Mark::OpenParen)?;
        let parameters = self.types().maybe_parameters(tokens)?;
        let right = tokens.mark(Mark::CloseParen)?;
        let arrow = tokens.mark(Mark::DoubleArrow)?;
        Ok(Head::Fn {
            fn_,
            left,
            parameters,
            right,
            arrow,
        })
    }

    #[tactic(auto, unfolding(crate::specs::Flats::head))]
    pub fn head(&self, tokens: &mut Cursor<'_>) -> Result<Head, Fault>
        requires { Nests self.now.names.now self.now.depth (F.pre self.now.inner)
            (F.post self.now.inner) }
        ensures { Reads
            ((flats.head self.now.names.now (run_at self.now.names.now self.now.depth)).parser.run
            tokens.old) result tokens.new }
    {
        let Some(next) = tokens.next() else {
            return Err(Fault::Syntax);
        };
        match next.kind {
            Kind::Word(Reserved::Atomic) => Ok(Head::Atomic(tokens.word(Reserved::Atomic)?)),
            Kind::Word(Reserved::Tryatomic) => Ok(Head::Tryatomic(tokens.word(
                Reserved::Tryatomic,
            )?)),
            Kind::Word(Reserved::Throw) => Ok(Head::Throw(tokens.word(Reserved::Throw)?)),
            Kind::Word(Reserved::Spawn) => Ok(Head::Spawn(tokens.word(Reserved::Spawn)?)),
            Kind::Word(Reserved::Fn) => {
                let fn_ = tokens.word(Reserved::Fn)?;
                self.function(tokens, fn_)
            }
            Kind::Word(Reserved::Sum) => {
                let spot = tokens.word(Reserved::Sum)?;
                self.reduction(tokens, Big::Sum(spot))
            }
            Kind::Word(Reserved::Prod) => {
                let spot = tokens.word(Reserved::Prod)?;
                self.reduction(tokens, Big::Prod(spot))
            }
            Kind::Word(Reserved::Big) => {
                let spot = tokens.word(Reserved::Big)?;
                self.big_reduction(tokens, spot)
            }
            _ => Err(Fault::Syntax),
        }
    }

    #[tactic(auto, unfolding(crate::specs::Flats::open_assign))]
    fn open_assign(
        &self,
        tokens: &mut Cursor<'_>,
        head: Boxed<Head>,
        target: Boxed<Flat>,
    ) -> Result<Expr, Fault>
        requires { Nests self.now.names.now self.now.depth (F.pre self.now.inner)
            (F.post self.now.inner) }
        ensures { Reads
            ((flats.open_assign self.now.names.now (run_at self.now.names.now self.now.depth) head
            target).run tokens.old) result tokens.new }
    {
        let sign = tokens.assign_sign()?;
        let value = Boxed::new(self.alloc, self.flat(tokens, true)?)?;
        Ok(Expr::OpenAssign {
            head,
            target,
            sign,
            value,
        })
    }

    #[tactic(auto, unfolding(crate::specs::Flats::opened))]
    pub fn opened(&self, tokens: &mut Cursor<'_>, head: Boxed<Head>) -> Result<Expr, Fault>
        requires { Nests self.now.names.now self.now.depth (F.pre self.now.inner)
            (F.post self.now.inner) }
        ensures { Reads
            ((flats.opened self.now.names.now (run_at self.now.names.now self.now.depth) head).run
            tokens.old) result tokens.new }
    {
        let body = Boxed::new(self.alloc, self.flat(tokens, true)?)?;
        if sees_assign(tokens.next()) {
            self.open_assign(tokens, head, body)
        } else {
            Ok(Expr::Open { head, body })
        }
    }

    #[tactic(auto, unfolding(crate::specs::Flats::assigned))]
    fn assigned(
        &self,
        tokens: &mut Cursor<'_>,
        target: Boxed<Flat>,
        sign: AssignSign,
    ) -> Result<Expr, Fault>
        requires { Nests self.now.names.now self.now.depth (F.pre self.now.inner)
            (F.post self.now.inner) }
        ensures { Reads
            ((flats.assigned self.now.names.now (run_at self.now.names.now self.now.depth) target
            sign).run tokens.old) result tokens.new }
    {
        if sees_head(tokens.next()) {
            let head = Some(Boxed::new(self.alloc, self.head(tokens)?)?);
            let value = Boxed::new(self.alloc, self.flat(tokens, true)?)?;
            Ok(Expr::Assign {
                target,
                sign,
                head,
                value,
            })
        } else {
            let value = Boxed::new(self.alloc, self.flat(tokens, true)?)?;
            Ok(Expr::Assign {
                target,
                sign,
                head: None,
                value,
            })
        }
    }

    #[tactic(auto, unfolding(crate::specs::Flats::assign))]
    fn assign(&self, tokens: &mut Cursor<'_>, target: Boxed<Flat>) -> Result<Expr, Fault>
        requires { Nests self.now.names.now self.now.depth (F.pre self.now.inner)
            (F.post self.now.inner) }
        ensures { Reads
            ((flats.assign self.now.names.now (run_at self.now.names.now self.now.depth) target).run
            tokens.old) result tokens.new }
    {
        let sign = tokens.assign_sign()?;
        self.assigned(tokens, target, sign)
    }

    #[tactic(auto, unfolding(crate::specs::Flats::flat_more))]
    fn flat_more(
        &self,
        tokens: &mut Cursor<'_>,
        lines: bool,
        first: Operand,
        found: List<FlatPart>,
    ) -> Result<Expr, Fault>
        requires { Nests self.now.names.now self.now.depth (F.pre self.now.inner)
            (F.post self.now.inner) }
        ensures { Reads
            ((flats.flat_more self.now.names.now (run_at self.now.names.now self.now.depth) lines
            first found).run tokens.old) result tokens.new }
    {
        let rest = self.flat_parts(tokens, found, lines, true)?;
        Ok(Expr::Flat(Flat { first, rest }))
    }

    #[tactic(auto, unfolding(crate::specs::Flats::expr_from))]
    pub fn expr_from(
        &self,
        tokens: &mut Cursor<'_>,
        lines: bool,
        first: Operand,
    ) -> Result<Expr, Fault>
        requires { Nests self.now.names.now self.now.depth (F.pre self.now.inner)
            (F.post self.now.inner) }
        ensures { Reads
            ((flats.expr_from self.now.names.now (run_at self.now.names.now self.now.depth) lines
            first).run tokens.old) result tokens.new }
    {
        let rest = self.flat_parts(tokens, List::new(self.alloc), false, true)?;
        if sees_assign(tokens.next()) {
            let target = Boxed::new(self.alloc, Flat { first, rest })?;
            self.assign(tokens, target)
        } else {
            self.flat_more(tokens, lines, first, rest)
        }
    }

    #[tactic(auto, unfolding(crate::specs::Flats::expr))]
    pub fn expr(&self, tokens: &mut Cursor<'_>, lines: bool) -> Result<Expr, Fault>
        requires { Nests self.now.names.now self.now.depth (F.pre self.now.inner)
            (F.post self.now.inner) }
        ensures { Reads
            ((flats.expr self.now.names.now (run_at self.now.names.now self.now.depth)
            lines).parser.run tokens.old) result tokens.new }
    {
        if sees_head(tokens.next()) {
            let head = Boxed::new(self.alloc, self.head(tokens)?)?;
            self.opened(tokens, head)
        } else {
            let first = self.operand(tokens, true)?;
            self.expr_from(tokens, lines, first)
        }
    }

    #[tactic(auto, unfolding(crate::specs::Flats::next_expr))]
    fn next_expr(&self, tokens: &mut Cursor<'_>) -> Result<NextExpr, Fault>
        requires { Nests self.now.names.now self.now.depth (F.pre self.now.inner)
            (F.post self.now.inner) }
        ensures { Reads
            ((flats.next_expr self.now.names.now
            (run_at self.now.names.now self.now.depth)).parser.run tokens.old) result
            tokens.new }
    {
        let comma = tokens.mark(Mark::Comma)?;
        let expr = self.expr(tokens, true)?;
        Ok(NextExpr { comma, expr })
    }

    fn next_exprs(&self, tokens: &mut Cursor<'_>) -> Result<List<NextExpr>, Fault>
        requires { Nests self.now.names.now self.now.depth (F.pre self.now.inner)
            (F.post self.now.inner) }
        ensures { Reads
            ((flats.next_exprs self.now.names.now (run_at self.now.names.now self.now.depth)).run
            tokens.old) result tokens.new }
    {
        let mut found = List::new(self.alloc);
        for _turn in 0..self.depth {
            if !tokens.sees_mark(Mark::Comma) {
                return Ok(found);
            }
            add(&mut found, self.next_expr(tokens)?)?;
        }
        Err(Fault::TooDeep)
    }

    #[tactic(auto, unfolding(crate::specs::Flats::expr_list))]
    fn expr_list(&self, tokens: &mut Cursor<'_>) -> Result<ExprList, Fault>
        requires { Nests self.now.names.now self.now.depth (F.pre self.now.inner)
            (F.post self.now.inner) }
        ensures { Reads
            ((flats.expr_list self.now.names.now
            (run_at self.now.names.now self.now.depth)).parser.run tokens.old) result
            tokens.new }
    {
        let first = Boxed::new(self.alloc, self.expr(tokens, true)?)?;
        let others = self.next_exprs(tokens)?;
        Ok(ExprList { first, others })
    }

    #[tactic(auto, unfolding(crate::specs::Flats::maybe_list))]
    pub fn maybe_list(&self, tokens: &mut Cursor<'_>) -> Result<Option<ExprList>, Fault>
        requires { Nests self.now.names.now self.now.depth (F.pre self.now.inner)
            (F.post self.now.inner) }
        ensures { Reads
            ((flats.maybe_list self.now.names.now (run_at self.now.names.now self.now.depth)).run
            tokens.old) result tokens.new }
    {
        if tokens.sees_mark(Mark::CloseParen) {
            Ok(None)
        } else {
            Ok(Some(self.expr_list(tokens)?))
        }
    }
}
