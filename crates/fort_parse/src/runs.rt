//! Reading atoms, postfixes and runs.
ghost use Rattle.std.specs.Prelude.{◌≡◌};
ghost use Rattle.fort_parse_reading.specs.Parser.{Reads, accept_run};
ghost use Rattle.fort_parse.specs.Runs as runs;
ghost use Rattle.fort_parse.specs.Runs.{run_at};
ghost use Rattle.fort_parse.specs.Nests.{Nests};

use crate::blocks::{case_ended, type_ended};
use crate::grammar::Grammar;
use fort_base::{Boxed, Bytes, List};
use fort_lex_token::{Kind, Mark, Reserved, Token};
use fort_parse_first::{begins_run_part, is_next_tight, sees_arguments, sees_postfix};
use fort_parse_reading::{Cursor, Fault, add, spot_of};
use fort_tree::{
    Atom, Block, Delimited, Expr, FillSpots, Flat, Generator, Name, NextGenerator, Postfix, Run,
    RunPart, Spot, TypeTree,
};
use std::alloc::Global;

#[tactic(auto, unfolding(crate::specs::Runs::literal_of))]
fn literal_of(token: &Token) -> Option<Atom>
    ensures { result ≡ runs.literal_of token.now }
{
    let spot = spot_of(token);
    match token.kind {
        Kind::Word(Reserved::True) => Some(Atom::True(spot)),
        Kind::Word(Reserved::False) => Some(Atom::False(spot)),
        Kind::Word(Reserved::Self_) => Some(Atom::Self_(spot)),
        Kind::Name(id) => Some(Atom::Name(Name { id, spot })),
        Kind::Number(value) => Some(Atom::Number(value, spot)),
        Kind::Text(text) => Some(Atom::Text(text, spot)),
        _ => None,
    }
}

/// An atom of one token.
fn literal(tokens: &mut Cursor<'_>) -> Result<Atom, Fault>
    ensures { Reads (accept_run runs.literal_of tokens.old) result tokens.new }
{
    let Some(next) = tokens.next() else {
        return Err(Fault::Syntax);
    };
    let Some(atom) = literal_of(&next) else {
        return Err(Fault::Syntax);
    };
    tokens.skip();
    Ok(atom)
}

/// An array's word and its element, in brackets.
#[derive(Drop)]
pub struct ArrayHead {
    array: Spot,
    left: Spot,
    element: Boxed<TypeTree>,
    right: Spot,
}

/// An array's size, in parentheses.
#[derive(Drop)]
pub struct ArraySize {
    left: Spot,
    size: Boxed<Expr>,
    right: Spot,
}

impl<F: Fn(Global, &[Bytes], usize, usize, &mut Cursor<'_>, bool) -> Result<Run, Fault>> Grammar<
    '_,
    F,
> {
    #[tactic(auto, unfolding(crate::specs::Runs::do_form))]
    fn do_form(&self, tokens: &mut Cursor<'_>, do_: Spot) -> Result<Delimited, Fault>
        requires { Nests self.now.names.now self.now.depth (F.pre self.now.inner)
            (F.post self.now.inner) }
        ensures { Reads
            ((runs.do_form self.now.names.now (run_at self.now.names.now self.now.depth) do_).run
            tokens.old) result tokens.new }
    {
        let block = self.block(tokens)?;
        let others = self.also_blocks(tokens)?;
        let end = tokens.word(Reserved::End)?;
        Ok(Delimited::Do {
            do_,
            block,
            others,
            end,
        })
    }

    #[tactic(auto, unfolding(crate::specs::Runs::if_rest))]
    fn if_rest(
        &self,
        tokens: &mut Cursor<'_>,
        if_: Spot,
        condition: Flat,
        then: Spot,
        block: Block,
    ) -> Result<Delimited, Fault>
        requires { Nests self.now.names.now self.now.depth (F.pre self.now.inner)
            (F.post self.now.inner) }
        ensures { Reads
            ((runs.if_rest self.now.names.now (run_at self.now.names.now self.now.depth) if_
            condition then block).run tokens.old) result tokens.new }
    {
        let elifs = self.elifs(tokens)?;
        let otherwise = self.else_block(tokens)?;
        let end = tokens.word(Reserved::End)?;
        Ok(Delimited::If {
            if_,
            condition,
            then,
            block,
            elifs,
            otherwise,
            end,
        })
    }

    #[tactic(auto, unfolding(crate::specs::Runs::if_form))]
    fn if_form(&self, tokens: &mut Cursor<'_>, if_: Spot) -> Result<Delimited, Fault>
        requires { Nests self.now.names.now self.now.depth (F.pre self.now.inner)
            (F.post self.now.inner) }
        ensures { Reads
            ((runs.if_form self.now.names.now (run_at self.now.names.now self.now.depth) if_).run
            tokens.old) result tokens.new }
    {
        let condition = self.flat(tokens, true)?;
        let then = tokens.word(Reserved::Then)?;
        let block = self.block(tokens)?;
        self.if_rest(tokens, if_, condition, then, block)
    }

    #[tactic(auto, unfolding(crate::specs::Runs::while_form))]
    fn while_form(&self, tokens: &mut Cursor<'_>, while_: Spot) -> Result<Delimited, Fault>
        requires { Nests self.now.names.now self.now.depth (F.pre self.now.inner)
            (F.post self.now.inner) }
        ensures { Reads
            ((runs.while_form self.now.names.now (run_at self.now.names.now self.now.depth)
            while_).run tokens.old) result tokens.new }
    {
        let condition = self.flat(tokens, false)?;
        let do_ = tokens.word(Reserved::Do)?;
        let block = self.block(tokens)?;
        let end = tokens.word(Reserved::End)?;
        Ok(Delimited::While {
            while_,
            condition,
            do_,
            block,
            end,
        })
    }

    #[tactic(auto, unfolding(crate::specs::Runs::for_rest))]
    fn for_rest(
        &self,
        tokens: &mut Cursor<'_>,
        for_: Spot,
        generator: Boxed<Generator>,
        others: List<NextGenerator>,
    ) -> Result<Delimited, Fault>
        requires { Nests self.now.names.now self.now.depth (F.pre self.now.inner)
            (F.post self.now.inner) }
        ensures { Reads
            ((runs.for_rest self.now.names.now (run_at self.now.names.now self.now.depth) for_
            generator others).run tokens.old) result tokens.new }
    {
        let do_ = tokens.word(Reserved::Do)?;
        let block = self.block(tokens)?;
        let end = tokens.word(Reserved::End)?;
        Ok(Delimited::For {
            for_,
            generator,
            others,
            do_,
            block,
            end,
        })
    }

    #[tactic(auto, unfolding(crate::specs::Runs::for_form))]
    fn for_form(&self, tokens: &mut Cursor<'_>, for_: Spot) -> Result<Delimited, Fault>
        requires { Nests self.now.names.now self.now.depth (F.pre self.now.inner)
            (F.post self.now.inner) }
        ensures { Reads
            ((runs.for_form self.now.names.now (run_at self.now.names.now self.now.depth) for_).run
            tokens.old) result tokens.new }
    {
        let generator = Boxed::new(self.alloc, self.generator(tokens, false)?)?;
        let others = self.next_generators(tokens)?;
        self.for_rest(tokens, for_, generator, others)
    }

    #[tactic(auto, unfolding(crate::specs::Runs::case_rest))]
    fn case_rest(
        &self,
        tokens: &mut Cursor<'_>,
        case: Spot,
        subject: Flat,
        of: Spot,
    ) -> Result<Delimited, Fault>
        requires { Nests self.now.names.now self.now.depth (F.pre self.now.inner)
            (F.post self.now.inner) }
        ensures { Reads
            ((runs.case_rest self.now.names.now (run_at self.now.names.now self.now.depth)
            case subject of).run tokens.old) result tokens.new }
    {
        let clauses = self.case_clauses(tokens)?;
        let otherwise = self.else_clause(tokens, case_ended(clauses.as_slice()))?;
        let end = tokens.word(Reserved::End)?;
        Ok(Delimited::Case {
            case,
            subject,
            of,
            clauses,
            otherwise,
            end,
        })
    }

    #[tactic(auto, unfolding(crate::specs::Runs::case_form))]
    fn case_form(&self, tokens: &mut Cursor<'_>, case: Spot) -> Result<Delimited, Fault>
        requires { Nests self.now.names.now self.now.depth (F.pre self.now.inner)
            (F.post self.now.inner) }
        ensures { Reads
            ((runs.case_form self.now.names.now (run_at self.now.names.now self.now.depth) case).run
            tokens.old) result tokens.new }
    {
        let subject = self.flat(tokens, true)?;
        let of = tokens.word(Reserved::Of)?;
        self.case_rest(tokens, case, subject, of)
    }

    #[tactic(auto, unfolding(crate::specs::Runs::typecase_rest))]
    fn typecase_rest(
        &self,
        tokens: &mut Cursor<'_>,
        typecase: Spot,
        name: Name,
        equals: Spot,
        subject: Flat,
        of: Spot,
    ) -> Result<Delimited, Fault>
        requires { Nests self.now.names.now self.now.depth (F.pre self.now.inner)
            (F.post self.now.inner) }
        ensures { Reads
            ((runs.typecase_rest self.now.names.now (run_at self.now.names.now self.now.depth)
            typecase name equals subject of).run tokens.old) result tokens.new }
    {
        let clauses = self.type_clauses(tokens)?;
        let otherwise = self.else_clause(tokens, type_ended(clauses.as_slice()))?;
        let end = tokens.word(Reserved::End)?;
        Ok(Delimited::Typecase {
            typecase,
            name,
            equals,
            subject,
            of,
            clauses,
            otherwise,
            end,
        })
    }

    #[tactic(auto, unfolding(crate::specs::Runs::typecase_form))]
    fn typecase_form(&self, tokens: &mut Cursor<'_>, typecase: Spot) -> Result<Delimited, Fault>
        requires { Nests self.now.names.now self.now.depth (F.pre self.now.inner)
            (F.post self.now.inner) }
        ensures { Reads
            ((runs.typecase_form self.now.names.now (run_at self.now.names.now self.now.depth)
            typecase).run tokens.old) result tokens.new }
    {
        let name = tokens.name()?;
        let equals = tokens.equals()?;
        let subject = self.flat(tokens, true)?;
        let of = tokens.word(Reserved::Of)?;
        self.typecase_rest(tokens, typecase, name, equals, subject, of)
    }

    #[tactic(auto, unfolding(crate::specs::Runs::try_form))]
    fn try_form(&self, tokens: &mut Cursor<'_>, try_: Spot) -> Result<Delimited, Fault>
        requires { Nests self.now.names.now self.now.depth (F.pre self.now.inner)
            (F.post self.now.inner) }
        ensures { Reads
            ((runs.try_form self.now.names.now (run_at self.now.names.now self.now.depth) try_).run
            tokens.old) result tokens.new }
    {
        let block = self.block(tokens)?;
        let catch = self.catch(tokens)?;
        let finally = self.finally(tokens, catch.is_some())?;
        let end = tokens.word(Reserved::End)?;
        Ok(Delimited::Try {
            try_,
            block,
            catch,
            finally,
            end,
        })
    }

    #[tactic(auto, unfolding(crate::specs::Runs::delimited))]
    fn delimited(&self, tokens: &mut Cursor<'_>) -> Result<Delimited, Fault>
        requires { Nests self.now.names.now self.now.depth (F.pre self.now.inner)
            (F.post self.now.inner) }
        ensures { Reads
            ((runs.delimited self.now.names.now
            (run_at self.now.names.now self.now.depth)).parser.run tokens.old) result
            tokens.new }
    {
        let Some(next) = tokens.next() else {
            return Err(Fault::Syntax);
        };
        match next.kind {
            Kind::Word(Reserved::Do) => {
                let spot = tokens.word(Reserved::Do)?;
                self.do_form(tokens, spot)
            }
            Kind::Word(Reserved::If) => {
                let spot = tokens.word(Reserved::If)?;
                self.if_form(tokens, spot)
            }
            Kind::Word(Reserved::While) => {
                let spot = tokens.word(Reserved::While)?;
                self.while_form(tokens, spot)
            }
            Kind::Word(Reserved::For) => {
                let spot = tokens.word(Reserved::For)?;
                self.for_form(tokens, spot)
            }
            Kind::Word(Reserved::Case) => {
                let spot = tokens.word(Reserved::Case)?;
                self.case_form(tokens, spot)
            }
            Kind::Word(Reserved::Typecase) => {
                let spot = tokens.word(Reserved::Typecase)?;
                self.typecase_form(tokens, spot)
            }
            Kind::Word(Reserved::Try) => {
                let spot = tokens.word(Reserved::Try)?;
                self.try_form(tokens, spot)
            }
            _ => Err(Fault::Syntax),
        }
    }

    #[tactic(auto, unfolding(crate::specs::Runs::parens))]
    fn parens(&self, tokens: &mut Cursor<'_>, left: Spot) -> Result<Atom, Fault>
        requires { Nests self.now.names.now self.now.depth (F.pre self.now.inner)
            (F.post self.now.inner) }
        ensures { Reads
            ((runs.parens self.now.names.now (run_at self.now.names.now self.now.depth) left).run
            tokens.old) result tokens.new }
    {
        let contents = self.maybe_list(tokens)?;
        let right = tokens.mark(Mark::CloseParen)?;
        Ok(Atom::Parens {
            left,
            contents,
            right,
        })
    }

    #[tactic(auto, unfolding(crate::specs::Runs::fill_value))]
    fn fill_value(
        &self,
        tokens: &mut Cursor<'_>,
        head: ArrayHead,
        size: ArraySize,
    ) -> Result<Atom, Fault>
        requires { Nests self.now.names.now self.now.depth (F.pre self.now.inner)
            (F.post self.now.inner) }
        ensures { Reads
            ((runs.fill_value self.now.names.now (run_at self.now.names.now self.now.depth)
            head.array head.left head.element head.right size.left size.size size.right).run
            tokens.old) result tokens.new }
    {
        let dot = tokens.tight_mark(Mark::Dot)?;
        let fill = tokens.tight_called(b"fill", self.names)?;
        let value_left = tokens.tight_mark(Mark::OpenParen)?;
        let value = Boxed::new(self.alloc, self.expr(tokens, true)?)?;
        let value_right = tokens.mark(Mark::CloseParen)?;
        let spots = FillSpots {
            array: head.array,
            left: head.left,
            right: head.right,
            size_left: size.left,
            size_right: size.right,
            dot,
            fill,
            value_left,
            value_right,
        };
        Ok(Atom::ArrayFill {
            spots: Boxed::new(self.alloc, spots)?,
            element: head.element,
            size: size.size,
            value,
        })
    }

    #[tactic(auto, unfolding(crate::specs::Runs::fill_size))]
    fn fill_size(&self, tokens: &mut Cursor<'_>, head: ArrayHead) -> Result<Atom, Fault>
        requires { Nests self.now.names.now self.now.depth (F.pre self.now.inner)
            (F.post self.now.inner) }
        ensures { Reads
            ((runs.fill_size self.now.names.now (run_at self.now.names.now self.now.depth)
            head.array head.left head.element head.right).run tokens.old) result tokens.new }
    {
        let left = tokens.tight_mark(Mark::OpenParen)?;
        let size = Boxed::new(self.alloc, self.expr(tokens, true)?)?;
        let right = tokens.mark(Mark::CloseParen)?;
        self.fill_value(tokens, head, ArraySize { left, size, right })
    }

    #[tactic(auto, unfolding(crate::specs::Runs::array_fill))]
    fn array_fill(&self, tokens: &mut Cursor<'_>, array: Spot) -> Result<Atom, Fault>
        requires { Nests self.now.names.now self.now.depth (F.pre self.now.inner)
            (F.post self.now.inner) }
        ensures { Reads
            ((runs.array_fill self.now.names.now (run_at self.now.names.now self.now.depth)
            array).run tokens.old) result tokens.new }
    {
        let left = tokens.tight_mark(Mark::OpenStatic)?;
        let element = Boxed::new(self.alloc, self.types().type_tree(tokens)?)?;
        let right = tokens.mark(Mark::CloseStatic)?;
        let head = ArrayHead {
            array,
            left,
            element,
            right,
        };
        self.fill_size(tokens, head)
    }

    fn form_atom(&self, tokens: &mut Cursor<'_>) -> Result<Atom, Fault>
        requires { Nests self.now.names.now self.now.depth (F.pre self.now.inner)
            (F.post self.now.inner) }
        ensures { Reads
            ((runs.form_atom self.now.names.now
            (run_at self.now.names.now self.now.depth)).parser.run tokens.old) result
            tokens.new }
    {
        let form = self.delimited(tokens)?;
        Ok(Atom::Delimited(Boxed::new(self.alloc, form)?))
    }

    fn word_atom(
        &self,
        tokens: &mut Cursor<'_>,
        blocks: bool,
        word: Reserved,
    ) -> Result<Atom, Fault>
        requires { Nests self.now.names.now self.now.depth (F.pre self.now.inner)
            (F.post self.now.inner) }
        ensures { Reads
            ((runs.word_atom self.now.names.now (run_at self.now.names.now self.now.depth) blocks
            word).parser.run tokens.old) result tokens.new }
    {
        match word {
            Reserved::True | Reserved::False | Reserved::Self_ => literal(tokens),
            Reserved::Array => {
                let array = tokens.word(Reserved::Array)?;
                self.array_fill(tokens, array)
            }
            Reserved::Do if !blocks => Err(Fault::Syntax),
            Reserved::Do
            | Reserved::If
            | Reserved::While
            | Reserved::For
            | Reserved::Case
            | Reserved::Typecase
            | Reserved::Try => self.form_atom(tokens),
            _ => Err(Fault::Syntax),
        }
    }

    #[tactic(auto, unfolding(crate::specs::Runs::atom))]
    fn atom(&self, tokens: &mut Cursor<'_>, blocks: bool) -> Result<Atom, Fault>
        requires { Nests self.now.names.now self.now.depth (F.pre self.now.inner)
            (F.post self.now.inner) }
        ensures { Reads
            ((runs.atom self.now.names.now (run_at self.now.names.now self.now.depth)
            blocks).parser.run tokens.old) result tokens.new }
    {
        let Some(next) = tokens.next() else {
            return Err(Fault::Syntax);
        };
        match next.kind {
            Kind::Word(word) => self.word_atom(tokens, blocks, word),
            Kind::Name(_) | Kind::Number(_) | Kind::Text(_) => literal(tokens),
            Kind::Mark(Mark::OpenParen) => {
                let left = tokens.mark(Mark::OpenParen)?;
                self.parens(tokens, left)
            }
            _ => Err(Fault::Syntax),
        }
    }

    #[tactic(auto, unfolding(crate::specs::Runs::subscript))]
    fn subscript(&self, tokens: &mut Cursor<'_>, left: Spot) -> Result<Postfix, Fault>
        requires { Nests self.now.names.now self.now.depth (F.pre self.now.inner)
            (F.post self.now.inner) }
        ensures { Reads
            ((runs.subscript self.now.names.now (run_at self.now.names.now self.now.depth) left).run
            tokens.old) result tokens.new }
    {
        let index = Boxed::new(self.alloc, self.expr(tokens, true)?)?;
        let right = tokens.mark(Mark::CloseBracket)?;
        Ok(Postfix::Subscript { left, index, right })
    }

    #[tactic(auto, unfolding(crate::specs::Runs::tight_atom))]
    fn tight_atom(&self, tokens: &mut Cursor<'_>, blocks: bool) -> Result<Atom, Fault>
        requires { Nests self.now.names.now self.now.depth (F.pre self.now.inner)
            (F.post self.now.inner) }
        ensures { Reads
            ((runs.tight_atom self.now.names.now (run_at self.now.names.now self.now.depth)
            blocks).run tokens.old) result tokens.new }
    {
        if is_next_tight(tokens.next()) {
            self.atom(tokens, blocks)
        } else {
            Err(Fault::Syntax)
        }
    }

    #[tactic(auto, unfolding(crate::specs::Runs::method_call))]
    fn method_call(&self, tokens: &mut Cursor<'_>, dot: Spot, name: Name) -> Result<Postfix, Fault>
        requires { Nests self.now.names.now self.now.depth (F.pre self.now.inner)
            (F.post self.now.inner) }
        ensures { Reads
            ((runs.method_call self.now.names.now (run_at self.now.names.now self.now.depth) dot
            name).run tokens.old) result tokens.new }
    {
        let left = tokens.tight_mark(Mark::OpenParen)?;
        let arguments = self.maybe_list(tokens)?;
        let right = tokens.mark(Mark::CloseParen)?;
        Ok(Postfix::Call {
            dot,
            name,
            left,
            arguments,
            right,
        })
    }

    #[tactic(auto, unfolding(crate::specs::Runs::dotted))]
    fn dotted(&self, tokens: &mut Cursor<'_>, dot: Spot) -> Result<Postfix, Fault>
        requires { Nests self.now.names.now self.now.depth (F.pre self.now.inner)
            (F.post self.now.inner) }
        ensures { Reads
            ((runs.dotted self.now.names.now (run_at self.now.names.now self.now.depth) dot).run
            tokens.old) result tokens.new }
    {
        let name = tokens.tight_name()?;
        if sees_arguments(tokens.next()) {
            self.method_call(tokens, dot, name)
        } else {
            Ok(Postfix::Field { dot, name })
        }
    }

    #[tactic(auto, unfolding(crate::specs::Runs::postfix))]
    fn postfix(&self, tokens: &mut Cursor<'_>, blocks: bool) -> Result<Postfix, Fault>
        requires { Nests self.now.names.now self.now.depth (F.pre self.now.inner)
            (F.post self.now.inner) }
        ensures { Reads
            ((runs.postfix self.now.names.now (run_at self.now.names.now self.now.depth)
            blocks).parser.run tokens.old) result tokens.new }
    {
        let Some(next) = tokens.next() else {
            return Err(Fault::Syntax);
        };
        match next.kind {
            Kind::Op(_) => {
                let power = tokens.power()?;
                let exponent = self.tight_atom(tokens, blocks)?;
                Ok(Postfix::Power { power, exponent })
            }
            Kind::Mark(Mark::OpenBracket) => {
                let left = tokens.mark(Mark::OpenBracket)?;
                self.subscript(tokens, left)
            }
            Kind::Mark(Mark::Dot) => {
                let dot = tokens.mark(Mark::Dot)?;
                self.dotted(tokens, dot)
            }
            _ => Err(Fault::Syntax),
        }
    }

    #[tactic(auto, unfolding(crate::specs::Runs::run_part))]
    fn run_part(&self, tokens: &mut Cursor<'_>, blocks: bool) -> Result<RunPart, Fault>
        requires { Nests self.now.names.now self.now.depth (F.pre self.now.inner)
            (F.post self.now.inner) }
        ensures { Reads
            ((runs.run_part self.now.names.now (run_at self.now.names.now self.now.depth)
            blocks).parser.run tokens.old) result tokens.new }
    {
        if sees_postfix(tokens.next()) {
            Ok(RunPart::Postfix(self.postfix(tokens, blocks)?))
        } else {
            Ok(RunPart::Atom(self.atom(tokens, blocks)?))
        }
    }

    fn run_parts(&self, tokens: &mut Cursor<'_>, blocks: bool) -> Result<List<RunPart>, Fault>
        requires { Nests self.now.names.now self.now.depth (F.pre self.now.inner)
            (F.post self.now.inner) }
        ensures { Reads
            ((runs.run_parts self.now.names.now (run_at self.now.names.now self.now.depth)
            blocks).run tokens.old) result tokens.new }
    {
        let mut found = List::new(self.alloc);
        for _turn in 0..self.depth {
            if !begins_run_part(blocks, tokens.next()) {
                return Ok(found);
            }
            add(&mut found, self.run_part(tokens, blocks)?)?;
        }
        Err(Fault::TooDeep)
    }

    #[tactic(auto, unfolding(crate::specs::Runs::run_level))]
    fn run_level(&self, tokens: &mut Cursor<'_>, blocks: bool) -> Result<Run, Fault>
        requires { Nests self.now.names.now self.now.depth (F.pre self.now.inner)
            (F.post self.now.inner) }
        ensures { Reads
            ((runs.run_level self.now.names.now (run_at self.now.names.now self.now.depth)
            blocks).parser.run tokens.old) result tokens.new }
    {
        let first = self.atom(tokens, blocks)?;
        let rest = self.run_parts(tokens, blocks)?;
        Ok(Run { first, rest })
    }

    /// A run; `blocks` says whether an atom of it may begin with `do`.
    pub fn run(&self, tokens: &mut Cursor<'_>, blocks: bool) -> Result<Run, Fault>
        requires { Nests self.now.names.now self.now.depth (F.pre self.now.inner)
            (F.post self.now.inner) }
        ensures { Reads ((run_at self.now.names.now self.now.depth blocks).parser.run tokens.old)
            result tokens.new }
    {
        (self.inner)(
            self.alloc, self.names, self.depth, self.floor, tokens, blocks,
        )
    }
}

/// A run, where at most `depth` tokens are left; `blocks` says whether an atom of it may begin with
/// `do`.
#[tactic(auto, unfolding(crate::specs::Runs::run_at))]
pub fn run(
    alloc: Global,
    names: &[Bytes],
    depth: usize,
    floor: usize,
    tokens: &mut Cursor<'_>,
    blocks: bool,
) -> Result<Run, Fault>
    ensures { Reads ((run_at names.now depth blocks).parser.run tokens.old) result tokens.new }
{
    if depth == 0 {
        return Err(Fault::TooDeep);
    }
    if depth <= floor {
        return Err(Fault::Memory);
    }
    Grammar {
        alloc,
        names,
        depth: depth - 1,
        floor,
        inner: run,
    }
    .run_level(tokens, blocks)
}
