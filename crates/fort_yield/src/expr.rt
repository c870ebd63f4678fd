//! The tokens of expressions.
ghost use Rattle.std.specs.Prelude.{◌≡◌, ◌++◌, [], ◌∷◌, OnOk, map, option_map};
ghost use Rattle.fort_tree.specs.Said.{tokens_of, all_tokens, maybe_tokens};
ghost use Rattle.fort_tree.specs.Flats.{assign_token, big_first, big_more};
ghost use Rattle.fort_tree.specs.Tokens.{marked};
ghost use Rattle.fort_yield.specs.Parts.{prefix_tokens};
ghost use Rattle.fort_tree.specs.Yield.{said_expr, said_head, said_generator, said_flat, said_flat_part, said_operand, said_run, said_run_part, said_postfix, said_atom, said_expr_list, said_next_expr};

use crate::delimited::put_delimited;
use crate::types::{put_maybe_parameters, put_type};
use fort_base::{Boxed, List, Memory};
use fort_lex_token::{Kind, Mark, Reserved, Token};
use fort_ops::Op;
use fort_tree::{
    AssignSign, Atom, Big, Expr, ExprList, Flat, FlatPart, Generator, Head, NextExpr, Operand,
    Postfix, Prefix, Run, RunPart, Spot,
};
use fort_yield_tokens::{put_mark, put_name, put_operator, put_token, put_word};

#[cycle(put)]
pub fn put_expr(expr: &Expr, out: &mut List<Token>) -> Result<(), Memory>
    ensures { OnOk result (out.new ≡ out.old ++ tokens_of (said_expr expr.now)) }
{
    match expr {
        Expr::Flat(flat) => put_flat(flat, out)?,
        Expr::Assign {
            target,
            sign,
            head,
            value,
        } => {
            put_flat(target.get(), out)?;
            put_assign_sign(out, *sign)?;
            put_maybe_head(head, out)?;
            put_flat(value.get(), out)?;
        }
        Expr::Open { head, body } => {
            put_head(head.get(), out)?;
            put_flat(body.get(), out)?;
        }
        Expr::OpenAssign {
            head,
            target,
            sign,
            value,
        } => {
            put_head(head.get(), out)?;
            put_flat(target.get(), out)?;
            put_assign_sign(out, *sign)?;
            put_flat(value.get(), out)?;
        }
    }
    Ok(())
}

fn put_assign_sign(out: &mut List<Token>, sign: AssignSign) -> Result<(), Memory>
    ensures { OnOk result (out.new ≡ out.old ++ assign_token sign ∷ []) }
{
    match sign {
        AssignSign::Becomes(spot) => put_mark(out, Mark::Becomes, spot),
        AssignSign::AddBecomes(spot) => put_mark(out, Mark::AddBecomes, spot),
        AssignSign::SubtractBecomes(spot) => put_mark(out, Mark::SubtractBecomes, spot),
    }
}

#[cycle(put)]
fn put_maybe_head(head: &Option<Boxed<Head>>, out: &mut List<Token>) -> Result<(), Memory>
    ensures { OnOk result (out.new ≡ out.old ++ maybe_tokens (option_map said_head head.now)) }
{
    match head {
        None => Ok(()),
        Some(boxed) => put_head(boxed.get(), out),
    }
}

#[cycle(put)]
fn put_head(head: &Head, out: &mut List<Token>) -> Result<(), Memory>
    ensures { OnOk result (out.new ≡ out.old ++ tokens_of (said_head head.now)) }
{
    match head {
        Head::Atomic(spot) => put_word(out, Reserved::Atomic, *spot)?,
        Head::Tryatomic(spot) => put_word(out, Reserved::Tryatomic, *spot)?,
        Head::Throw(spot) => put_word(out, Reserved::Throw, *spot)?,
        Head::Spawn(spot) => put_word(out, Reserved::Spawn, *spot)?,
        Head::Fn {
            fn_,
            left,
            parameters,
            right,
            arrow,
        } => {
            put_word(out, Reserved::Fn, *fn_)?;
            put_mark(out, Mark::OpenParen, *left)?;
            put_maybe_parameters(parameters, out)?;
            put_mark(out, Mark::CloseParen, *right)?;
            put_mark(out, Mark::DoubleArrow, *arrow)?;
        }
        Head::Big {
            big,
            left,
            generator,
            right,
        } => {
            put_big(out, *big)?;
            put_mark(out, Mark::OpenBracket, *left)?;
            put_generator(generator, out)?;
            put_mark(out, Mark::CloseBracket, *right)?;
        }
    }
    Ok(())
}

fn put_big(out: &mut List<Token>, big: Big) -> Result<(), Memory>
    ensures { OnOk result (out.new ≡ out.old ++ big_first big ∷ big_more big) }
{
    match big {
        Big::Sum(spot) => put_word(out, Reserved::Sum, spot),
        Big::Prod(spot) => put_word(out, Reserved::Prod, spot),
        Big::Max(spot, other) => {
            put_word(out, Reserved::Big, spot)?;
            put_operator(out, Op::Max, other)
        }
        Big::Min(spot, other) => {
            put_word(out, Reserved::Big, spot)?;
            put_operator(out, Op::Min, other)
        }
        Big::And(spot, other) => {
            put_word(out, Reserved::Big, spot)?;
            put_operator(out, Op::And, other)
        }
        Big::Or(spot, other) => {
            put_word(out, Reserved::Big, spot)?;
            put_operator(out, Op::Or, other)
        }
    }
}

#[cycle(put)]
pub fn put_generator(generator: &Generator, out: &mut List<Token>) -> Result<(), Memory>
    ensures { OnOk result (out.new ≡ out.old ++ tokens_of (said_generator generator.now)) }
{
    match generator {
        Generator::Parallel {
            name,
            arrow,
            source,
        } => {
            put_name(out, *name)?;
            put_mark(out, Mark::LeftArrow, *arrow)?;
            put_flat(source, out)?;
        }
        Generator::Sequential {
            name,
            arrow,
            seq,
            left,
            source,
            right,
        } => {
            put_name(out, *name)?;
            put_mark(out, Mark::LeftArrow, *arrow)?;
            put_word(out, Reserved::Seq, *seq)?;
            put_mark(out, Mark::OpenParen, *left)?;
            put_flat(source, out)?;
            put_mark(out, Mark::CloseParen, *right)?;
        }
    }
    Ok(())
}

#[cycle(put)]
pub fn put_flat(flat: &Flat, out: &mut List<Token>) -> Result<(), Memory>
    ensures { OnOk result (out.new ≡ out.old ++ tokens_of (said_flat flat.now)) }
{
    put_operand(&flat.first, out)?;
    put_flat_parts(flat.rest.as_slice(), out)?;
    Ok(())
}

#[cycle(put)]
fn put_flat_parts(parts: &[FlatPart], out: &mut List<Token>) -> Result<(), Memory>
    ensures { OnOk result (out.new ≡ out.old ++ all_tokens (map said_flat_part parts.now)) }
{
    for part in parts {
        put_flat_part(part, out)?;
    }
    Ok(())
}

#[cycle(put)]
fn put_flat_part(part: &FlatPart, out: &mut List<Token>) -> Result<(), Memory>
    ensures { OnOk result (out.new ≡ out.old ++ tokens_of (said_flat_part part.now)) }
{
    match part {
        FlatPart::Run(run) => put_run(run, out)?,
        FlatPart::Infix(sign, operand) => {
            put_operator(out, sign.op, sign.spot)?;
            put_operand(operand, out)?;
        }
    }
    Ok(())
}

#[cycle(put)]
fn put_operand(operand: &Operand, out: &mut List<Token>) -> Result<(), Memory>
    ensures { OnOk result (out.new ≡ out.old ++ tokens_of (said_operand operand.now)) }
{
    put_prefix(out, operand.prefix)?;
    put_run(&operand.run, out)?;
    Ok(())
}

fn put_prefix(out: &mut List<Token>, prefix: Option<Prefix>) -> Result<(), Memory>
    ensures { OnOk result (out.new ≡ out.old ++ prefix_tokens prefix) }
{
    match prefix {
        None => Ok(()),
        Some(Prefix::Minus(spot)) => put_operator(out, Op::Minus, spot),
        Some(Prefix::Not(spot)) => put_operator(out, Op::Not, spot),
    }
}

#[cycle(put)]
fn put_run(run: &Run, out: &mut List<Token>) -> Result<(), Memory>
    ensures { OnOk result (out.new ≡ out.old ++ tokens_of (said_run run.now)) }
{
    put_atom(&run.first, out)?;
    put_run_parts(run.rest.as_slice(), out)?;
    Ok(())
}

#[cycle(put)]
fn put_run_parts(parts: &[RunPart], out: &mut List<Token>) -> Result<(), Memory>
    ensures { OnOk result (out.new ≡ out.old ++ all_tokens (map said_run_part parts.now)) }
{
    for part in parts {
        put_run_part(part, out)?;
    }
    Ok(())
}

#[cycle(put)]
fn put_run_part(part: &RunPart, out: &mut List<Token>) -> Result<(), Memory>
    ensures { OnOk result (out.new ≡ out.old ++ tokens_of (said_run_part part.now)) }
{
    match part {
        RunPart::Atom(atom) => put_atom(atom, out)?,
        RunPart::Postfix(postfix) => put_postfix(postfix, out)?,
    }
    Ok(())
}

#[cycle(put)]
fn put_postfix(postfix: &Postfix, out: &mut List<Token>) -> Result<(), Memory>
    ensures { OnOk result (out.new ≡ out.old ++ tokens_of (said_postfix postfix.now)) }
{
    match postfix {
        Postfix::Subscript { left, index, right } => {
            put_mark(out, Mark::OpenBracket, *left)?;
            put_expr(index.get(), out)?;
            put_mark(out, Mark::CloseBracket, *right)?;
        }
        Postfix::Power { power, exponent } => {
            put_operator(out, Op::Power, *power)?;
            put_atom(exponent, out)?;
        }
        Postfix::Field { dot, name } => {
            put_mark(out, Mark::Dot, *dot)?;
            put_name(out, *name)?;
        }
        Postfix::Call {
            dot,
            name,
            left,
            arguments,
            right,
        } => {
            put_mark(out, Mark::Dot, *dot)?;
            put_name(out, *name)?;
            put_mark(out, Mark::OpenParen, *left)?;
            put_maybe_exprs(arguments, out)?;
            put_mark(out, Mark::CloseParen, *right)?;
        }
    }
    Ok(())
}

#[cycle(put)]
fn put_atom(atom: &Atom, out: &mut List<Token>) -> Result<(), Memory>
    ensures { OnOk result (out.new ≡ out.old ++ tokens_of (said_atom atom.now)) }
{
    match atom {
        Atom::Name(name) => put_name(out, *name)?,
        Atom::Number(value, spot) => put_token(out, Kind::Number(*value), *spot)?,
        Atom::Text(text, spot) => put_token(out, Kind::Text(*text), *spot)?,
        Atom::True(spot) => put_word(out, Reserved::True, *spot)?,
        Atom::False(spot) => put_word(out, Reserved::False, *spot)?,
        Atom::Self_(spot) => put_word(out, Reserved::Self_, *spot)?,
        Atom::Parens {
            left,
            contents,
            right,
        } => {
            put_mark(out, Mark::OpenParen, *left)?;
            put_maybe_exprs(contents, out)?;
            put_mark(out, Mark::CloseParen, *right)?;
        }
        Atom::Delimited(form) => put_delimited(form.get(), out)?,
        Atom::ArrayFill {
            spots,
            element,
            size,
            value,
        } => {
            let spots = spots.get();
            put_word(out, Reserved::Array, spots.array)?;
            put_mark(out, Mark::OpenStatic, spots.left)?;
            put_type(element.get(), out)?;
            put_mark(out, Mark::CloseStatic, spots.right)?;
            put_in_parens(spots.size_left, size.get(), spots.size_right, out)?;
            put_mark(out, Mark::Dot, spots.dot)?;
            put_name(out, spots.fill)?;
            put_in_parens(spots.value_left, value.get(), spots.value_right, out)?;
        }
    }
    Ok(())
}

#[cycle(put)]
fn put_in_parens(left: Spot, expr: &Expr, right: Spot, out: &mut List<Token>) -> Result<(), Memory>
    ensures { OnOk result (out.new
        ≡ out.old ++ marked Mark.OpenParen left
        ∷ (tokens_of (said_expr expr.now) ++ marked Mark.CloseParen right ∷ [])) }
{
    put_mark(out, Mark::OpenParen, left)?;
    put_expr(expr, out)?;
    put_mark(out, Mark::CloseParen, right)?;
    Ok(())
}

#[cycle(put)]
fn put_maybe_exprs(list: &Option<ExprList>, out: &mut List<Token>) -> Result<(), Memory>
    ensures { OnOk result (out.new ≡ out.old ++ maybe_tokens (option_map said_expr_list list.now)) }
{
    match list {
        None => Ok(()),
        Some(exprs) => put_expr_list(exprs, out),
    }
}

#[cycle(put)]
fn put_expr_list(list: &ExprList, out: &mut List<Token>) -> Result<(), Memory>
    ensures { OnOk result (out.new ≡ out.old ++ tokens_of (said_expr_list list.now)) }
{
    put_expr(list.first.get(), out)?;
    put_next_exprs(list.others.as_slice(), out)?;
    Ok(())
}

#[cycle(put)]
fn put_next_exprs(others: &[NextExpr], out: &mut List<Token>) -> Result<(), Memory>
    ensures { OnOk result (out.new ≡ out.old ++ all_tokens (map said_next_expr others.now)) }
{
    for next in others {
        put_next_expr(next, out)?;
    }
    Ok(())
}

#[cycle(put)]
fn put_next_expr(next: &NextExpr, out: &mut List<Token>) -> Result<(), Memory>
    ensures { OnOk result (out.new ≡ out.old ++ tokens_of (said_next_expr next.now)) }
{
    put_mark(out, Mark::Comma, next.comma)?;
    put_expr(&next.expr, out)?;
    Ok(())
}
