//! The tokens of types and of parameters.
ghost use Rattle.std.specs.Prelude.{◌≡◌, ◌++◌, OnOk, map, option_map};
ghost use Rattle.fort_tree.specs.Said.{tokens_of, all_tokens, maybe_tokens};
ghost use Rattle.fort_tree.specs.Types.{said_type, said_simple_type, said_type_list, said_next_type, said_parameter, said_next_parameter, said_parameters};

use fort_base::{List, Memory};
use fort_lex_token::{Mark, Token};
use fort_ops::Op;
use fort_tree::{NextParameter, NextType, Parameter, Parameters, SimpleType, TypeList, TypeTree};
use fort_yield_tokens::{put_mark, put_name, put_operator};

#[cycle(put_types)]
pub fn put_type(ty: &TypeTree, out: &mut List<Token>) -> Result<(), Memory>
    ensures { OnOk result (out.new ≡ out.old ++ tokens_of (said_type ty.now)) }
{
    match ty {
        TypeTree::Simple(simple) => put_simple_type(simple, out)?,
        TypeTree::Arrow(domain, arrow, result) => {
            put_simple_type(domain, out)?;
            put_mark(out, Mark::RightArrow, *arrow)?;
            put_simple_type(result, out)?;
        }
    }
    Ok(())
}

#[cycle(put_types)]
fn put_simple_type(simple: &SimpleType, out: &mut List<Token>) -> Result<(), Memory>
    ensures { OnOk result (out.new ≡ out.old ++ tokens_of (said_simple_type simple.now)) }
{
    match simple {
        SimpleType::Named(name) => put_name(out, *name)?,
        SimpleType::Array {
            array,
            left,
            element,
            comma,
            index,
            right,
        } => {
            put_name(out, *array)?;
            put_mark(out, Mark::OpenStatic, *left)?;
            put_type(element.get(), out)?;
            put_mark(out, Mark::Comma, *comma)?;
            put_name(out, *index)?;
            put_mark(out, Mark::CloseStatic, *right)?;
        }
        SimpleType::Parts { left, parts, right } => {
            put_mark(out, Mark::OpenParen, *left)?;
            put_maybe_types(parts, out)?;
            put_mark(out, Mark::CloseParen, *right)?;
        }
    }
    Ok(())
}

#[cycle(put_types)]
fn put_maybe_types(list: &Option<TypeList>, out: &mut List<Token>) -> Result<(), Memory>
    ensures { OnOk result (out.new ≡ out.old ++ maybe_tokens (option_map said_type_list list.now)) }
{
    match list {
        None => Ok(()),
        Some(types) => put_type_list(types, out),
    }
}

#[cycle(put_types)]
fn put_type_list(list: &TypeList, out: &mut List<Token>) -> Result<(), Memory>
    ensures { OnOk result (out.new ≡ out.old ++ tokens_of (said_type_list list.now)) }
{
    put_type(list.first.get(), out)?;
    put_next_types(list.others.as_slice(), out)?;
    Ok(())
}

#[cycle(put_types)]
fn put_next_types(others: &[NextType], out: &mut List<Token>) -> Result<(), Memory>
    ensures { OnOk result (out.new ≡ out.old ++ all_tokens (map said_next_type others.now)) }
{
    for next in others {
        put_next_type(next, out)?;
    }
    Ok(())
}

#[cycle(put_types)]
fn put_next_type(next: &NextType, out: &mut List<Token>) -> Result<(), Memory>
    ensures { OnOk result (out.new ≡ out.old ++ tokens_of (said_next_type next.now)) }
{
    put_mark(out, Mark::Comma, next.comma)?;
    put_type(&next.ty, out)?;
    Ok(())
}

pub fn put_parameter(parameter: &Parameter, out: &mut List<Token>) -> Result<(), Memory>
    ensures { OnOk result (out.new ≡ out.old ++ tokens_of (said_parameter parameter.now)) }
{
    put_name(out, parameter.name)?;
    put_operator(out, Op::Range, parameter.colon)?;
    put_type(&parameter.ty, out)
}

fn put_next_parameters(others: &[NextParameter], out: &mut List<Token>) -> Result<(), Memory>
    ensures { OnOk result (out.new ≡ out.old ++ all_tokens (map said_next_parameter others.now)) }
{
    for next in others {
        put_next_parameter(next, out)?;
    }
    Ok(())
}

fn put_next_parameter(next: &NextParameter, out: &mut List<Token>) -> Result<(), Memory>
    ensures { OnOk result (out.new ≡ out.old ++ tokens_of (said_next_parameter next.now)) }
{
    put_mark(out, Mark::Comma, next.comma)?;
    put_parameter(&next.parameter, out)
}

fn put_parameters(list: &Parameters, out: &mut List<Token>) -> Result<(), Memory>
    ensures { OnOk result (out.new ≡ out.old ++ tokens_of (said_parameters list.now)) }
{
    put_parameter(&list.first, out)?;
    put_next_parameters(list.others.as_slice(), out)
}

pub fn put_maybe_parameters(list: &Option<Parameters>, out: &mut List<Token>) -> Result<(), Memory>
    ensures { OnOk result (out.new
        ≡ out.old ++ maybe_tokens (option_map said_parameters list.now)) }
{
    match list {
        None => Ok(()),
        Some(parameters) => put_parameters(parameters, out),
    }
}
