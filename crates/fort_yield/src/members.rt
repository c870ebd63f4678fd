//! The tokens of members of traits and objects.
ghost use Rattle.std.specs.Prelude.{◌≡◌, ◌++◌, OnOk, map, option_map};
ghost use Rattle.fort_tree.specs.Said.{tokens_of, all_tokens, maybe_tokens, entries_tokens};
ghost use Rattle.fort_tree.specs.Declarations.{said_trait_member, said_trait_entry, said_object_member, said_object_entry, said_method, said_method_parameter, said_next_method_parameter, said_method_parameters, body_tokens};
ghost use Rattle.fort_yield.specs.Parts.{entry_tokens};

use crate::declarations::{put_function_name, put_result};
use crate::delimited::put_variable;
use crate::expr::put_expr;
use crate::types::{put_parameter, put_type};
use fort_base::{List, Memory};
use fort_lex_token::{Mark, Reserved, Token};
use fort_ops::Op;
use fort_tree::{
    Method, MethodBody, MethodParameter, MethodParameters, NextMethodParameter, ObjectEntry,
    ObjectMember, TraitEntry, TraitMember,
};
use fort_yield_tokens::{put_mark, put_name, put_operator, put_semicolon, put_word};

pub fn put_trait_entries(members: &[TraitEntry], out: &mut List<Token>) -> Result<(), Memory>
    ensures { OnOk result (out.new ≡ out.old ++ entries_tokens (map said_trait_entry members.now)) }
{
    for entry in members {
        put_trait_entry(entry, out)?;
    }
    Ok(())
}

fn put_trait_entry(entry: &TraitEntry, out: &mut List<Token>) -> Result<(), Memory>
    ensures { OnOk result (out.new ≡ out.old ++ entry_tokens (said_trait_entry entry.now)) }
{
    put_trait_member(&entry.member, out)?;
    put_semicolon(out, entry.semicolon)
}

fn put_trait_member(member: &TraitMember, out: &mut List<Token>) -> Result<(), Memory>
    ensures { OnOk result (out.new ≡ out.old ++ tokens_of (said_trait_member member.now)) }
{
    match member {
        TraitMember::Field { name, colon, ty } => {
            put_name(out, *name)?;
            put_operator(out, Op::Range, *colon)?;
            put_type(ty, out)
        }
        TraitMember::Method(method) => put_method(method, out),
    }
}

pub fn put_object_entries(members: &[ObjectEntry], out: &mut List<Token>) -> Result<(), Memory>
    ensures { OnOk result (out.new
        ≡ out.old ++ entries_tokens (map said_object_entry members.now)) }
{
    for entry in members {
        put_object_entry(entry, out)?;
    }
    Ok(())
}

fn put_object_entry(entry: &ObjectEntry, out: &mut List<Token>) -> Result<(), Memory>
    ensures { OnOk result (out.new ≡ out.old ++ entry_tokens (said_object_entry entry.now)) }
{
    put_object_member(&entry.member, out)?;
    put_semicolon(out, entry.semicolon)
}

fn put_object_member(member: &ObjectMember, out: &mut List<Token>) -> Result<(), Memory>
    ensures { OnOk result (out.new ≡ out.old ++ tokens_of (said_object_member member.now)) }
{
    match member {
        ObjectMember::Variable(variable) => put_variable(variable, out),
        ObjectMember::Method(method) => put_method(method, out),
    }
}

fn put_method(method: &Method, out: &mut List<Token>) -> Result<(), Memory>
    ensures { OnOk result (out.new ≡ out.old ++ tokens_of (said_method method.now)) }
{
    put_function_name(out, method.name)?;
    put_mark(out, Mark::OpenParen, method.left)?;
    put_maybe_method_parameters(&method.parameters, out)?;
    put_result(method.right, method.colon, &method.result, out)?;
    put_method_body(&method.body, out)
}

fn put_method_body(body: &Option<MethodBody>, out: &mut List<Token>) -> Result<(), Memory>
    ensures { OnOk result (out.new ≡ out.old ++ body_tokens body.now) }
{
    match body {
        None => Ok(()),
        Some(part) => {
            put_operator(out, Op::Eq, part.equals)?;
            put_expr(&part.body, out)
        }
    }
}

fn put_maybe_method_parameters(
    list: &Option<MethodParameters>,
    out: &mut List<Token>,
) -> Result<(), Memory>
    ensures { OnOk result (out.new
        ≡ out.old ++ maybe_tokens (option_map said_method_parameters list.now)) }
{
    match list {
        None => Ok(()),
        Some(parameters) => {
            put_method_parameter(&parameters.first, out)?;
            put_next_method_parameters(parameters.others.as_slice(), out)
        }
    }
}

fn put_next_method_parameters(
    others: &[NextMethodParameter],
    out: &mut List<Token>,
) -> Result<(), Memory>
    ensures { OnOk result (out.new
        ≡ out.old ++ all_tokens (map said_next_method_parameter others.now)) }
{
    for next in others {
        put_next_method_parameter(next, out)?;
    }
    Ok(())
}

fn put_next_method_parameter(
    next: &NextMethodParameter,
    out: &mut List<Token>,
) -> Result<(), Memory>
    ensures { OnOk result (out.new ≡ out.old ++ tokens_of (said_next_method_parameter next.now)) }
{
    put_mark(out, Mark::Comma, next.comma)?;
    put_method_parameter(&next.parameter, out)
}

fn put_method_parameter(parameter: &MethodParameter, out: &mut List<Token>) -> Result<(), Memory>
    ensures { OnOk result (out.new ≡ out.old ++ tokens_of (said_method_parameter parameter.now)) }
{
    match parameter {
        MethodParameter::Parameter(plain) => put_parameter(plain, out),
        MethodParameter::Self_(spot) => put_word(out, Reserved::Self_, *spot),
    }
}
