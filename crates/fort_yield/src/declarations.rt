//! The tokens of declarations.
ghost use Rattle.std.specs.Prelude.{◌≡◌, ◌++◌, [], ◌∷◌, OnOk, map, option_map};
ghost use Rattle.fort_tree.specs.Said.{tokens_of, all_tokens, maybe_tokens, entries_tokens};
ghost use Rattle.fort_tree.specs.Declarations.{name_first, name_more, said_function, names_tokens, extends_tokens, excludes_tokens, comprises_tokens, said_trait, said_object_parameter, said_next_object_parameter, said_object_parameter_list, said_object_parameters, said_object, said_declaration, said_declared};
ghost use Rattle.fort_tree.specs.Tokens.{marked, operator};
ghost use Rattle.fort_tree.specs.Types.{said_type};
ghost use Rattle.fort_yield.specs.Parts.{entry_tokens};

use crate::delimited::put_variable;
use crate::expr::put_expr;
use crate::members::{put_object_entries, put_trait_entries};
use crate::put::{put_next_names, put_var};
use crate::types::{put_maybe_parameters, put_type};
use fort_base::{List, Memory};
use fort_lex_token::{Mark, Reserved, Token};
use fort_ops::Op;
use fort_tree::{
    Comprises, Declaration, Declared, Excludes, Extends, Function, FunctionName, Names,
    NextObjectParameter, Object, ObjectParameter, ObjectParameterList, ObjectParameters, Spot,
    Trait, TypeTree,
};
use fort_yield_tokens::{put_mark, put_name, put_operator, put_semicolon, put_word};

pub fn put_declarations(declarations: &[Declared], out: &mut List<Token>) -> Result<(), Memory>
    ensures { OnOk result (out.new
        ≡ out.old ++ entries_tokens (map said_declared declarations.now)) }
{
    for declared in declarations {
        put_declared(declared, out)?;
    }
    Ok(())
}

fn put_declared(declared: &Declared, out: &mut List<Token>) -> Result<(), Memory>
    ensures { OnOk result (out.new ≡ out.old ++ entry_tokens (said_declared declared.now)) }
{
    put_declaration(&declared.declaration, out)?;
    put_semicolon(out, declared.semicolon)
}

fn put_declaration(declaration: &Declaration, out: &mut List<Token>) -> Result<(), Memory>
    ensures { OnOk result (out.new ≡ out.old ++ tokens_of (said_declaration declaration.now)) }
{
    match declaration {
        Declaration::Variable(variable) => put_variable(variable, out),
        Declaration::Function(function) => put_function(function, out),
        Declaration::Trait(tr) => put_trait(tr, out),
        Declaration::Object(object) => put_object(object, out),
    }
}

fn put_function(function: &Function, out: &mut List<Token>) -> Result<(), Memory>
    ensures { OnOk result (out.new ≡ out.old ++ tokens_of (said_function function.now)) }
{
    put_function_name(out, function.name)?;
    put_mark(out, Mark::OpenParen, function.left)?;
    put_maybe_parameters(&function.parameters, out)?;
    put_result(function.right, function.colon, &function.result, out)?;
    put_operator(out, Op::Eq, function.equals)?;
    put_expr(&function.body, out)
}

/// The `)` behind parameters, the `:` and the type of the result.
pub fn put_result(
    right: Spot,
    colon: Spot,
    ty: &TypeTree,
    out: &mut List<Token>,
) -> Result<(), Memory>
    ensures { OnOk result (out.new
        ≡ out.old ++ marked Mark.CloseParen right ∷ operator Op.Range colon
        ∷ tokens_of (said_type ty.now)) }
{
    put_mark(out, Mark::CloseParen, right)?;
    put_operator(out, Op::Range, colon)?;
    put_type(ty, out)
}

pub fn put_function_name(out: &mut List<Token>, name: FunctionName) -> Result<(), Memory>
    ensures { OnOk result (out.new ≡ out.old ++ name_first name ∷ name_more name) }
{
    match name {
        FunctionName::Name(plain) => put_name(out, plain),
        FunctionName::Operator(opr, sign) => {
            put_word(out, Reserved::Opr, opr)?;
            put_operator(out, sign.op, sign.spot)
        }
        FunctionName::Juxtaposition(opr, plain) => {
            put_word(out, Reserved::Opr, opr)?;
            put_name(out, plain)
        }
    }
}

fn put_names(names: &Names, out: &mut List<Token>) -> Result<(), Memory>
    ensures { OnOk result (out.new ≡ out.old ++ names_tokens names.now) }
{
    match names {
        Names::One(name) => put_name(out, *name),
        Names::Braces {
            left,
            first,
            others,
            right,
        } => {
            put_mark(out, Mark::OpenBrace, *left)?;
            put_name(out, *first)?;
            put_next_names(others.as_slice(), out)?;
            put_mark(out, Mark::CloseBrace, *right)
        }
    }
}

fn put_extends(extends: &Option<Extends>, out: &mut List<Token>) -> Result<(), Memory>
    ensures { OnOk result (out.new ≡ out.old ++ extends_tokens extends.now) }
{
    match extends {
        None => Ok(()),
        Some(clause) => {
            put_word(out, Reserved::Extends, clause.extends)?;
            put_names(&clause.names, out)
        }
    }
}

fn put_excludes(excludes: &Option<Excludes>, out: &mut List<Token>) -> Result<(), Memory>
    ensures { OnOk result (out.new ≡ out.old ++ excludes_tokens excludes.now) }
{
    match excludes {
        None => Ok(()),
        Some(clause) => {
            put_word(out, Reserved::Excludes, clause.excludes)?;
            put_names(&clause.names, out)
        }
    }
}

fn put_comprises(comprises: &Option<Comprises>, out: &mut List<Token>) -> Result<(), Memory>
    ensures { OnOk result (out.new ≡ out.old ++ comprises_tokens comprises.now) }
{
    match comprises {
        None => Ok(()),
        Some(clause) => {
            put_word(out, Reserved::Comprises, clause.comprises)?;
            put_names(&clause.names, out)
        }
    }
}

fn put_trait(tr: &Trait, out: &mut List<Token>) -> Result<(), Memory>
    ensures { OnOk result (out.new ≡ out.old ++ tokens_of (said_trait tr.now)) }
{
    put_word(out, Reserved::Trait, tr.trait_)?;
    put_name(out, tr.name)?;
    put_extends(&tr.extends, out)?;
    put_excludes(&tr.excludes, out)?;
    put_comprises(&tr.comprises, out)?;
    put_trait_entries(tr.members.as_slice(), out)?;
    put_word(out, Reserved::End, tr.end)
}

fn put_object(object: &Object, out: &mut List<Token>) -> Result<(), Memory>
    ensures { OnOk result (out.new ≡ out.old ++ tokens_of (said_object object.now)) }
{
    put_word(out, Reserved::Object, object.object)?;
    put_name(out, object.name)?;
    put_maybe_object_parameters(&object.parameters, out)?;
    put_extends(&object.extends, out)?;
    put_object_entries(object.members.as_slice(), out)?;
    put_word(out, Reserved::End, object.end)
}

fn put_maybe_object_parameters(
    parameters: &Option<ObjectParameters>,
    out: &mut List<Token>,
) -> Result<(), Memory>
    ensures { OnOk result (out.new
        ≡ out.old ++ maybe_tokens (option_map said_object_parameters parameters.now)) }
{
    match parameters {
        None => Ok(()),
        Some(group) => {
            put_mark(out, Mark::OpenParen, group.left)?;
            put_maybe_object_parameter_list(&group.parameters, out)?;
            put_mark(out, Mark::CloseParen, group.right)
        }
    }
}

fn put_maybe_object_parameter_list(
    list: &Option<ObjectParameterList>,
    out: &mut List<Token>,
) -> Result<(), Memory>
    ensures { OnOk result (out.new
        ≡ out.old ++ maybe_tokens (option_map said_object_parameter_list list.now)) }
{
    match list {
        None => Ok(()),
        Some(parameters) => {
            put_object_parameter(&parameters.first, out)?;
            put_next_object_parameters(parameters.others.as_slice(), out)
        }
    }
}

fn put_next_object_parameters(
    others: &[NextObjectParameter],
    out: &mut List<Token>,
) -> Result<(), Memory>
    ensures { OnOk result (out.new
        ≡ out.old ++ all_tokens (map said_next_object_parameter others.now)) }
{
    for next in others {
        put_next_object_parameter(next, out)?;
    }
    Ok(())
}

fn put_next_object_parameter(
    next: &NextObjectParameter,
    out: &mut List<Token>,
) -> Result<(), Memory>
    ensures { OnOk result (out.new ≡ out.old ++ tokens_of (said_next_object_parameter next.now)) }
{
    put_mark(out, Mark::Comma, next.comma)?;
    put_object_parameter(&next.parameter, out)
}

fn put_object_parameter(parameter: &ObjectParameter, out: &mut List<Token>) -> Result<(), Memory>
    ensures { OnOk result (out.new ≡ out.old ++ tokens_of (said_object_parameter parameter.now)) }
{
    put_var(out, parameter.var)?;
    put_name(out, parameter.name)?;
    put_operator(out, Op::Range, parameter.colon)?;
    put_type(&parameter.ty, out)
}
