//! The tokens of blocks and of the forms that end with `end`.
ghost use Rattle.std.specs.Prelude.{◌≡◌, ◌++◌, [], ◌∷◌, OnOk, map, option_map};
ghost use Rattle.fort_tree.specs.Said.{tokens_of, all_tokens, maybe_tokens, entries_tokens, else_tokens, semicolon_tokens};
ghost use Rattle.fort_tree.specs.Blocks.{initial_token};
ghost use Rattle.fort_yield.specs.Parts.{entry_tokens};
ghost use Rattle.fort_tree.specs.Tokens.{word};
ghost use Rattle.fort_tree.specs.Yield.{said_delimited, said_item, said_variable, said_also, said_block_item, said_case_clause, said_catch, said_elif, said_else_block, said_else_clause, said_finally, said_next_generator, said_type_clause};

use crate::expr::{put_expr, put_flat, put_generator};
use crate::put::{put_next_names, put_var};
use crate::types::put_type;
use fort_base::{Boxed, List, Memory};
use fort_lex_token::{Mark, Reserved, Token};
use fort_ops::Op;
use fort_tree::{
    Also, BlockItem, CaseClause, Catch, Delimited, Elif, ElseBlock, ElseClause, Finally, Flat,
    InitialSign, Item, NextGenerator, Spot, TypeClause, Variable,
};
use fort_yield_tokens::{put_mark, put_name, put_operator, put_semicolon, put_word};

#[cycle(put)]
pub fn put_delimited(form: &Delimited, out: &mut List<Token>) -> Result<(), Memory>
    ensures { OnOk result (out.new ≡ out.old ++ tokens_of (said_delimited form.now)) }
{
    match form {
        Delimited::Do {
            do_,
            block,
            others,
            end,
        } => {
            put_word(out, Reserved::Do, *do_)?;
            put_block(block.as_slice(), out)?;
            put_alsos(others.as_slice(), out)?;
            put_word(out, Reserved::End, *end)?;
        }
        Delimited::If {
            if_,
            condition,
            then,
            block,
            elifs,
            otherwise,
            end,
        } => {
            put_word(out, Reserved::If, *if_)?;
            put_flat(condition, out)?;
            put_then(*then, block.as_slice(), out)?;
            put_elifs(elifs.as_slice(), out)?;
            put_maybe_else_block(otherwise, out)?;
            put_word(out, Reserved::End, *end)?;
        }
        Delimited::While {
            while_,
            condition,
            do_,
            block,
            end,
        } => {
            put_word(out, Reserved::While, *while_)?;
            put_flat(condition, out)?;
            put_word(out, Reserved::Do, *do_)?;
            put_block(block.as_slice(), out)?;
            put_word(out, Reserved::End, *end)?;
        }
        Delimited::For {
            for_,
            generator,
            others,
            do_,
            block,
            end,
        } => {
            put_word(out, Reserved::For, *for_)?;
            put_generator(generator.get(), out)?;
            put_next_generators(others.as_slice(), out)?;
            put_word(out, Reserved::Do, *do_)?;
            put_block(block.as_slice(), out)?;
            put_word(out, Reserved::End, *end)?;
        }
        Delimited::Case {
            case,
            subject,
            of,
            clauses,
            otherwise,
            end,
        } => {
            put_word(out, Reserved::Case, *case)?;
            put_flat(subject, out)?;
            put_word(out, Reserved::Of, *of)?;
            put_case_clauses(clauses.as_slice(), out)?;
            put_otherwise(otherwise, *end, out)?;
        }
        Delimited::Typecase {
            typecase,
            name,
            equals,
            subject,
            of,
            clauses,
            otherwise,
            end,
        } => {
            put_word(out, Reserved::Typecase, *typecase)?;
            put_name(out, *name)?;
            put_operator(out, Op::Eq, *equals)?;
            put_flat(subject, out)?;
            put_word(out, Reserved::Of, *of)?;
            put_type_clauses(clauses.as_slice(), out)?;
            put_otherwise(otherwise, *end, out)?;
        }
        Delimited::Try {
            try_,
            block,
            catch,
            finally,
            end,
        } => {
            put_word(out, Reserved::Try, *try_)?;
            put_block(block.as_slice(), out)?;
            put_maybe_catch(catch, out)?;
            put_maybe_finally(finally, out)?;
            put_word(out, Reserved::End, *end)?;
        }
    }
    Ok(())
}

#[cycle(put)]
fn put_alsos(others: &[Also], out: &mut List<Token>) -> Result<(), Memory>
    ensures { OnOk result (out.new ≡ out.old ++ all_tokens (map said_also others.now)) }
{
    for also in others {
        put_also(also, out)?;
    }
    Ok(())
}

#[cycle(put)]
fn put_also(also: &Also, out: &mut List<Token>) -> Result<(), Memory>
    ensures { OnOk result (out.new ≡ out.old ++ tokens_of (said_also also.now)) }
{
    put_word(out, Reserved::Also, also.also)?;
    put_word(out, Reserved::Do, also.do_)?;
    put_block(also.block.as_slice(), out)?;
    Ok(())
}

#[cycle(put)]
fn put_elifs(elifs: &[Elif], out: &mut List<Token>) -> Result<(), Memory>
    ensures { OnOk result (out.new ≡ out.old ++ all_tokens (map said_elif elifs.now)) }
{
    for elif in elifs {
        put_elif(elif, out)?;
    }
    Ok(())
}

#[cycle(put)]
fn put_elif(elif: &Elif, out: &mut List<Token>) -> Result<(), Memory>
    ensures { OnOk result (out.new ≡ out.old ++ tokens_of (said_elif elif.now)) }
{
    put_word(out, Reserved::Elif, elif.elif)?;
    put_flat(&elif.condition, out)?;
    put_then(elif.then, elif.block.as_slice(), out)?;
    Ok(())
}

#[cycle(put)]
fn put_then(then: Spot, block: &[BlockItem], out: &mut List<Token>) -> Result<(), Memory>
    ensures { OnOk result (out.new ≡ out.old ++ word Reserved.Then
        then ∷ entries_tokens (map said_block_item block.now)) }
{
    put_word(out, Reserved::Then, then)?;
    put_block(block, out)?;
    Ok(())
}

#[cycle(put)]
fn put_maybe_else_block(otherwise: &Option<ElseBlock>, out: &mut List<Token>) -> Result<(), Memory>
    ensures { OnOk result (out.new
        ≡ out.old ++ maybe_tokens (option_map said_else_block otherwise.now)) }
{
    match otherwise {
        None => Ok(()),
        Some(block) => put_else_block(block, out),
    }
}

#[cycle(put)]
fn put_else_block(otherwise: &ElseBlock, out: &mut List<Token>) -> Result<(), Memory>
    ensures { OnOk result (out.new ≡ out.old ++ tokens_of (said_else_block otherwise.now)) }
{
    put_word(out, Reserved::Else, otherwise.else_)?;
    put_block(otherwise.block.as_slice(), out)?;
    Ok(())
}

#[cycle(put)]
fn put_next_generators(others: &[NextGenerator], out: &mut List<Token>) -> Result<(), Memory>
    ensures { OnOk result (out.new ≡ out.old ++ all_tokens (map said_next_generator others.now)) }
{
    for next in others {
        put_next_generator(next, out)?;
    }
    Ok(())
}

#[cycle(put)]
fn put_next_generator(next: &NextGenerator, out: &mut List<Token>) -> Result<(), Memory>
    ensures { OnOk result (out.new ≡ out.old ++ tokens_of (said_next_generator next.now)) }
{
    put_mark(out, Mark::Comma, next.comma)?;
    put_generator(&next.generator, out)?;
    Ok(())
}

#[cycle(put)]
fn put_case_clauses(clauses: &[CaseClause], out: &mut List<Token>) -> Result<(), Memory>
    ensures { OnOk result (out.new ≡ out.old ++ entries_tokens (map said_case_clause clauses.now)) }
{
    for clause in clauses {
        put_case_clause(clause, out)?;
    }
    Ok(())
}

#[cycle(put)]
fn put_case_clause(clause: &CaseClause, out: &mut List<Token>) -> Result<(), Memory>
    ensures { OnOk result (out.new ≡ out.old ++ entry_tokens (said_case_clause clause.now)) }
{
    put_flat(&clause.subject, out)?;
    put_mark(out, Mark::DoubleArrow, clause.arrow)?;
    put_expr(&clause.value, out)?;
    put_semicolon(out, clause.semicolon)?;
    Ok(())
}

#[cycle(put)]
fn put_type_clauses(clauses: &[TypeClause], out: &mut List<Token>) -> Result<(), Memory>
    ensures { OnOk result (out.new ≡ out.old ++ entries_tokens (map said_type_clause clauses.now)) }
{
    for clause in clauses {
        put_type_clause(clause, out)?;
    }
    Ok(())
}

#[cycle(put)]
fn put_type_clause(clause: &TypeClause, out: &mut List<Token>) -> Result<(), Memory>
    ensures { OnOk result (out.new ≡ out.old ++ entry_tokens (said_type_clause clause.now)) }
{
    put_type(&clause.ty, out)?;
    put_mark(out, Mark::DoubleArrow, clause.arrow)?;
    put_expr(&clause.value, out)?;
    put_semicolon(out, clause.semicolon)?;
    Ok(())
}

#[cycle(put)]
fn put_otherwise(
    otherwise: &Option<Boxed<ElseClause>>,
    end: Spot,
    out: &mut List<Token>,
) -> Result<(), Memory>
    ensures { OnOk result (out.new
        ≡ out.old
        ++ (else_tokens (option_map said_else_clause otherwise.now) ++ word Reserved.End end
        ∷ [])) }
{
    put_maybe_else_clause(otherwise, out)?;
    put_word(out, Reserved::End, end)?;
    Ok(())
}

#[cycle(put)]
fn put_maybe_else_clause(
    otherwise: &Option<Boxed<ElseClause>>,
    out: &mut List<Token>,
) -> Result<(), Memory>
    ensures { OnOk result (out.new
        ≡ out.old ++ else_tokens (option_map said_else_clause otherwise.now)) }
{
    match otherwise {
        None => Ok(()),
        Some(clause) => put_else_clause(clause.get(), out),
    }
}

#[cycle(put)]
fn put_else_clause(clause: &ElseClause, out: &mut List<Token>) -> Result<(), Memory>
    ensures { OnOk result (out.new
        ≡ out.old
        ++ (semicolon_tokens (said_else_clause clause.now).semicolon
        ++ tokens_of (said_else_clause clause.now).clause)) }
{
    put_semicolon(out, clause.semicolon)?;
    put_word(out, Reserved::Else, clause.else_)?;
    put_mark(out, Mark::DoubleArrow, clause.arrow)?;
    put_expr(&clause.value, out)?;
    Ok(())
}

#[cycle(put)]
fn put_maybe_catch(catch: &Option<Catch>, out: &mut List<Token>) -> Result<(), Memory>
    ensures { OnOk result (out.new ≡ out.old ++ maybe_tokens (option_map said_catch catch.now)) }
{
    match catch {
        None => Ok(()),
        Some(clauses) => put_catch(clauses, out),
    }
}

#[cycle(put)]
fn put_catch(catch: &Catch, out: &mut List<Token>) -> Result<(), Memory>
    ensures { OnOk result (out.new ≡ out.old ++ tokens_of (said_catch catch.now)) }
{
    put_word(out, Reserved::Catch, catch.catch)?;
    put_name(out, catch.name)?;
    put_type_clauses(catch.clauses.as_slice(), out)?;
    Ok(())
}

#[cycle(put)]
fn put_maybe_finally(finally: &Option<Finally>, out: &mut List<Token>) -> Result<(), Memory>
    ensures { OnOk result (out.new
        ≡ out.old ++ maybe_tokens (option_map said_finally finally.now)) }
{
    match finally {
        None => Ok(()),
        Some(block) => put_finally(block, out),
    }
}

#[cycle(put)]
fn put_finally(finally: &Finally, out: &mut List<Token>) -> Result<(), Memory>
    ensures { OnOk result (out.new ≡ out.old ++ tokens_of (said_finally finally.now)) }
{
    put_word(out, Reserved::Finally, finally.finally)?;
    put_block(finally.block.as_slice(), out)?;
    Ok(())
}

#[cycle(put)]
fn put_block(block: &[BlockItem], out: &mut List<Token>) -> Result<(), Memory>
    ensures { OnOk result (out.new ≡ out.old ++ entries_tokens (map said_block_item block.now)) }
{
    for entry in block {
        put_block_item(entry, out)?;
    }
    Ok(())
}

#[cycle(put)]
fn put_block_item(entry: &BlockItem, out: &mut List<Token>) -> Result<(), Memory>
    ensures { OnOk result (out.new ≡ out.old ++ entry_tokens (said_block_item entry.now)) }
{
    put_item(&entry.item, out)?;
    put_semicolon(out, entry.semicolon)?;
    Ok(())
}

#[cycle(put)]
fn put_item(item: &Item, out: &mut List<Token>) -> Result<(), Memory>
    ensures { OnOk result (out.new ≡ out.old ++ tokens_of (said_item item.now)) }
{
    match item {
        Item::Variable(variable) => put_variable(variable.get(), out)?,
        Item::Names {
            left,
            first,
            others,
            right,
            colon,
            ty,
            equals,
            value,
        } => {
            put_mark(out, Mark::OpenParen, *left)?;
            put_name(out, *first)?;
            put_next_names(others.as_slice(), out)?;
            put_mark(out, Mark::CloseParen, *right)?;
            put_operator(out, Op::Range, *colon)?;
            put_type(ty.get(), out)?;
            put_operator(out, Op::Eq, *equals)?;
            put_expr(value.get(), out)?;
        }
        Item::Expr(expr) => put_expr(expr, out)?,
    }
    Ok(())
}

#[cycle(put)]
pub fn put_variable(variable: &Variable, out: &mut List<Token>) -> Result<(), Memory>
    ensures { OnOk result (out.new ≡ out.old ++ tokens_of (said_variable variable.now)) }
{
    put_var(out, variable.var)?;
    put_name(out, variable.name)?;
    put_operator(out, Op::Range, variable.colon)?;
    put_type(&variable.ty, out)?;
    put_initial_sign(out, variable.sign)?;
    put_expr(&variable.value, out)?;
    Ok(())
}

fn put_initial_sign(out: &mut List<Token>, sign: InitialSign) -> Result<(), Memory>
    ensures { OnOk result (out.new ≡ out.old ++ initial_token sign ∷ []) }
{
    match sign {
        InitialSign::Equals(spot) => put_operator(out, Op::Eq, spot),
        InitialSign::Becomes(spot) => put_mark(out, Mark::Becomes, spot),
    }
}
