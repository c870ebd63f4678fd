//! What a declaration of locals begins with: a unit that is one name, or names in parentheses, and
//! nothing else.
ghost use Rattle.std.specs.Prelude.{◌≡◌, IfOk};
ghost use Rattle.std.specs.Option.{option_copied};
ghost use Rattle.fort_tree.specs.declared.expr.ExprList.{out-ExprList};
ghost use Rattle.fort_parse_first.specs.Plain as spec;

use fort_base::{List, Memory};
use fort_tree::{Atom, Expr, ExprList, Name, NextExpr, NextName, Operand, Spot};
use std::alloc::Global;

/// Two or more names in parentheses.
#[derive(Drop)]
pub struct PlainNames {
    pub left: Spot,
    pub first: Name,
    pub others: List<NextName>,
    pub right: Spot,
}

#[tactic(auto, unfolding(crate::specs::Plain::lone_atom))]
fn lone_atom(unit: &Operand) -> Option<&Atom>
    ensures value { option_copied result ≡ spec.lone_atom unit.now }
{
    if unit.prefix.is_none() && unit.run.rest.is_empty() {
        Some(&unit.run.first)
    } else {
        None
    }
}

/// The name that a unit is, where it is nothing else.
#[tactic(auto, unfolding(crate::specs::Plain::plain_name))]
pub fn plain_name(unit: &Operand) -> Option<Name>
    ensures { result ≡ spec.plain_name unit.now }
{
    match lone_atom(unit) {
        Some(Atom::Name(name)) => Some(*name),
        _ => None,
    }
}

#[tactic(auto, unfolding(crate::specs::Plain::expr_name))]
fn expr_name(expr: &Expr) -> Option<Name>
    ensures { result ≡ spec.expr_name expr.now }
{
    match expr {
        Expr::Flat(flat) if flat.rest.is_empty() => plain_name(&flat.first),
        _ => None,
    }
}

fn next_names(alloc: Global, exprs: &[NextExpr]) -> Result<Option<List<NextName>>, Memory>
    ensures { IfOk result (λ others. others ≡ spec.next_names exprs.now) }
{
    let mut found = List::new(alloc);
    for next in exprs {
        let Some(name) = expr_name(&next.expr) else {
            return Ok(None);
        };
        found.push(NextName {
            comma: next.comma,
            name,
        })?;
    }
    Ok(Some(found))
}

fn names_between(
    alloc: Global,
    left: Spot,
    list: &ExprList,
    right: Spot,
) -> Result<Option<PlainNames>, Memory>
    ensures { IfOk result (λ names. names
        ≡ spec.names_between left right (spec.expr_name (out-ExprList list.now).first)
        (spec.next_names (out-ExprList list.now).others)) }
{
    let Some(first) = expr_name(list.first.get()) else {
        return Ok(None);
    };
    match next_names(alloc, list.others.as_slice())? {
        Some(others) if !others.is_empty() => Ok(Some(PlainNames {
            left,
            first,
            others,
            right,
        })),
        _ => Ok(None),
    }
}

/// The names in parentheses, two or more, that a unit is, where it is nothing else.
#[tactic(auto, unfolding(crate::specs::Plain::plain_names))]
pub fn plain_names(alloc: Global, unit: &Operand) -> Result<Option<PlainNames>, Memory>
    ensures { IfOk result (λ names. names ≡ spec.plain_names unit.now) }
{
    match lone_atom(unit) {
        Some(
            Atom::Parens {
                left,
                contents: Some(list),
                right,
            },
        ) => names_between(alloc, *left, list, *right),
        _ => Ok(None),
    }
}
