ghost use Rattle.std.specs.Prelude.{◌≡◌, IsTrue, IfOk, ◌↔◌};
ghost use Rattle.fort_ops.specs.Precedence.{group_of};
ghost use Rattle.fort_tree.specs.declared.grouped.Grouped.{out-Grouped};
ghost use Rattle.fort_group.specs.Grouping.{root, fits, Continues, FitsLeft};
ghost use Rattle.fort_group.specs.Joining.{juxtaposed, first_link, linked, Pairs, Joins};

use crate::form::{Form, node_form};
use crate::number::same_side;
use fort_base::{Boxed, List, Memory};
use fort_ops::{Op, over};
use fort_tree::Grouped;
use std::alloc::Global;

/// Whether a tree may stand under an operator: it is a unit, or its own operator is over it. A
/// chain counts by its `=`, since all relational operators are of one group.
fn fits(tree: &Grouped, parent: Op) -> bool
    ensures { result ≡ fits (root tree.now) (group_of parent) }
{
    match tree {
        Grouped::Unit(_) => true,
        Grouped::Binary(op, _, _) => over(*op, parent),
        Grouped::Chain(_, _) => over(Op::Eq, parent),
        Grouped::Juxt(_) => over(Op::Juxt, parent),
    }
}

/// Whether a tree is a binary node that an operator may go on with, grouped to the left.
fn continues(tree: &Grouped, op: Op) -> bool
    ensures { IsTrue result ↔ Continues (out-Grouped tree.now) op }
{
    match tree {
        Grouped::Binary(other, _, _) => same_side(*other, op),
        _ => false,
    }
}

/// Whether a tree may be the left child of a binary node.
fn fits_left(tree: &Grouped, op: Op) -> bool
    ensures { IsTrue result ↔ FitsLeft tree.now op }
{
    fits(tree, op) || continues(tree, op)
}

/// Units side by side with one more; none where the left part is no unit and no juxtaposition, or
/// the right one no unit.
fn juxtapose(alloc: Global, left: Grouped, right: Grouped) -> Result<Option<Grouped>, Memory>
    ensures { IfOk result (λ o. o ≡ juxtaposed left right) }
{
    match (left, right) {
        (Grouped::Unit(first), Grouped::Unit(unit)) => {
            let mut units = List::new(alloc);
            units.push(first)?;
            units.push(unit)?;
            Ok(Some(Grouped::Juxt(units)))
        }
        (Grouped::Juxt(mut units), Grouped::Unit(unit)) => {
            units.push(unit)?;
            Ok(Some(Grouped::Juxt(units)))
        }
        _ => Ok(None),
    }
}

/// A chain of one operator, where the left part may stand in it.
fn begin(alloc: Global, op: Op, left: Grouped, right: Grouped) -> Result<Option<Grouped>, Memory>
    ensures { IfOk result (λ o. o ≡ first_link op left right) }
{
    if !fits(&left, Op::Eq) {
        return Ok(None);
    }
    let mut ops = List::new(alloc);
    ops.push(op)?;
    let mut parts = List::new(alloc);
    parts.push(left)?;
    parts.push(right)?;
    Ok(Some(Grouped::Chain(ops, parts)))
}

/// A chain with one operator and one part more, or a new one, where the right part may stand in it.
fn link(alloc: Global, op: Op, left: Grouped, right: Grouped) -> Result<Option<Grouped>, Memory>
    ensures { IfOk result (λ o. o ≡ linked op left right) }
{
    if !fits(&right, Op::Eq) {
        return Ok(None);
    }
    match left {
        Grouped::Chain(mut ops, mut parts) => {
            ops.push(op)?;
            parts.push(right)?;
            Ok(Some(Grouped::Chain(ops, parts)))
        }
        other => begin(alloc, op, other, right),
    }
}

/// A binary node, where both parts may stand in it.
fn pair(alloc: Global, op: Op, left: Grouped, right: Grouped) -> Result<Option<Grouped>, Memory>
    ensures { IfOk result (λ o. Pairs op left right o) }
{
    if fits_left(&left, op) && fits(&right, op) {
        let left = Boxed::new(alloc, left)?;
        let right = Boxed::new(alloc, right)?;
        Ok(Some(Grouped::Binary(op, left, right)))
    } else {
        Ok(None)
    }
}

/// The node of two parts and the operator between them, where it is one.
pub fn join(alloc: Global, op: Op, left: Grouped, right: Grouped) -> Result<Option<Grouped>, Memory>
    ensures { IfOk result (λ o. Joins op left right o) }
{
    match node_form(op) {
        Form::Juxt => juxtapose(alloc, left, right),
        Form::Chain => link(alloc, op, left, right),
        Form::Binary => pair(alloc, op, left, right),
    }
}
