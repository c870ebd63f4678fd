//! The forms of flat expressions, runs, atoms and postfixes.
ghost use Rattle.std.specs.Prelude.{◌≡◌, ◌∷◌, [], Some, length, option_map, IfOk};
ghost use Rattle.fort_form.specs.declared.form.Form.TheVariants as a_form;
ghost use Rattle.fort_tree.specs.declared.expr.Atom.{out-Atom};
ghost use Rattle.fort_tree.specs.declared.expr.Operand.{out-Operand};
ghost use Rattle.fort_tree.specs.declared.expr.Postfix.{out-Postfix};
ghost use Rattle.fort_tree.specs.declared.grouped.Grouped.{out-Grouped};
ghost use Rattle.fort_form_meaning.specs.Source.{Source};
ghost use Rattle.fort_form_meaning.specs.Formed.{formed_atom, formed_expr_list, formed_operand, formed_postfix, formed_run};
ghost use Rattle.fort_form_meaning.specs.Forming.{arguments_of, begins, between as between_parentheses, prefixed as behind_prefix};
ghost use Rattle.fort_form_meaning.specs.Places.{place_of};
ghost use Rattle.fort_form_tasks.specs.Tasks.{atom_at, formed_group, group_at, inside_list, inside_run, postfix_at};
ghost use Rattle.fort_form_build.specs.Taking.{Gives, list_forms};

use crate::taking::{take, take_boxed, take_forms};
use fort_base::{List, Memory, Place};
use fort_base_stack::Stack;
use fort_form::Form;
use fort_form_meaning::{Lookup, place_of};
use fort_ops::Op;
use fort_tree::{Atom, ExprList, Flat, Grouped, Operand, Postfix, Prefix, Run, TypeTree};
use std::alloc::Global;

/// A part of a flat expression, by its grouping.
pub fn group(
    alloc: Global,
    flat: &Flat,
    grouped: &Grouped,
    forms: &mut Stack<Form>,
) -> Result<Form, Memory>
    ensures { IfOk result (λ form. (k : Source)
        → Gives (group_at k flat.now (out-Grouped grouped.now))
        (formed_group k flat.now grouped.now) forms.old forms.new form) }
{
    match grouped {
        Grouped::Unit(_) => Ok(take(forms)?),
        Grouped::Binary(op, _, _) => Ok(binary(alloc, *op, forms)?),
        Grouped::Chain(ops, parts) => Ok(chain(alloc, ops.as_slice(), parts.len(), forms)?),
        Grouped::Juxt(units) => Ok(beside(alloc, units.len(), forms)?),
    }
}

/// An infix operator and its sides.
fn binary(alloc: Global, op: Op, forms: &mut Stack<Form>) -> Result<Form, Memory>
    ensures { IfOk result (λ form. (left : _) (right : _)
        → Gives (left ∷ right ∷ []) (a_form.Operator (place_of left) op (left ∷ right ∷ []))
        forms.old forms.new form) }
{
    let sides = take_forms(alloc, forms, 2)?;
    Ok(Form::Operator(first_place(&sides), op, sides))
}

/// Relations and their sides.
fn chain(alloc: Global, ops: &[Op], count: usize, forms: &mut Stack<Form>) -> Result<Form, Memory>
    ensures { IfOk result (λ form. (sides : _) → length sides ≡ count
        → Gives sides (a_form.Chain (begins sides) ops.now sides) forms.old forms.new form) }
{
    let sides = take_forms(alloc, forms, count)?;
    let relations = List::from_slice(alloc, ops)?;
    Ok(Form::Chain(first_place(&sides), relations, sides))
}

/// Units beside each other.
fn beside(alloc: Global, count: usize, forms: &mut Stack<Form>) -> Result<Form, Memory>
    ensures { IfOk result (λ form. (units : _) → length units ≡ count
        → Gives units (a_form.Beside (begins units) units) forms.old forms.new form) }
{
    let units = take_forms(alloc, forms, count)?;
    Ok(Form::Beside(first_place(&units), units))
}

/// Where the first of some forms begins.
fn first_place(forms: &List<Form>) -> Place
    ensures { result ≡ begins forms.now }
{
    match forms.get(0) {
        Some(form) => place_of(form),
        None => Place { line: 0, column: 0 },
    }
}

/// A unit: its run, behind its prefix operator where it has one.
pub fn unit(alloc: Global, operand: &Operand, forms: &mut Stack<Form>) -> Result<Form, Memory>
    ensures { IfOk result (λ form. (k : Source)
        → Gives (formed_run k (out-Operand operand.now).run ∷ []) (formed_operand k operand.now)
        forms.old forms.new form) }
{
    match operand.prefix {
        None => Ok(take(forms)?),
        Some(prefix) => Ok(signed(alloc, prefix, forms)?),
    }
}

/// A run behind a prefix operator.
fn signed(alloc: Global, prefix: Prefix, forms: &mut Stack<Form>) -> Result<Form, Memory>
    ensures { IfOk result (λ form. (run : _)
        → Gives (run ∷ []) (behind_prefix (Some prefix) run) forms.old forms.new form) }
{
    match prefix {
        Prefix::Minus(spot) => Ok(prefixed(alloc, spot.place, Op::Minus, forms)?),
        Prefix::Not(spot) => Ok(prefixed(alloc, spot.place, Op::Not, forms)?),
    }
}

/// A prefix operator and its operand.
fn prefixed(alloc: Global, place: Place, op: Op, forms: &mut Stack<Form>) -> Result<Form, Memory>
    ensures { IfOk result (λ form. (run : _)
        → Gives (run ∷ []) (a_form.Operator place op (run ∷ [])) forms.old forms.new form) }
{
    let operand = take_forms(alloc, forms, 1)?;
    Ok(Form::Operator(place, op, operand))
}

/// A run: its elements, or its one atom.
pub fn run(alloc: Global, run: &Run, forms: &mut Stack<Form>) -> Result<Form, Memory>
    ensures { IfOk result (λ form. (k : Source)
        → Gives (inside_run k run.now) (formed_run k run.now) forms.old forms.new form) }
{
    if run.rest.is_empty() {
        return Ok(take(forms)?);
    }
    let elements = take_forms(alloc, forms, 1 + run.rest.as_slice().len())?;
    Ok(Form::Run(first_place(&elements), elements))
}

/// An atom.
pub fn atom<L: Lookup>(
    alloc: Global,
    lookup: &L,
    atom: &Atom,
    forms: &mut Stack<Form>,
) -> Result<Form, Memory>
    ensures { IfOk result
        (Gives (atom_at (L.source lookup.now) (out-Atom atom.now))
        (formed_atom (L.source lookup.now) atom.now) forms.old forms.new) }
{
    match atom {
        Atom::Name(name) => Ok(Form::Name(name.spot.place, name.id)),
        Atom::Number(value, spot) => Ok(Form::Number(spot.place, *value)),
        Atom::Text(text, spot) => Ok(Form::Text(spot.place, *text)),
        Atom::True(spot) => Ok(Form::Truth(spot.place, true)),
        Atom::False(spot) => Ok(Form::Truth(spot.place, false)),
        Atom::Self_(spot) => Ok(Form::Receiver(spot.place)),
        Atom::Parens { left, contents, .. } => { Ok(between(alloc, left.place, contents, forms)?) }
        Atom::Delimited(_) => Ok(take(forms)?),
        Atom::ArrayFill { spots, element, .. } => {
            let place = spots.get().array.place;
            Ok(fill(alloc, lookup, place, element.get(), forms)?)
        }
    }
}

/// What stands between parentheses.
fn between(
    alloc: Global,
    place: Place,
    contents: &Option<ExprList>,
    forms: &mut Stack<Form>,
) -> Result<Form, Memory>
    ensures { IfOk result (λ form. (k : Source)
        → Gives (inside_list k contents.now)
        (between_parentheses place (option_map (formed_expr_list k) contents.now)) forms.old
        forms.new form) }
{
    match contents {
        None => Ok(Form::Tuple(place, List::new(alloc))),
        Some(list) => Ok(parenthesized(alloc, place, list, forms)?),
    }
}

/// One expression or more between parentheses.
fn parenthesized(
    alloc: Global,
    place: Place,
    list: &ExprList,
    forms: &mut Stack<Form>,
) -> Result<Form, Memory>
    ensures { IfOk result (λ form. (k : Source)
        → Gives (list_forms k list.now)
        (between_parentheses place (Some (formed_expr_list k list.now))) forms.old forms.new
        form) }
{
    if list.others.is_empty() {
        let inner = take_boxed(alloc, forms)?;
        return Ok(Form::Parens(place, inner));
    }
    let parts = take_forms(alloc, forms, 1 + list.others.as_slice().len())?;
    Ok(Form::Tuple(place, parts))
}

/// The forms of a list that may be left out.
fn listed(
    alloc: Global,
    list: &Option<ExprList>,
    forms: &mut Stack<Form>,
) -> Result<List<Form>, Memory>
    ensures { IfOk result (λ made. (k : Source)
        → Gives (inside_list k list.now)
        (arguments_of (option_map (formed_expr_list k) list.now)) forms.old forms.new made) }
{
    match list {
        None => Ok(List::new(alloc)),
        Some(list) => Ok(take_forms(alloc, forms, 1 + list.others.as_slice().len())?),
    }
}

/// An array that is filled.
fn fill<L: Lookup>(
    alloc: Global,
    lookup: &L,
    place: Place,
    element: &TypeTree,
    forms: &mut Stack<Form>,
) -> Result<Form, Memory>
    ensures { IfOk result (λ form. (size : _) (value : _)
        → Gives (size ∷ value ∷ [])
        (a_form.Fill place ((L.source lookup.now).written element.now) size value) forms.old
        forms.new form) }
{
    let ty = lookup.written_type(alloc, element)?;
    let size = take_boxed(alloc, forms)?;
    let value = take_boxed(alloc, forms)?;
    Ok(Form::Fill(place, ty, size, value))
}

/// A postfix.
pub fn postfix(alloc: Global, postfix: &Postfix, forms: &mut Stack<Form>) -> Result<Form, Memory>
    ensures { IfOk result (λ form. (k : Source)
        → Gives (postfix_at k (out-Postfix postfix.now)) (formed_postfix k postfix.now)
        forms.old forms.new form) }
{
    match postfix {
        Postfix::Subscript { left, .. } => {
            let index = take_boxed(alloc, forms)?;
            Ok(Form::Subscript(left.place, index))
        }
        Postfix::Power { power, .. } => {
            let exponent = take_boxed(alloc, forms)?;
            Ok(Form::Power(power.place, exponent))
        }
        Postfix::Field { dot, name } => { Ok(Form::Field(dot.place, name.spot.place, name.id)) }
        Postfix::Call {
            dot,
            name,
            arguments,
            ..
        } => {
            let given = listed(alloc, arguments, forms)?;
            Ok(Form::Method(dot.place, name.spot.place, name.id, given))
        }
    }
}
