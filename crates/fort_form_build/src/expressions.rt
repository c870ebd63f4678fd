//! The forms of expressions, heads and generators.
ghost use Rattle.std.specs.Prelude.{◌≡◌, ◌∷◌, [], map, option_map, IfOk};
ghost use Rattle.fort_tree.specs.declared.expr.Expr.{out-Expr};
ghost use Rattle.fort_form_meaning.specs.Source.{Source};
ghost use Rattle.fort_form_meaning.specs.Formed.{formed_expr, formed_generator, formed_head, formed_next_generator};
ghost use Rattle.fort_form_meaning.specs.Forming.{assignment as assignment_of, big_place as place_of_big, opened, reduction as reduction_of, spawned as spawned_of, update as update_of};
ghost use Rattle.fort_form_tasks.specs.Tasks.{expr_at, inside_head, inside_maybe_head, next_source, source_form};
ghost use Rattle.fort_form_build.specs.Taking.{Gives};

use crate::taking::take;
use fort_base::{Boxed, List, Memory, NameId, Place};
use fort_base_stack::Stack;
use fort_form::{Form, Generator as FormGenerator, Reduction, Update};
use fort_form_meaning::{Lookup, parameters, place_of};
use fort_tree::{AssignSign, Big, Expr, Generator, Head, NextGenerator};
use std::alloc::Global;

/// An expression.
pub fn expression<L: Lookup>(
    alloc: Global,
    lookup: &L,
    expr: &Expr,
    forms: &mut Stack<Form>,
) -> Result<Form, Memory>
    ensures { IfOk result
        (Gives (expr_at (L.source lookup.now) (out-Expr expr.now))
        (formed_expr (L.source lookup.now) expr.now) forms.old forms.new) }
{
    match expr {
        Expr::Flat(_) => Ok(take(forms)?),
        Expr::Assign { sign, head, .. } => Ok(assigned(alloc, lookup, head, *sign, forms)?),
        Expr::Open { head, .. } => Ok(behind_head(alloc, lookup, head.get(), forms)?),
        Expr::OpenAssign { head, sign, .. } => {
            Ok(assigned_behind_head(alloc, lookup, head.get(), *sign, forms)?)
        }
    }
}

/// An assignment, whose value may stand behind a head.
fn assigned<L: Lookup>(
    alloc: Global,
    lookup: &L,
    head: &Option<Boxed<Head>>,
    sign: AssignSign,
    forms: &mut Stack<Form>,
) -> Result<Form, Memory>
    ensures { IfOk result (λ form. (target : _) (value : _)
        → Gives (target ∷ value ∷ inside_maybe_head (L.source lookup.now) head.now)
        (assignment_of target sign
        (opened (option_map (formed_head (L.source lookup.now)) head.now) value)) forms.old
        forms.new form) }
{
    let target = take(forms)?;
    let value = take(forms)?;
    let whole = maybe_headed(alloc, lookup, head, value, forms)?;
    let form = assignment(alloc, target, sign, whole)?;
    Ok(form)
}

/// What stands behind a head.
fn behind_head<L: Lookup>(
    alloc: Global,
    lookup: &L,
    head: &Head,
    forms: &mut Stack<Form>,
) -> Result<Form, Memory>
    ensures { IfOk result (λ form. (body : _)
        → Gives (body ∷ inside_head (L.source lookup.now) head.now)
        (formed_head (L.source lookup.now) head.now body) forms.old forms.new form) }
{
    let body = take(forms)?;
    let form = headed(alloc, lookup, head, body, forms)?;
    Ok(form)
}

/// An assignment that stands behind a head.
fn assigned_behind_head<L: Lookup>(
    alloc: Global,
    lookup: &L,
    head: &Head,
    sign: AssignSign,
    forms: &mut Stack<Form>,
) -> Result<Form, Memory>
    ensures { IfOk result (λ form. (target : _) (value : _)
        → Gives (target ∷ value ∷ inside_head (L.source lookup.now) head.now)
        (formed_head (L.source lookup.now) head.now (assignment_of target sign value)) forms.old
        forms.new form) }
{
    let target = take(forms)?;
    let value = take(forms)?;
    let body = assignment(alloc, target, sign, value)?;
    let form = headed(alloc, lookup, head, body, forms)?;
    Ok(form)
}

/// An assignment.
fn assignment(alloc: Global, target: Form, sign: AssignSign, value: Form) -> Result<Form, Memory>
    ensures { IfOk result (λ form. form ≡ assignment_of target sign value) }
{
    let place = place_of(&target);
    let to = Boxed::new(alloc, target)?;
    let from = Boxed::new(alloc, value)?;
    Ok(Form::Assign(place, to, update(sign), from))
}

/// The sign of an assignment.
fn update(sign: AssignSign) -> Update
    ensures { result ≡ update_of sign }
{
    match sign {
        AssignSign::Becomes(_) => Update::Becomes,
        AssignSign::AddBecomes(_) => Update::Adds,
        AssignSign::SubtractBecomes(_) => Update::Subtracts,
    }
}

/// What a head that may be left out makes of what stands behind it.
fn maybe_headed<L: Lookup>(
    alloc: Global,
    lookup: &L,
    head: &Option<Boxed<Head>>,
    body: Form,
    forms: &mut Stack<Form>,
) -> Result<Form, Memory>
    ensures { IfOk result
        (Gives (inside_maybe_head (L.source lookup.now) head.now)
        (opened (option_map (formed_head (L.source lookup.now)) head.now) body) forms.old
        forms.new) }
{
    match head {
        None => Ok(body),
        Some(head) => Ok(headed(alloc, lookup, head.get(), body, forms)?),
    }
}

/// What a head makes of what stands behind it.
fn headed<L: Lookup>(
    alloc: Global,
    lookup: &L,
    head: &Head,
    body: Form,
    forms: &mut Stack<Form>,
) -> Result<Form, Memory>
    ensures { IfOk result
        (Gives (inside_head (L.source lookup.now) head.now)
        (formed_head (L.source lookup.now) head.now body) forms.old forms.new) }
{
    let boxed = Boxed::new(alloc, body)?;
    match head {
        Head::Atomic(spot) => Ok(Form::Atomic(spot.place, boxed)),
        Head::Tryatomic(spot) => Ok(Form::Tryatomic(spot.place, boxed)),
        Head::Throw(spot) => Ok(Form::Throw(spot.place, boxed)),
        Head::Spawn(spot) => Ok(spawned(alloc, lookup.spawning(), spot.place, boxed)?),
        Head::Fn {
            fn_,
            parameters: list,
            ..
        } => {
            let made = parameters(alloc, lookup, list)?;
            Ok(Form::Fn(fn_.place, made, boxed))
        }
        Head::Big {
            big,
            generator: tree,
            ..
        } => {
            let bound = generator(tree, forms)?;
            let held = Boxed::new(alloc, bound)?;
            Ok(Form::Reduce(big_place(*big), reduction(*big), held, boxed))
        }
    }
}

/// The form of `spawn`: `spawn'(fn () => e)`, all of it at the place of the word.
fn spawned(alloc: Global, spawning: NameId, place: Place, body: Boxed<Form>) -> Result<Form, Memory>
    ensures { IfOk result (λ form. form ≡ spawned_of spawning place body) }
{
    let function = Boxed::new(alloc, Form::Fn(place, List::new(alloc), body))?;
    let mut run = List::new(alloc);
    run.push(Form::Name(place, spawning))?;
    run.push(Form::Parens(place, function))?;
    Ok(Form::Run(place, run))
}

/// What a reduction joins by.
fn reduction(big: Big) -> Reduction
    ensures { result ≡ reduction_of big }
{
    match big {
        Big::Sum(_) => Reduction::Sum,
        Big::Prod(_) => Reduction::Product,
        Big::Max(_, _) => Reduction::Maximum,
        Big::Min(_, _) => Reduction::Minimum,
        Big::And(_, _) => Reduction::Conjunction,
        Big::Or(_, _) => Reduction::Disjunction,
    }
}

/// Where the first word of a reduction stands.
fn big_place(big: Big) -> Place
    ensures { result ≡ place_of_big big }
{
    match big {
        Big::Sum(spot) => spot.place,
        Big::Prod(spot) => spot.place,
        Big::Max(spot, _) => spot.place,
        Big::Min(spot, _) => spot.place,
        Big::And(spot, _) => spot.place,
        Big::Or(spot, _) => spot.place,
    }
}

/// A generator, with its source.
pub fn generator(tree: &Generator, forms: &mut Stack<Form>) -> Result<FormGenerator, Memory>
    ensures { IfOk result (λ made. (k : Source)
        → Gives (source_form k tree.now ∷ []) (formed_generator k tree.now) forms.old forms.new
        made) }
{
    let source = take(forms)?;
    match tree {
        Generator::Parallel { name, .. } => Ok(FormGenerator {
            place: name.spot.place,
            name: name.id,
            sequential: false,
            source,
        }),
        Generator::Sequential { name, .. } => Ok(FormGenerator {
            place: name.spot.place,
            name: name.id,
            sequential: true,
            source,
        }),
    }
}

/// The generators of a `for`, with their sources.
pub fn generators(
    alloc: Global,
    first: &Generator,
    others: &[NextGenerator],
    forms: &mut Stack<Form>,
) -> Result<List<FormGenerator>, Memory>
    ensures { IfOk result (λ made. (k : Source)
        → Gives (source_form k first.now ∷ map (next_source k) others.now)
        (formed_generator k first.now ∷ map (formed_next_generator k) others.now) forms.old
        forms.new made) }
{
    let begun = generator(first, forms)?;
    let mut made = List::new(alloc);
    made.push(begun)?;
    let further = further_generators(alloc, others, forms)?;
    made.append(further)?;
    Ok(made)
}

/// Further generators.
fn further_generators(
    alloc: Global,
    others: &[NextGenerator],
    forms: &mut Stack<Form>,
) -> Result<List<FormGenerator>, Memory>
    ensures { IfOk result (λ made. (k : Source)
        → Gives (map (next_source k) others.now) (map (formed_next_generator k) others.now)
        forms.old forms.new made) }
{
    let mut made = List::new(alloc);
    for next in others {
        made.push(generator(&next.generator, forms)?)?;
    }
    Ok(made)
}
