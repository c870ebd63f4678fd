//! Reductions and assignments.
ghost use Rattle.std.specs.Prelude.{◌≡◌, ◌∷◌, [], IfOk, MatchOption, None};
ghost use Rattle.fort_typing_known.specs.Read.{facts};
ghost use Rattle.fort_typing_known.specs.Sets.{operator_set as set_of_operator};
ghost use Rattle.fort_typing_call.specs.Called.{called};
ghost use Rattle.fort_typing_rules.specs.Types.{type_of as type_in};
ghost use Rattle.fort_typing_rules.specs.Typing.{reduction_operator as operator_of_reduction, update_operator as operator_of_update};
ghost use Rattle.fort_typing_meaning.specs.Closing.{assign_answer, assigned_by, by_one, reduced, sum_by, unbroken};
ghost use Rattle.fort_typing_meaning.specs.Judging.{judged, judged_generator};
ghost use Rattle.fort_typing_build.specs.One.{one};

use crate::frames::{boxed, take_first, take_head, take_last};
use fort_base::rules::MISMATCH;
use fort_base::{Boxed, List, Memory, Place, Ty};
use fort_form::{Form, Generator, Reduction, Update};
use fort_form_typed::{Chosen, TypedForm};
use fort_ops::Op;
use fort_typing_call::{Called, call_of};
use fort_typing_joined::operator_set;
use fort_typing_known::{Fault, Known, is_below};
use fort_typing_meaning::{Frame, Outcome};
use fort_typing_parts::{place_of, refused, type_of, unit, untyped, value};
use std::alloc::Global;

/// The one of some parts, where there is one alone.
#[tactic(auto, using(crate::proofs::Kept::one_there, crate::proofs::Kept::one_other))]
fn only(parts: List<TypedForm>) -> Option<TypedForm>
    ensures { MatchOption result (one parts ≡ None) (λ part. parts ≡ part ∷ []) }
{
    let mut parts = parts;
    if parts.len() != 1 {
        return None;
    }
    parts.pop()
}

/// The operator that a reduction joins by.
fn reduction_operator(reduction: Reduction) -> Op
    ensures { result ≡ operator_of_reduction reduction }
{
    match reduction {
        Reduction::Sum => Op::Plus,
        Reduction::Product => Op::Times,
        Reduction::Maximum => Op::Max,
        Reduction::Minimum => Op::Min,
        Reduction::Conjunction => Op::And,
        Reduction::Disjunction => Op::Or,
    }
}

/// A reduction of its one generator's source, which has the type of its body.
#[tactic(auto, using(crate::proofs::Kept::generator_is, crate::proofs::Kept::reduced_other))]
pub fn reduce(
    alloc: Global,
    known: &Known,
    reduction: Reduction,
    generator: &Generator,
    frame: &mut Frame,
    found: Option<Fault>,
) -> Result<Outcome, Memory>
    ensures { IfOk result (λ o. o
        ≡ unbroken frame.old found
        (by_one frame.old.last found
        (λ u. reduced (facts known.now) reduction
        (judged_generator (facts known.now) generator.now) frame.old.first u found))) }
{
    if frame.broken {
        return Ok(untyped(found));
    }
    let Some(body) = take_last(alloc, frame)? else {
        return Ok(untyped(found));
    };
    let Some(source) = boxed(alloc, only(take_first(alloc, frame)))? else {
        return Ok(untyped(found));
    };
    let ty = type_of(body.get()).copy(alloc)?;
    let set = operator_set(known, reduction_operator(reduction), 2)?;
    Ok(value(
        TypedForm::Reduce(
            ty,
            reduction,
            set,
            generator.name,
            generator.sequential,
            source,
            body,
        ),
        found,
    ))
}

/// The operator of an assignment, where it has one.
fn update_operator(sign: Update) -> Option<Op>
    ensures { result ≡ operator_of_update sign }
{
    match sign {
        Update::Becomes => None,
        Update::Adds => Some(Op::Plus),
        Update::Subtracts => Some(Op::Minus),
    }
}

/// The types of a target and of what is added to it.
fn both_types(alloc: Global, target: &TypedForm, added: &TypedForm) -> Result<List<Ty>, Memory>
    ensures { IfOk result (λ types. types ≡ type_in target.now ∷ type_in added.now ∷ []) }
{
    let mut types = List::new(alloc);
    types.push(type_of(target).copy(alloc)?)?;
    types.push(type_of(added).copy(alloc)?)?;
    Ok(types)
}

/// `t += e` or `t -= e`: the operator is called once, and 603 stands at the target where its
/// result isn't below the target's type.
fn updated(
    alloc: Global,
    known: &Known,
    op: Op,
    place: Place,
    target: Boxed<TypedForm>,
    added: Boxed<TypedForm>,
    found: Option<Fault>,
) -> Result<Outcome, Memory>
    ensures { IfOk result (λ o. o
        ≡ sum_by (facts known.now) op place target added
        (called (facts known.now) (set_of_operator (facts known.now) op 2)
        (type_in target ∷ type_in added ∷ [])) found) }
{
    let set = operator_set(known, op, 2)?;
    let types = both_types(alloc, target.get(), added.get())?;
    match call_of(alloc, known, set, &types)? {
        Called::Result(sum, widened) => {
            if !is_below(known, &sum, type_of(target.get())) {
                return Ok(refused(MISMATCH, place, found));
            }
            let chosen = Chosen { set, widened };
            Ok(value(TypedForm::Update(unit(alloc), target, chosen, added), found))
        }
        Called::Refused(rule) => Ok(refused(rule, place, found)),
    }
}

/// An assignment of a value to a target, by an operator or by none.
fn assigned(
    alloc: Global,
    known: &Known,
    place: Place,
    op: Option<Op>,
    target: Boxed<TypedForm>,
    new: Boxed<TypedForm>,
    found: Option<Fault>,
) -> Result<Outcome, Memory>
    ensures { IfOk result (λ o. o ≡ assigned_by (facts known.now) place op target new found) }
{
    match op {
        None => Ok(value(TypedForm::Assign(unit(alloc), target, new), found)),
        Some(op) => updated(alloc, known, op, place, target, new, found),
    }
}

/// An assignment.
#[tactic(auto, using(crate::proofs::Kept::place_is), unfolding(fort_typing_meaning::specs::Closing::assign_answer))]
pub fn assign(
    alloc: Global,
    known: &Known,
    target: &Form,
    sign: Update,
    frame: &mut Frame,
    found: Option<Fault>,
) -> Result<Outcome, Memory>
    ensures { IfOk result (λ o. o
        ≡ unbroken frame.old found
        (assign_answer (facts known.now) (judged (facts known.now) target.now).place sign
        frame.old found)) }
{
    if frame.broken {
        return Ok(untyped(found));
    }
    let Some(typed) = take_head(alloc, frame)? else {
        return Ok(untyped(found));
    };
    let Some(new) = take_last(alloc, frame)? else {
        return Ok(untyped(found));
    };
    let op = update_operator(sign);
    assigned(alloc, known, place_of(target), op, typed, new, found)
}
