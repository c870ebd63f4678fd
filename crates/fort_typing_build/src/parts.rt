//! Forms whose parts are all asked in one way.
ghost use Rattle.std.specs.Prelude.{◌≡◌, IfOk, length, map};
ghost use Rattle.fort_base.specs.declared.ty.Ty.TheVariants as a_type;
ghost use Rattle.fort_ops.specs.declared.op.Op.TheVariants as an_op;
ghost use Rattle.fort_form_typed.specs.declared.typed_form.TypedForm.TheVariants as a_typed;
ghost use Rattle.fort_typing_known.specs.Read.{facts};
ghost use Rattle.fort_typing_known.specs.Sets.{operator_set as set_of_operator};
ghost use Rattle.fort_typing_rules.specs.declared.part.Meaning.TheVariants as a_meaning;
ghost use Rattle.fort_typing_rules.specs.Types.{boolean, parameter_type, tuple_of, type_of as type_in, types_of as types_in, unit as unit_type};
ghost use Rattle.fort_typing_meaning.specs.Tests.{value as value_outcome};
ghost use Rattle.fort_typing_meaning.specs.Joining.{beside as beside_of, operation as called_operation, run as run_of};
ghost use Rattle.fort_typing_meaning.specs.Closing.{by_one, by_two, last_type as type_of_last, made_outcome as outcome_of, means, unbroken};

use crate::copies::{domain, parameters};
use crate::frames::{take_calls, take_first, take_head, take_last, take_parts};
use fort_base::{Boxed, Memory, NameId, Place, Ty};
use fort_form::Parameter;
use fort_form_typed::TypedForm;
use fort_ops::Op;
use fort_types_builtin::BOOLEAN;
use fort_typing_joined::{beside, operation, operator_set, run};
use fort_typing_known::{Fault, Known};
use fort_typing_meaning::{Frame, Made, Outcome};
use fort_typing_parts::{refused, type_of, types_of, unit, untyped, value};
use fort_typing_rules::Meaning;
use std::alloc::Global;
use std::mem;

/// What is made of elements or operands, as a form.
fn made_outcome(made: Made, found: Option<Fault>) -> Outcome
    ensures { result ≡ outcome_of made found }
{
    match made {
        Made::Gives(typed) => value(typed, found),
        Made::Breaks(fault) => refused(fault.rule, fault.place, found),
        Made::Stops => untyped(found),
    }
}

/// A form that is its one part: what stands in parentheses, and a `do` of one block.
pub fn same(frame: &mut Frame, found: Option<Fault>) -> Outcome
    ensures { result ≡ by_one frame.old.head found (λ t. value_outcome t found) }
{
    match mem::replace(&mut frame.head, None) {
        Some(typed) => value(typed, found),
        None => untyped(found),
    }
}

/// A tuple.
pub fn tuple(alloc: Global, frame: &mut Frame, found: Option<Fault>) -> Result<Outcome, Memory>
    ensures { IfOk result (λ o. o
        ≡ unbroken frame.old found
        (value_outcome (a_typed.Tuple (a_type.Tuple (types_in frame.old.first)) frame.old.first)
        found)) }
{
    if frame.broken {
        return Ok(untyped(found));
    }
    let types = types_of(alloc, frame.first.as_slice())?;
    let first = take_first(alloc, frame);
    Ok(value(TypedForm::Tuple(Ty::Tuple(types), first), found))
}

/// An operator and its operands: a call of its set.
pub fn operator(
    alloc: Global,
    known: &Known,
    place: Place,
    op: Op,
    frame: &mut Frame,
    found: Option<Fault>,
) -> Result<Outcome, Memory>
    ensures { IfOk result (λ o. o
        ≡ unbroken frame.old found
        (outcome_of
        (called_operation (facts known.now)
        (set_of_operator (facts known.now) op (length frame.old.first)) frame.old.first place)
        found)) }
{
    if frame.broken {
        return Ok(untyped(found));
    }
    let set = operator_set(known, op, frame.first.len())?;
    let first = take_first(alloc, frame);
    let made = operation(alloc, known, set, first, place)?;
    Ok(made_outcome(made, found))
}

/// A chain of relations, whose comparisons are called.
pub fn chain(
    alloc: Global,
    known: &Known,
    frame: &mut Frame,
    found: Option<Fault>,
) -> Result<Outcome, Memory>
    ensures { IfOk result (λ o. o
        ≡ unbroken frame.old found
        (value_outcome
        (a_typed.Chain boolean (set_of_operator (facts known.now) an_op.And 2) frame.old.calls
        frame.old.first) found)) }
{
    if frame.broken {
        return Ok(untyped(found));
    }
    let set = operator_set(known, Op::And, 2)?;
    let first = take_first(alloc, frame);
    let calls = take_calls(alloc, frame);
    Ok(value(
        TypedForm::Chain(Ty::Named(BOOLEAN), set, calls, first),
        found,
    ))
}

/// A juxtaposition, which is what its elements come to.
pub fn juxtaposition(
    alloc: Global,
    known: &Known,
    frame: &mut Frame,
    found: Option<Fault>,
) -> Result<Outcome, Memory>
    ensures { IfOk result (λ o. o ≡ beside_of (facts known.now) frame.old.parts found) }
{
    let parts = take_parts(alloc, frame);
    beside(alloc, known, parts, found)
}

/// A run, likewise.
pub fn tight_run(
    alloc: Global,
    known: &Known,
    frame: &mut Frame,
    found: Option<Fault>,
) -> Result<Outcome, Memory>
    ensures { IfOk result (λ o. o ≡ run_of (facts known.now) frame.old.parts found) }
{
    let parts = take_parts(alloc, frame);
    run(alloc, known, parts, found)
}

/// `[e]`
pub fn subscript(frame: &mut Frame, found: Option<Fault>) -> Outcome
    ensures { result ≡ by_one frame.old.head found (λ t. means (a_meaning.Index t) found) }
{
    match mem::replace(&mut frame.head, None) {
        Some(typed) => Outcome {
            seen: Meaning::Index(typed),
            found,
        },
        None => untyped(found),
    }
}

/// `^e`
pub fn power(frame: &mut Frame, found: Option<Fault>) -> Outcome
    ensures { result ≡ by_one frame.old.head found (λ t. means (a_meaning.Exponent t) found) }
{
    match mem::replace(&mut frame.head, None) {
        Some(typed) => Outcome {
            seen: Meaning::Exponent(typed),
            found,
        },
        None => untyped(found),
    }
}

/// `.m(e, ..)`
pub fn method(
    alloc: Global,
    at: Place,
    name: NameId,
    frame: &mut Frame,
    found: Option<Fault>,
) -> Outcome
    ensures { result
        ≡ unbroken frame.old found (means (a_meaning.Method at name frame.old.first) found) }
{
    if frame.broken {
        return untyped(found);
    }
    Outcome {
        seen: Meaning::Method(at, name, take_first(alloc, frame)),
        found,
    }
}

/// `array⟦T⟧(n).fill(v)`
pub fn fill(
    alloc: Global,
    ty: &Ty,
    frame: &mut Frame,
    found: Option<Fault>,
) -> Result<Outcome, Memory>
    ensures { IfOk result (λ o. o
        ≡ by_two frame.old.head frame.old.last found
        (λ t u. value_outcome (a_typed.Fill (a_type.Array ty.now) ty.now t u) found)) }
{
    let Some(size) = take_head(alloc, frame)? else {
        return Ok(untyped(found));
    };
    let Some(element) = take_last(alloc, frame)? else {
        return Ok(untyped(found));
    };
    let array = Ty::Array(Boxed::new(alloc, ty.copy(alloc)?)?);
    let ty = ty.copy(alloc)?;
    Ok(value(TypedForm::Fill(array, ty, size, element), found))
}

/// The type of the last of some items, or `()` where there is none.
#[tactic(auto, using(crate::proofs::LastType::last_there, crate::proofs::LastType::none_there))]
fn last_type(alloc: Global, items: &[TypedForm]) -> Result<Ty, Memory>
    ensures { IfOk result (λ ty. ty ≡ type_of_last items.now) }
{
    match items.last() {
        Some(item) => type_of(item).copy(alloc),
        None => Ok(unit(alloc)),
    }
}

/// A block, which has the type of its last item.
pub fn block(alloc: Global, frame: &mut Frame, found: Option<Fault>) -> Result<Outcome, Memory>
    ensures { IfOk result (λ o. o
        ≡ unbroken frame.old found
        (value_outcome (a_typed.Block (type_of_last frame.old.first) frame.old.first) found)) }
{
    if frame.broken {
        return Ok(untyped(found));
    }
    let ty = last_type(alloc, frame.first.as_slice())?;
    let first = take_first(alloc, frame);
    Ok(value(TypedForm::Block(ty, first), found))
}

/// A loop over a condition.
pub fn while_loop(alloc: Global, frame: &mut Frame, found: Option<Fault>) -> Result<Outcome, Memory>
    ensures { IfOk result (λ o. o
        ≡ by_two frame.old.head frame.old.last found
        (λ t u. value_outcome (a_typed.While unit_type t u) found)) }
{
    let Some(condition) = take_head(alloc, frame)? else {
        return Ok(untyped(found));
    };
    let Some(body) = take_last(alloc, frame)? else {
        return Ok(untyped(found));
    };
    Ok(value(TypedForm::While(unit(alloc), condition, body), found))
}

/// `atomic e`, which has the type of e.
pub fn atomic(alloc: Global, frame: &mut Frame, found: Option<Fault>) -> Result<Outcome, Memory>
    ensures { IfOk result (λ o. o
        ≡ by_one frame.old.head found
        (λ t. value_outcome (a_typed.Atomic (type_in t) t) found)) }
{
    let Some(body) = take_head(alloc, frame)? else {
        return Ok(untyped(found));
    };
    let ty = type_of(body.get()).copy(alloc)?;
    Ok(value(TypedForm::Atomic(ty, body), found))
}

/// `tryatomic e`, which has the type of e.
pub fn tryatomic(alloc: Global, frame: &mut Frame, found: Option<Fault>) -> Result<Outcome, Memory>
    ensures { IfOk result (λ o. o
        ≡ by_one frame.old.head found
        (λ t. value_outcome (a_typed.Tryatomic (type_in t) t) found)) }
{
    let Some(body) = take_head(alloc, frame)? else {
        return Ok(untyped(found));
    };
    let ty = type_of(body.get()).copy(alloc)?;
    Ok(value(TypedForm::Tryatomic(ty, body), found))
}

/// `throw e`, which is `Nothing`.
pub fn throw(alloc: Global, frame: &mut Frame, found: Option<Fault>) -> Result<Outcome, Memory>
    ensures { IfOk result (λ o. o
        ≡ by_one frame.old.head found
        (λ t. value_outcome (a_typed.Throw a_type.Nothing t) found)) }
{
    let Some(exception) = take_head(alloc, frame)? else {
        return Ok(untyped(found));
    };
    Ok(value(TypedForm::Throw(Ty::Nothing, exception), found))
}

/// The type of a function.
fn arrow(alloc: Global, domain: Ty, gives: &Ty) -> Result<Ty, Memory>
    ensures { IfOk result (λ ty. ty ≡ a_type.Arrow domain gives.now) }
{
    let domain = Boxed::new(alloc, domain)?;
    let gives = Boxed::new(alloc, gives.copy(alloc)?)?;
    Ok(Ty::Arrow(domain, gives))
}

/// `fn (x: T, ..) => e`
pub fn function(
    alloc: Global,
    takes: &[Parameter],
    frame: &mut Frame,
    found: Option<Fault>,
) -> Result<Outcome, Memory>
    ensures { IfOk result (λ o. o
        ≡ unbroken frame.old found
        (by_one frame.old.head found
        (λ t. value_outcome
        (a_typed.Fn (a_type.Arrow (tuple_of (map parameter_type takes.now)) (type_in t))
        takes.now t) found))) }
{
    if frame.broken {
        return Ok(untyped(found));
    }
    let Some(body) = take_head(alloc, frame)? else {
        return Ok(untyped(found));
    };
    let ty = arrow(alloc, domain(alloc, takes)?, type_of(body.get()))?;
    let takes = parameters(alloc, takes)?;
    Ok(value(TypedForm::Fn(ty, takes, body), found))
}
