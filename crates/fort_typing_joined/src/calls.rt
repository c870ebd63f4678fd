//! Calls of sets.
ghost use Rattle.std.specs.Prelude.{◌≡◌, ◌∷◌, [], IfOk};
ghost use Rattle.fort_typing_known.specs.Read.{facts};
ghost use Rattle.fort_typing_known.specs.Sets.{function_set as set_of_function, method_set as set_of_method, operator_set as set_of_operator};
ghost use Rattle.fort_typing_meaning.specs.Joining.{call as called_set, operation as called_operation};

use fort_base::{Boxed, List, Memory, NameId, Place, SetId};
use fort_form_typed::{Chosen, TypedForm};
use fort_ops::Op;
use fort_typing_call::{Called, call_of};
use fort_typing_known::{Fault, Known, operator_spelling, set_of, spelled};
use fort_typing_meaning::Made;
use fort_typing_parts::types_of;
use std::alloc::Global;

/// The set that a call of a function's name is of, by the number of its arguments.
pub fn function_set(known: &Known, name: NameId, width: usize) -> Result<SetId, Memory>
    ensures { IfOk result (λ set. set ≡ set_of_function (facts known.now) name width) }
{
    set_of(known, spelled(known, name), false, width)
}

/// The set that a call of a method is of, by the number of its arguments, the receiver included.
pub fn method_set(known: &Known, name: NameId, width: usize) -> Result<SetId, Memory>
    ensures { IfOk result (λ set. set ≡ set_of_method (facts known.now) name width) }
{
    set_of(known, spelled(known, name), true, width)
}

/// The set that a call of an operator is of, by the number of its operands. It answers `Memory`
/// where there are more sets than numbers.
pub fn operator_set(known: &Known, op: Op, width: usize) -> Result<SetId, Memory>
    ensures { IfOk result (λ set. set ≡ set_of_operator (facts known.now) op width) }
{
    set_of(known, operator_spelling(known, op), false, width)
}

/// A call of a function, a constructor or a method, or 602 or 614 at the place.
#[tactic(auto, unfolding(fort_typing_meaning::specs::Joining::call))]
pub fn call(
    alloc: Global,
    known: &Known,
    set: SetId,
    arguments: List<TypedForm>,
    place: Place,
) -> Result<Made, Memory>
    ensures { IfOk result (λ made. made ≡ called_set (facts known.now) set arguments place) }
{
    let types = types_of(alloc, arguments.as_slice())?;
    match call_of(alloc, known, set, &types)? {
        Called::Result(ty, widened) => {
            let chosen = Chosen { set, widened };
            Ok(Made::Gives(TypedForm::Call(ty, chosen, arguments)))
        }
        Called::Refused(rule) => Ok(Made::Breaks(Fault { rule, place })),
    }
}

/// A call of an operator, or 602 or 614 at the place. The chapter "Typing", calls.
#[tactic(auto, unfolding(fort_typing_meaning::specs::Joining::operation))]
pub fn operation(
    alloc: Global,
    known: &Known,
    set: SetId,
    operands: List<TypedForm>,
    place: Place,
) -> Result<Made, Memory>
    ensures { IfOk result (λ made. made ≡ called_operation (facts known.now) set operands place) }
{
    let types = types_of(alloc, operands.as_slice())?;
    match call_of(alloc, known, set, &types)? {
        Called::Result(ty, widened) => {
            let chosen = Chosen { set, widened };
            Ok(Made::Gives(TypedForm::Operation(ty, chosen, operands)))
        }
        Called::Refused(rule) => Ok(Made::Breaks(Fault { rule, place })),
    }
}

/// A call of an operator with two operands.
pub fn binary(
    alloc: Global,
    known: &Known,
    op: Op,
    left: Boxed<TypedForm>,
    right: Boxed<TypedForm>,
    place: Place,
) -> Result<Made, Memory>
    ensures { IfOk result (λ made. made
        ≡ called_operation (facts known.now) (set_of_operator (facts known.now) op 2)
        (left ∷ right ∷ []) place) }
{
    let set = operator_set(known, op, 2)?;
    let mut operands = List::new(alloc);
    operands.push(left.into_inner())?;
    operands.push(right.into_inner())?;
    operation(alloc, known, set, operands, place)
}
