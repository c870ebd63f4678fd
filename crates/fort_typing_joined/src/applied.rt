//! A function applied to an argument, and two elements joined.
ghost use Rattle.std.specs.Prelude.{◌≡◌, IfOk};
ghost use Rattle.fort_base.specs.declared.ty.Ty.{out-Ty};
ghost use Rattle.fort_typing_known.specs.Read.{facts};
ghost use Rattle.fort_typing_rules.specs.Types.{type_of as type_in};
ghost use Rattle.fort_typing_meaning.specs.Joining.{applied as applied_by, joined as joined_by, value_applied as applied_value};

use crate::calls::{binary, call, function_set};
use crate::values::{arguments_of, name_of, value_of};
use fort_base::rules::MISMATCH;
use fort_base::{Boxed, Memory, Place, Ty};
use fort_form_typed::TypedForm;
use fort_ops::Op;
use fort_typing_known::{Fault, Known, is_below};
use fort_typing_meaning::Made;
use fort_typing_parts::type_of;
use fort_typing_rules::Part;
use std::alloc::Global;

/// A function value applied to an argument, or 603 at the argument.
fn value_applied(
    alloc: Global,
    known: &Known,
    place: Place,
    function: Boxed<TypedForm>,
    argument: Boxed<TypedForm>,
) -> Result<Made, Memory>
    ensures { IfOk result (λ made. made
        ≡ applied_value (facts known.now) place function argument (out-Ty (type_in function))) }
{
    match type_of(function.get()) {
        Ty::Arrow(domain, gives) => {
            if !is_below(known, type_of(argument.get()), domain.get()) {
                return Ok(Made::Breaks(Fault {
                    rule: MISMATCH,
                    place,
                }));
            }
            let gives = gives.get().copy(alloc)?;
            Ok(Made::Gives(TypedForm::Apply(gives, function, argument)))
        }
        _ => Ok(Made::Stops),
    }
}

/// A function applied to an argument: a function set called by its name, or 602 or 614 at the
/// name; a function value applied.
#[tactic(auto, using(crate::proofs::ByName::name_called, crate::proofs::ByName::name_uncalled, crate::proofs::Meanings::both_applied, crate::proofs::Meanings::half_applied, crate::proofs::Meanings::unapplied))]
pub fn applied(
    alloc: Global,
    known: &Known,
    function: Boxed<Part>,
    argument: Boxed<Part>,
) -> Result<Made, Memory>
    ensures { IfOk result (λ made. made ≡ applied_by (facts known.now) function argument) }
{
    if let Some(name) = name_of(&function.get().meaning) {
        let Some(arguments) = arguments_of(alloc, argument)? else {
            return Ok(Made::Stops);
        };
        let set = function_set(known, name, arguments.len())?;
        return call(alloc, known, set, arguments, function.get().place);
    }
    let place = argument.get().place;
    let Some(value) = value_of(alloc, function)? else {
        return Ok(Made::Stops);
    };
    let Some(typed) = value_of(alloc, argument)? else {
        return Ok(Made::Stops);
    };
    value_applied(alloc, known, place, value, typed)
}

/// Two elements joined by juxtaposition, or 602 or 614 at the first.
#[tactic(auto, using(crate::proofs::Meanings::both_joined, crate::proofs::Meanings::half_joined, crate::proofs::Meanings::unjoined))]
pub fn joined(
    alloc: Global,
    known: &Known,
    left: Boxed<Part>,
    right: Boxed<Part>,
) -> Result<Made, Memory>
    ensures { IfOk result (λ made. made ≡ joined_by (facts known.now) left right) }
{
    let place = left.get().place;
    let Some(one) = value_of(alloc, left)? else {
        return Ok(Made::Stops);
    };
    let Some(other) = value_of(alloc, right)? else {
        return Ok(Made::Stops);
    };
    binary(alloc, known, Op::Juxt, one, other, place)
}
