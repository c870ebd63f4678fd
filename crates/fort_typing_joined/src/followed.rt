//! A postfix behind an element.
ghost use Rattle.std.specs.Prelude.{◌≡◌, [], ◌∷◌, IfOk};
ghost use Rattle.std.specs.Option.{option_copied};
ghost use Rattle.fort_base.specs.declared.ty.Ty.{out-Ty};
ghost use Rattle.fort_typing_known.specs.Read.{facts};
ghost use Rattle.fort_typing_known.specs.Names.{field_at as field_in_type};
ghost use Rattle.fort_typing_known.specs.Sets.{is_method as has_method, operator_set as set_of_operator};
ghost use Rattle.fort_ops.specs.declared.op.Op.TheVariants as an_op;
ghost use Rattle.fort_typing_rules.specs.declared.part.Meaning.TheVariants as a_meaning;
ghost use Rattle.fort_typing_rules.specs.Types.{array_at, type_of as type_in};
ghost use Rattle.fort_typing_rules.specs.Elements.{is_size as is_size_call};
ghost use Rattle.fort_typing_joined.specs.Postfixes.{by_exponent, by_method, by_name};
ghost use Rattle.fort_typing_meaning.specs.Joining.{followed as followed_element, followed_by, indexed as indexed_by, method_called as called_method, operation as called_operation, read as read_by};

use crate::calls::{binary, call, method_set};
use crate::values::value_of;
use fort_base::rules::{MISMATCH, UNKNOWN_NAME};
use fort_base::{Boxed, List, Memory, NameId, Place, Ty};
use fort_form_typed::TypedForm;
use fort_ops::Op;
use fort_types_sets::Field;
use fort_typing_known::{Fault, Known, field_of, is_method, spelled};
use fort_typing_meaning::Made;
use fort_typing_parts::{ZZ32, type_of};
use fort_typing_rules::{Meaning, Part};
use std::alloc::Global;

/// An element of an array, or 603 at what is none.
fn indexed(
    alloc: Global,
    place: Place,
    array: Boxed<TypedForm>,
    index: Boxed<TypedForm>,
) -> Result<Made, Memory>
    ensures { IfOk result (λ made. made ≡ indexed_by place array index (out-Ty (type_in array))) }
{
    match type_of(array.get()) {
        Ty::Array(element) => {
            let ty = element.get().copy(alloc)?;
            Ok(Made::Gives(TypedForm::ReadElement(ty, array, index)))
        }
        _ => Ok(Made::Breaks(Fault {
            rule: MISMATCH,
            place,
        })),
    }
}

/// The field of a name that a type has.
fn field_at<'a>(known: &Known<'a>, ty: &Ty, name: NameId) -> Option<&'a Field>
    ensures { option_copied result ≡ field_in_type (facts known.now) (out-Ty ty.now) name }
{
    match ty {
        Ty::Named(declared) => field_of(known, *declared, name),
        _ => None,
    }
}

/// A field of an object, or 601 at its name.
fn read(
    alloc: Global,
    known: &Known,
    at: Place,
    object: Boxed<TypedForm>,
    name: NameId,
) -> Result<Made, Memory>
    ensures { IfOk result (λ made. made
        ≡ read_by at object name
        (field_in_type (facts known.now) (out-Ty (type_in object)) name)) }
{
    match field_at(known, type_of(object.get()), name) {
        Some(field) => {
            let ty = field.ty.copy(alloc)?;
            Ok(Made::Gives(TypedForm::ReadField(ty, object, name)))
        }
        None => Ok(Made::Breaks(Fault {
            rule: UNKNOWN_NAME,
            place: at,
        })),
    }
}

/// Whether it is the type of arrays.
fn is_array(ty: &Ty) -> bool
    ensures { result ≡ array_at (out-Ty ty.now) }
{
    match ty {
        Ty::Array(_) => true,
        _ => false,
    }
}

/// Whether it is `a.size()` of an array.
fn is_size(known: &Known, object: &TypedForm, name: NameId, arguments: &[TypedForm]) -> bool
    ensures { result ≡ is_size_call (facts known.now) object.now name arguments.now }
{
    match arguments {
        [_, ..] => false,
        _ => is_array(type_of(object)) && spelled(known, name) == b"size".as_slice(),
    }
}

/// A receiver and the arguments behind it.
fn with_receiver(
    alloc: Global,
    object: Boxed<TypedForm>,
    arguments: List<TypedForm>,
) -> Result<List<TypedForm>, Memory>
    ensures { IfOk result (λ all. all ≡ object ∷ arguments) }
{
    let mut all = List::new(alloc);
    all.push(object.into_inner())?;
    all.append(arguments)?;
    Ok(all)
}

/// A method called: 601 at its name where no method has it, 602 or 614 at the receiver.
fn method_called(
    alloc: Global,
    known: &Known,
    place: Place,
    object: Boxed<TypedForm>,
    at: Place,
    name: NameId,
    arguments: List<TypedForm>,
) -> Result<Made, Memory>
    ensures { IfOk result (λ made. made
        ≡ called_method (facts known.now) place object at name arguments
        (is_size_call (facts known.now) object name arguments)
        (has_method (facts known.now) name)) }
{
    if is_size(known, object.get(), name, arguments.as_slice()) {
        return Ok(Made::Gives(TypedForm::Size(Ty::Named(ZZ32), object)));
    }
    if !is_method(known, name) {
        return Ok(Made::Breaks(Fault {
            rule: UNKNOWN_NAME,
            place: at,
        }));
    }
    let all = with_receiver(alloc, object, arguments)?;
    let set = method_set(known, name, all.len())?;
    call(alloc, known, set, all, place)
}

/// An element of an array, by an index that isn't boxed yet.
fn at_index(
    alloc: Global,
    place: Place,
    array: Boxed<TypedForm>,
    index: TypedForm,
) -> Result<Made, Memory>
    ensures { IfOk result (λ made. made ≡ indexed_by place array index (out-Ty (type_in array))) }
{
    let index = Boxed::new(alloc, index)?;
    indexed(alloc, place, array, index)
}

/// A value raised to an exponent.
fn raised(
    alloc: Global,
    known: &Known,
    place: Place,
    base: Boxed<TypedForm>,
    exponent: TypedForm,
) -> Result<Made, Memory>
    ensures { IfOk result (λ made. made
        ≡ called_operation (facts known.now) (set_of_operator (facts known.now) an_op.Power 2)
        (base ∷ exponent ∷ []) place) }
{
    let exponent = Boxed::new(alloc, exponent)?;
    binary(alloc, known, Op::Power, base, exponent, place)
}

/// A method behind a value, and else nothing.
fn with_method(
    alloc: Global,
    known: &Known,
    place: Place,
    object: Boxed<TypedForm>,
    postfix: Meaning,
) -> Result<Made, Memory>
    ensures { IfOk result (λ made. made ≡ by_method (facts known.now) place object postfix) }
{
    match postfix {
        Meaning::Method(at, name, arguments) => {
            method_called(alloc, known, place, object, at, name, arguments)
        }
        _ => Ok(Made::Stops),
    }
}

/// A field or a method behind a value.
fn with_name(
    alloc: Global,
    known: &Known,
    place: Place,
    object: Boxed<TypedForm>,
    postfix: Meaning,
) -> Result<Made, Memory>
    ensures { IfOk result (λ made. made ≡ by_name (facts known.now) place object postfix) }
{
    match postfix {
        Meaning::Field(at, name) => read(alloc, known, at, object, name),
        other => with_method(alloc, known, place, object, other),
    }
}

/// An exponent, a field or a method behind a value.
fn with_exponent(
    alloc: Global,
    known: &Known,
    place: Place,
    object: Boxed<TypedForm>,
    postfix: Meaning,
) -> Result<Made, Memory>
    ensures { IfOk result (λ made. made ≡ by_exponent (facts known.now) place object postfix) }
{
    match postfix {
        Meaning::Exponent(exponent) => raised(alloc, known, place, object, exponent),
        other => with_name(alloc, known, place, object, other),
    }
}

/// A postfix behind a value.
fn followed_value(
    alloc: Global,
    known: &Known,
    place: Place,
    object: Boxed<TypedForm>,
    postfix: Meaning,
) -> Result<Made, Memory>
    ensures { IfOk result (λ made. made
        ≡ followed_by (facts known.now) place (a_meaning.Value object) postfix) }
{
    match postfix {
        Meaning::Index(index) => at_index(alloc, place, object, index),
        other => with_exponent(alloc, known, place, object, other),
    }
}

/// A postfix behind an element.
#[tactic(auto, using(crate::proofs::Meanings::value_followed, crate::proofs::Meanings::unfollowed))]
pub fn followed(
    alloc: Global,
    known: &Known,
    before: Boxed<Part>,
    postfix: Boxed<Part>,
) -> Result<Made, Memory>
    ensures { IfOk result (λ made. made ≡ followed_element (facts known.now) before postfix) }
{
    let place = before.get().place;
    let Some(object) = value_of(alloc, before)? else {
        return Ok(Made::Stops);
    };
    followed_value(alloc, known, place, object, postfix.into_inner().meaning)
}
