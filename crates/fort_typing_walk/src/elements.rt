//! What an element, a source and a target are.
ghost use Rattle.std.specs.Prelude.{◌≡◌, IfOk, cond, Some};
ghost use Rattle.std.specs.Option.{option_copied};
ghost use Rattle.fort_typing_known.specs.Read.{facts};
ghost use Rattle.fort_form_typed.specs.declared.typed_form.TypedForm.{out-TypedForm};
ghost use Rattle.fort_typing_rules.specs.Types.{given};
ghost use Rattle.fort_typing_rules.specs.Typing.{is_mutable, takes_at};
ghost use Rattle.fort_typing_meaning.specs.Parts.{below_by, element_found, element_meaning, given_by, head_type, side_of, side_place, side_type};
ghost use Rattle.fort_base.specs.declared.rules.TheConstants.{MISMATCH};
ghost use Rattle.fort_typing_rules.specs.declared.part.Meaning.TheVariants as a_meaning;
ghost use Rattle.fort_typing_meaning.specs.Faults.{breaks as broken};
ghost use Rattle.fort_typing_meaning.specs.Tests.{no_node, refused as refused_by, value as value_of, valued};

use fort_base::rules::MISMATCH;
use fort_base::{Memory, Place, Ty};
use fort_form_typed::TypedForm;
use fort_types_builtin::{RANGE, ZZ32};
use fort_types_sets::Field;
use fort_typing_known::{Fault, Known, field_of, is_below};
use fort_typing_meaning::{Outcome, Side, Valued};
use fort_typing_parts::{breaks, is_nothing, type_of, unit, value, valued};
use fort_typing_rules::Meaning;
use std::alloc::Global;

/// Lets go of what a part is.
fn let_go(_seen: Meaning) {}

/// Lets a part go.
pub fn let_part_go(node: Option<TypedForm>) {
    match node {
        Some(typed) => let_go(Meaning::Value(typed)),
        None => {}
    }
}

/// A value that is as wanted.
fn fitting(typed: TypedForm, found: Option<Fault>) -> Valued
    ensures { result ≡ record { node = Some typed; found = found } }
{
    Valued {
        node: Some(typed),
        found,
    }
}

/// A part that isn't as wanted is let go, and breaks 603.
fn unfitting(seen: Meaning, place: Place, found: Option<Fault>) -> Valued
    ensures { result ≡ no_node (broken MISMATCH place found) }
{
    let_go(seen);
    Valued {
        node: None,
        found: breaks(MISMATCH, place, found),
    }
}

/// What a value has become that fits, or breaks 603.
fn if_fitting(fits: bool, place: Place, typed: TypedForm, found: Option<Fault>) -> Valued
    ensures { result
        ≡ cond fits (record { node = Some typed; found = found })
        (no_node (broken MISMATCH place found)) }
{
    if fits {
        return fitting(typed, found);
    }
    unfitting(Meaning::Value(typed), place, found)
}

/// What a typed form has become, below a type: 603 at this place where it isn't. With the first
/// broken rule so far.
pub fn typed_below(
    known: &Known,
    ty: &Ty,
    place: Place,
    typed: TypedForm,
    found: Option<Fault>,
) -> Valued
    ensures { result ≡ below_by (facts known.now) ty.now place (Some typed) found }
{
    let fits = is_below(known, type_of(&typed), ty);
    if_fitting(fits, place, typed, found)
}

/// What a value has become, below a type.
fn below_by(
    known: &Known,
    ty: &Ty,
    place: Place,
    node: Option<TypedForm>,
    found: Option<Fault>,
) -> Valued
    ensures { result ≡ below_by (facts known.now) ty.now place node found }
{
    match node {
        Some(typed) => typed_below(known, ty, place, typed, found),
        None => Valued { node: None, found },
    }
}

/// What a part has become, below a type.
pub fn wanted_below(
    known: &Known,
    ty: &Ty,
    place: Place,
    seen: Meaning,
    found: Option<Fault>,
) -> Valued
    ensures { result
        ≡ below_by (facts known.now) ty.now place (valued place seen found).node
        (valued place seen found).found }
{
    let Valued { node, found } = valued(place, seen, found);
    below_by(known, ty, place, node, found)
}

/// An element is `Nothing`: it breaks 603, and is let go.
fn bar_element(outcome: &mut Outcome, place: Place)
    ensures { outcome.new ≡ refused_by MISMATCH place outcome.old.found }
{
    outcome.seen = Meaning::Unknown;
    outcome.found = breaks(MISMATCH, place, outcome.found);
}

/// An element that is `Nothing`, or another.
fn if_nothing(bars: bool, place: Place, typed: TypedForm, found: Option<Fault>) -> Outcome
    ensures { result ≡ cond bars (refused_by MISMATCH place found) (value_of typed found) }
{
    let mut outcome = value(typed, found);
    if bars {
        bar_element(&mut outcome, place);
        return outcome;
    }
    outcome
}

/// What an element is that has a type.
fn typed_element(place: Place, typed: TypedForm, found: Option<Fault>) -> Outcome
    ensures { result
        ≡ record {
          seen = element_meaning (a_meaning.Value typed);
          found = element_found place (a_meaning.Value typed) found;
        } }
{
    let bars = is_nothing(type_of(&typed));
    if_nothing(bars, place, typed, found)
}

/// What an element is: one that is `Nothing` breaks 603.
pub fn element(place: Place, seen: Meaning, found: Option<Fault>) -> Outcome
    ensures { result
        ≡ record { seen = element_meaning seen; found = element_found place seen found } }
{
    match seen {
        Meaning::Value(typed) => typed_element(place, typed, found),
        other => Outcome { seen: other, found },
    }
}

/// The values that a generator gives whose source has this type, if it is one.
fn given(alloc: Global, ty: &Ty) -> Result<Option<Ty>, Memory>
    ensures { IfOk result (λ it. it ≡ given ty.now) }
{
    match ty {
        Ty::Named(id) => {
            if id.0 <= RANGE.0 && RANGE.0 <= id.0 {
                Ok(Some(Ty::Named(ZZ32)))
            } else {
                Ok(None)
            }
        }
        Ty::Array(part) => Ok(Some(part.get().copy(alloc)?)),
        _ => Ok(None),
    }
}

/// The values that a generator gives, if its source has a type that is one.
pub fn given_by(alloc: Global, node: &Option<TypedForm>) -> Result<Option<Ty>, Memory>
    ensures { IfOk result (λ it. it ≡ given_by node.now) }
{
    match node {
        Some(typed) => given(alloc, type_of(typed)),
        None => Ok(None),
    }
}

/// The type of the subject of a `typecase`.
pub fn head_type(alloc: Global, node: &Option<TypedForm>) -> Result<Ty, Memory>
    ensures { IfOk result (λ ty. ty ≡ head_type node.now) }
{
    match node {
        Some(typed) => type_of(typed).copy(alloc),
        None => Ok(unit(alloc)),
    }
}

/// What the next comparison has at its left.
pub fn side_of(
    alloc: Global,
    place: Place,
    node: &Option<TypedForm>,
) -> Result<Option<Side>, Memory>
    ensures { IfOk result (λ side. side ≡ side_of place node.now) }
{
    match node {
        Some(typed) => Ok(Some(Side {
            place,
            ty: type_of(typed).copy(alloc)?,
        })),
        None => Ok(None),
    }
}

/// The type at the left of a comparison.
pub fn side_type(alloc: Global, side: &Option<Side>) -> Result<Option<Ty>, Memory>
    ensures { IfOk result (λ ty. ty ≡ side_type side.now) }
{
    match side {
        Some(side) => Ok(Some(side.ty.copy(alloc)?)),
        None => Ok(None),
    }
}

/// The place at the left of a comparison.
pub fn side_place(place: Place, side: &Option<Side>) -> Place
    ensures { result ≡ side_place place side.now }
{
    match side {
        Some(side) => side.place,
        None => place,
    }
}

/// Whether a field can be assigned to.
fn is_mutable(field: Option<&Field>) -> bool
    ensures { result ≡ is_mutable (option_copied field.entry) }
{
    match field {
        Some(field) => field.mutable,
        None => false,
    }
}

/// Whether a variable, a field or an element can be assigned to.
pub fn takes(known: &Known, typed: &TypedForm) -> bool
    ensures { result ≡ takes_at (facts known.now) (out-TypedForm typed.now) }
{
    match typed {
        TypedForm::Local(_, _, mutable) => *mutable,
        TypedForm::Top(_, number) => is_mutable(
            known.index.members.variables.get(*number as usize),
        ),
        TypedForm::ReadField(_, object, name) => match type_of(object.get()) {
            Ty::Named(ty) => is_mutable(field_of(known, *ty, *name)),
            _ => false,
        },
        TypedForm::ReadElement(_, _, _) => true,
        _ => false,
    }
}
