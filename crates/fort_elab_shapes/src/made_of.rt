//! What the declared types are made of. The chapter "Programs" of docs/TRANSLATION.md.
ghost use Rattle.std.specs.Prelude.{◌≡◌, ◌+◌, ◌++◌, IfOk, OnOk, drop, map};
ghost use Rattle.std.specs.List.{list_any};
ghost use Rattle.fort_elab_meaning.specs.Shapes.{constructs_by, core_field, has_constructor, kind_of, own_shapes, places_of, shape_of, shapes};

use crate::initials::{Initial, initial_value};
use fort_base::{Bytes, List, Loc, Memory, TypeId};
use fort_core::{CoreField, CoreKind, CoreShape};
use fort_types_builtin::{OBJECT_COUNT, TYPE_COUNT};
use fort_types_sets::{Field, MemberKind, MemberSet, Members};
use std::alloc::Global;

/// Whether a declaration is the constructor of an object.
fn constructs(kind: MemberKind, id: TypeId) -> bool
    ensures { result ≡ constructs_by kind id }
{
    match kind {
        MemberKind::Constructor(made) => made.0 == id.0,
        _ => false,
    }
}

/// Whether some declaration of a set is the constructor of an object.
fn has_constructor_in(set: &MemberSet, id: TypeId) -> bool
    ensures { result ≡ list_any (λ d. constructs_by d.kind id) set.now.members }
{
    for member in set.members.as_slice() {
        if constructs(member.kind, id) {
            return true;
        }
    }
    false
}

/// Whether some declaration is the constructor of an object.
fn has_constructor(sets: &[MemberSet], id: TypeId) -> bool
    ensures { result ≡ has_constructor sets.now id }
{
    for set in sets {
        if has_constructor_in(set, id) {
            return true;
        }
    }
    false
}

/// What makes values of a type of the component; a single object is at the location.
fn kind_of(sets: &[MemberSet], id: TypeId, base: u64, object: bool) -> CoreKind
    ensures { result ≡ kind_of sets.now id base object }
{
    if !object {
        CoreKind::Trait
    } else if has_constructor(sets, id) {
        CoreKind::Object
    } else {
        CoreKind::Single(Loc(base))
    }
}

/// How many locations a type of so many fields has in the opening store.
fn places_of(kind: CoreKind, fields: usize) -> usize
    ensures { result ≡ places_of kind fields }
{
    match kind {
        CoreKind::Single(_) => fields.max(1),
        _ => 0,
    }
}

/// A field of a type, with its constant where it has one.
fn core_field(
    alloc: Global,
    texts: &[Bytes],
    initials: &[Initial],
    id: TypeId,
    field: &Field,
) -> Result<CoreField, Memory>
    ensures { IfOk result (λ made. made ≡ core_field texts.now initials.now id field.now) }
{
    let ty = field.ty.copy(alloc)?;
    let initial = initial_value(alloc, texts, initials, Some(id), field.name)?;
    Ok(CoreField {
        name: field.name,
        ty,
        mutable: field.mutable,
        initial,
    })
}

/// The fields of a type, with their constants.
fn core_fields(
    alloc: Global,
    texts: &[Bytes],
    initials: &[Initial],
    id: TypeId,
    fields: &List<Field>,
) -> Result<List<CoreField>, Memory>
    ensures { IfOk result (λ list. list ≡ map (core_field texts.now initials.now id) fields.now) }
{
    let mut list = List::new(alloc);
    for field in fields.as_slice() {
        list.push(core_field(alloc, texts, initials, id, field)?)?;
    }
    Ok(list)
}

/// What a type of the component is made of; a single object is at the location.
fn shape_of(
    alloc: Global,
    texts: &[Bytes],
    initials: &[Initial],
    sets: &[MemberSet],
    at: usize,
    base: u64,
    object: bool,
    fields: &List<Field>,
) -> Result<CoreShape, Memory>
    ensures { IfOk result (λ shape. shape
        ≡ shape_of texts.now initials.now sets.now (record { 0 = at }) base object fields.now) }
{
    if at > u32::MAX as usize {
        return Err(Memory);
    }
    let id = TypeId(at as u32);
    let kind = kind_of(sets, id, base, object);
    let fields = core_fields(alloc, texts, initials, id, fields)?;
    Ok(CoreShape { kind, fields })
}

/// The location behind those of a type, or want of memory where there is none.
fn behind(base: u64, kind: CoreKind, fields: usize) -> Result<u64, Memory>
    ensures { IfOk result (λ next. next ≡ base + places_of kind fields) }
{
    let places = places_of(kind, fields);
    match base.checked_add(places as u64) {
        Some(next) => Ok(next),
        None => Err(Memory),
    }
}

/// What the declared types of a component are made of, built-in ones first. The variables at the
/// top have the first locations of the opening store, then come the single objects, in the order
/// of their types.
///
/// # Errors
///
/// `Memory` where memory is wanting, or where there are more types, variables or fields than
/// numbers for them.
#[tactic(auto, unfolding(fort_elab_meaning::specs::Shapes::shapes))]
pub fn shapes(
    alloc: Global,
    texts: &[Bytes],
    initials: &[Initial],
    members: &Members,
) -> Result<List<CoreShape>, Memory>
    ensures { IfOk result (λ list. list ≡ shapes texts.now initials.now members.now) }
{
    let variables = members.variables.len();
    if variables > u32::MAX as usize {
        return Err(Memory);
    }
    let mut list = fort_types_builtin::shapes(alloc, Loc(variables as u64))?;
    let base = variables as u64 + OBJECT_COUNT;
    add_own(alloc, texts, initials, members, base, &mut list)?;
    Ok(list)
}

/// Adds what the component's own types are made of; single objects have the locations from `base`
/// on.
fn add_own(
    alloc: Global,
    texts: &[Bytes],
    initials: &[Initial],
    members: &Members,
    base: u64,
    list: &mut List<CoreShape>,
) -> Result<(), Memory>
    ensures { OnOk result (list.new
        ≡ list.old
        ++ own_shapes texts.now initials.now members.now.sets TYPE_COUNT base
        (drop TYPE_COUNT members.now.objects) (drop TYPE_COUNT members.now.fields)) }
{
    let sets = members.sets.as_slice();
    add_shapes(
        alloc,
        texts,
        initials,
        sets,
        base,
        members.objects.as_slice(),
        members.fields.as_slice(),
        list,
    )
}

/// The same by the sets, by whether each type is an object, and by its fields.
fn add_shapes(
    alloc: Global,
    texts: &[Bytes],
    initials: &[Initial],
    sets: &[MemberSet],
    base: u64,
    objects: &[bool],
    fields: &[List<Field>],
    list: &mut List<CoreShape>,
) -> Result<(), Memory>
    ensures { OnOk result (list.new
        ≡ list.old
        ++ own_shapes texts.now initials.now sets.now TYPE_COUNT base
        (drop TYPE_COUNT objects.now) (drop TYPE_COUNT fields.now)) }
{
    let mut next = base;
    for at in TYPE_COUNT..objects.len() {
        if fields.len() <= at {
            return Ok(());
        }
        let all = &fields[at];
        let shape = shape_of(alloc, texts, initials, sets, at, next, objects[at], all)?;
        next = behind(next, shape.kind, all.len())?;
        list.push(shape)?;
    }
    Ok(())
}
