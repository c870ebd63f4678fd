//! Whether a program keeps the prelude's own names to the prelude.
ghost use Rattle.std.specs.Prelude.{◌≡◌, ◌↔◌, ℕ, IsTrue, Some, slice_get};
ghost use Rattle.std.specs.List.{AllByRecursion};
ghost use Rattle.fort_core.specs.declared.value.Value.{Value as AValue};
ghost use Rattle.fort_machine.specs.Acts.{object_of};
ghost use Rattle.fort_machine.specs.Scopes.{is_among};
ghost use Rattle.fort_sound_tables.specs.Leaves.{LeavesBody, LeavesValue, known_decls};
ghost use Rattle.fort_sound_tables.specs.Threads.{AllStandsApart, LeavesField, LeavesMember, LeavesPair, LeavesSet, LeavesShape};

use crate::leaves::{are_open, is_own_set, leaves, value_leaves};
use crate::numbers::Numbers;
use fort_base::{DeclId, Loc, SetId};
use fort_core::{CoreBody, CoreField, CoreKind, CoreShape, Program, Value};

// Whether a declaration is one whose calls are steps of threads.
fn is_known(x: &Numbers, number: DeclId) -> bool
    ensures { result ≡ is_among number.0 (known_decls x.now) }
{
    number.0 == x.declarations.run.0
        || number.0 == x.declarations.spawn.0
        || number.0 == x.declarations.wait.0
        || number.0 == x.declarations.val.0
        || number.0 == x.declarations.ready.0
}

// Whether a declaration's body leaves the prelude's own names alone.
fn decl_body_leaves(program: &Program, x: &Numbers, body: &CoreBody) -> bool
    ensures { IsTrue result → LeavesBody program.now x.now body.now }
{
    match body {
        CoreBody::Plain(text) => leaves(program, x, text.get()),
        CoreBody::Primitive(_) => true,
        CoreBody::Abstract => true,
        CoreBody::New(ty) => ty.0 != x.types.thread.0,
    }
}

fn member_leaves(program: &Program, x: &Numbers, number: DeclId) -> bool
    ensures { IsTrue result → LeavesMember program.now x.now number }
{
    if is_known(x, number) {
        return true;
    }
    match program.decls.get(number.0 as usize) {
        None => true,
        Some(declared) => decl_body_leaves(program, x, &declared.body),
    }
}

fn members_leave(program: &Program, x: &Numbers, members: &[DeclId]) -> bool
    ensures { IsTrue result → AllByRecursion (LeavesMember program.now x.now) members.now }
{
    for member in members {
        if !member_leaves(program, x, *member) {
            return false;
        }
    }
    true
}

// Whether a set is the prelude's own, or all its declarations leave the names alone; none past the
// table does otherwise.
fn set_leaves(program: &Program, x: &Numbers, at: usize) -> bool
    ensures { IsTrue result → LeavesSet program.now x.now at }
{
    let Some(members) = program.sets.get(at) else {
        return true;
    };
    match u32::try_from(at) {
        Err(_) => false,
        Ok(number) => {
            is_own_set(x, SetId(number)) || members_leave(program, x, members.decls.as_slice())
        }
    }
}

fn sets_leave(program: &Program, x: &Numbers) -> bool
    ensures { IsTrue result → (i : ℕ) → LeavesSet program.now x.now i }
{
    for i in 0..program.sets.len() {
        if !set_leaves(program, x, i) {
            return false;
        }
    }
    true
}

// Whether a field's constant leaves the names alone.
fn constant_leaves(program: &Program, x: &Numbers, field: &CoreField) -> bool
    ensures { IsTrue result → LeavesField program.now x.now field.now }
{
    match &field.initial {
        None => true,
        Some(value) => value_leaves(program, x, value),
    }
}

fn constants_leave(program: &Program, x: &Numbers, fields: &[CoreField]) -> bool
    ensures { IsTrue result → AllByRecursion (LeavesField program.now x.now) fields.now }
{
    for field in fields {
        if !constant_leaves(program, x, field) {
            return false;
        }
    }
    true
}

// Whether a type is `Thread'`.
fn is_thread(x: &Numbers, at: usize) -> bool
    ensures { IsTrue result ↔ (at ≡ x.now.types.thread.0) }
{
    at == x.types.thread.0 as usize
}

// Whether the value of a type that has one leaves the names alone.
fn single_leaves(program: &Program, x: &Numbers, at: usize, shape: &CoreShape) -> bool
    requires { slice_get program.now.shapes at ≡ Some shape.now }
    ensures { IsTrue result → (v : AValue) → object_of (record { 0 = at }) shape.now ≡ Some v
        → LeavesValue program.now x.now v }
{
    match shape.kind {
        CoreKind::Single(base) => {
            !is_thread(x, at) && are_open(program, x, base.0, shape.fields.len())
        }
        CoreKind::Trait => true,
        CoreKind::Leaf => true,
        CoreKind::Object => true,
    }
}

// Whether a type's constants and its single object leave the names alone.
fn shape_leaves(program: &Program, x: &Numbers, at: usize) -> bool
    ensures { IsTrue result → LeavesShape program.now x.now at }
{
    let Some(shape) = program.shapes.get(at) else {
        return true;
    };
    constants_leave(program, x, shape.fields.as_slice()) && single_leaves(program, x, at, shape)
}

fn shapes_leave(program: &Program, x: &Numbers) -> bool
    ensures { IsTrue result → (i : ℕ) → LeavesShape program.now x.now i }
{
    for i in 0..program.shapes.len() {
        if !shape_leaves(program, x, i) {
            return false;
        }
    }
    true
}

fn opening_leaves(program: &Program, x: &Numbers, opening: &[(Loc, Value)]) -> bool
    ensures { IsTrue result → AllByRecursion (LeavesPair program.now x.now) opening.now }
{
    for pair in opening {
        if !value_leaves(program, x, &pair.1) {
            return false;
        }
    }
    true
}

/// Whether all that a component's own sets run, its constants and its opening store leave the
/// prelude's own names alone.
pub(crate) fn all_stands_apart(program: &Program, x: &Numbers) -> bool
    ensures { IsTrue result → AllStandsApart program.now x.now }
{
    if !sets_leave(program, x) {
        return false;
    }
    if !shapes_leave(program, x) {
        return false;
    }
    opening_leaves(program, x, program.opening.as_slice())
}
