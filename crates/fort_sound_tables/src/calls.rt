//! Which declarations calls run, by a program's tables.
ghost use Rattle.std.specs.Prelude.{◌≡◌, slice_get, IsTrue, Contains, Some};
ghost use Rattle.std.specs.List.{AllByRecursion};
ghost use Rattle.fort_core.specs.declared.program.CoreBody.TheVariants as body;
ghost use Rattle.fort_core.specs.declared.program.CoreDecl.{CoreDecl as ADecl};
ghost use Rattle.fort_threads_law_tables.specs.Tabled.{HasOne, Runs, RunsPrimitive, RunsText, two_small};
ghost use Rattle.fort_sound_tables.specs.Lookups.{GivesWay, TakesText};
ghost use Rattle.fort_sound_tables.specs.Threads.{IsSole, RunsDiffers, nothing_type};

use fort_base::{DeclId, List, SetId, Ty};
use fort_core::{CoreBody, CoreDecl, Primitive, Program, Term};
use fort_value::are_below;

// Whether a declaration is that of a number, or gives way to it.
fn gives_way(
    program: &Program,
    types: &List<Ty>,
    number: DeclId,
    declared: &CoreDecl,
    other: DeclId,
) -> bool
    ensures { IsTrue result → GivesWay program.now types.now number declared.now other }
{
    if other.0 == number.0 {
        return true;
    }
    match program.decls.get(other.0 as usize) {
        None => true,
        Some(found) => {
            !are_below(program, types, &found.parameters)
                || !are_below(program, &found.parameters, &declared.parameters)
        }
    }
}

// Whether all declarations of a set but that of a number give way to it.
fn is_alone(
    program: &Program,
    types: &List<Ty>,
    number: DeclId,
    declared: &CoreDecl,
    members: &[DeclId],
) -> bool
    ensures { IsTrue result
        → AllByRecursion (GivesWay program.now types.now number declared.now) members.now }
{
    for member in members {
        if !gives_way(program, types, number, declared, *member) {
            return false;
        }
    }
    true
}

// Whether a declaration stands in a set.
fn is_member(members: &[DeclId], number: DeclId) -> bool
    ensures { IsTrue result → Contains members.now number }
{
    for i in 0..members.len() {
        if members[i].0 == number.0 {
            return true;
        }
    }
    false
}

/// Whether a call of a set with values of these types runs the declaration of a number.
pub(crate) fn runs(program: &Program, set: SetId, types: &List<Ty>, number: DeclId) -> bool
    ensures { IsTrue result → (x : ADecl) → slice_get program.now.decls number.0 ≡ Some x
        → Runs program.now set types.now number x }
{
    let Some(members) = program.sets.get(set.0 as usize) else {
        return false;
    };
    let Some(declared) = program.decls.get(number.0 as usize) else {
        return false;
    };
    let all = members.decls.as_slice();
    are_below(program, types, &declared.parameters)
        && is_member(all, number)
        && is_alone(program, types, number, declared, all)
}

/// Whether a declaration takes these types, and goes on as this term.
pub(crate) fn takes_text(program: &Program, number: DeclId, types: &List<Ty>, text: &Term) -> bool
    ensures { IsTrue result → TakesText program.now number types.now text.now }
{
    let Some(declared) = program.decls.get(number.0 as usize) else {
        return false;
    };
    match &declared.body {
        CoreBody::Plain(body) => {
            same_types(&declared.parameters, types) && body.get().same(text)
        }
        _ => false,
    }
}

/// Whether two lists of types are alike.
pub(crate) fn same_types(left: &List<Ty>, right: &List<Ty>) -> bool
    ensures { IsTrue result → left.now ≡ right.now }
{
    let a = left.as_slice();
    let b = right.as_slice();
    if a.len() != b.len() {
        return false;
    }
    for i in 0..a.len() {
        if !a[i].same(&b[i]) {
            return false;
        }
    }
    true
}

/// Whether a call of a set with values of these types runs the declaration of a number, which goes
/// on as this term.
pub(crate) fn runs_text(
    program: &Program,
    set: SetId,
    types: &List<Ty>,
    number: DeclId,
    text: &Term,
) -> bool
    ensures { IsTrue result → RunsText program.now set types.now text.now }
{
    takes_text(program, number, types, text) && runs(program, set, types, number)
}

/// Whether a set has the declaration of a number alone.
pub(crate) fn has_one(program: &Program, set: SetId, number: DeclId) -> bool
    ensures { IsTrue result → (x : ADecl) → slice_get program.now.decls number.0 ≡ Some x
        → HasOne program.now set number x }
{
    match program.sets.get(set.0 as usize) {
        None => false,
        Some(members) => match members.decls.as_slice() {
            [only] => only.0 == number.0,
            _ => false,
        },
    }
}

// Whether two built-in declarations that the prelude calls are the same.
fn is_same(found: Primitive, wanted: Primitive) -> bool
    ensures { IsTrue result → found ≡ wanted }
{
    match (found, wanted) {
        (Primitive::AddSmall, Primitive::AddSmall) => true,
        (Primitive::SubtractSmall, Primitive::SubtractSmall) => true,
        (Primitive::EqualSmall, Primitive::EqualSmall) => true,
        (Primitive::UnequalSmall, Primitive::UnequalSmall) => true,
        (Primitive::GreaterSmall, Primitive::GreaterSmall) => true,
        (Primitive::RangeCount, Primitive::RangeCount) => true,
        (Primitive::Abort, Primitive::Abort) => true,
        _ => false,
    }
}

// Whether a declaration is this built-in one.
fn is_primitive(program: &Program, number: DeclId, primitive: Primitive) -> bool
    ensures { IsTrue result → (x : ADecl) × (slice_get program.now.decls number.0 ≡ Some x)
        × (x.body ≡ body.Primitive primitive) }
{
    match program.decls.get(number.0 as usize) {
        None => false,
        Some(declared) => match &declared.body {
            CoreBody::Primitive(found) => is_same(*found, primitive),
            _ => false,
        },
    }
}

// The first declaration of a set that is this built-in one.
fn primitive_of(program: &Program, set: SetId, primitive: Primitive) -> Option<DeclId> {
    let members = program.sets.get(set.0 as usize)?;
    for member in members.decls.as_slice() {
        if is_primitive(program, *member, primitive) {
            return Some(*member);
        }
    }
    None
}

/// Whether a call of a set with values of these types runs this built-in declaration.
pub(crate) fn runs_primitive(
    program: &Program,
    set: SetId,
    types: &List<Ty>,
    primitive: Primitive,
) -> bool
    ensures { IsTrue result → RunsPrimitive program.now set types.now primitive }
{
    match primitive_of(program, set, primitive) {
        None => false,
        Some(number) => {
            is_primitive(program, number, primitive) && runs(program, set, types, number)
        }
    }
}

// Whether a declaration takes these types, and gives that one.
fn takes_and_gives(program: &Program, number: DeclId, types: &List<Ty>, gives: &Ty) -> bool
    ensures { IsTrue result → (x : ADecl) → slice_get program.now.decls number.0 ≡ Some x
        → (x.parameters ≡ types.now) × (x.result ≡ gives.now) }
{
    match program.decls.get(number.0 as usize) {
        None => false,
        Some(declared) => { same_types(&declared.parameters, types) && declared.result.same(gives) }
    }
}

/// Whether `=/=` of two ZZ32 is the built-in one, which takes them and gives a Boolean.
pub(crate) fn runs_differs(program: &Program, set: SetId, types: &List<Ty>) -> bool
    requires { types.now ≡ two_small program.now }
    ensures { IsTrue result → RunsDiffers program.now set }
{
    match primitive_of(program, set, Primitive::UnequalSmall) {
        None => false,
        Some(number) => {
            let truth = Ty::Named(program.built_in.truth);
            is_primitive(program, number, Primitive::UnequalSmall)
                && runs(program, set, types, number)
                && takes_and_gives(program, number, types, &truth)
        }
    }
}

// Whether a declaration gives `()`.
fn gives_nothing(program: &Program, number: DeclId) -> bool
    ensures { IsTrue result → (x : ADecl) → slice_get program.now.decls number.0 ≡ Some x
        → x.result ≡ nothing_type }
{
    match program.decls.get(number.0 as usize) {
        None => false,
        Some(declared) => is_nothing(&declared.result),
    }
}

/// Whether a type is that of `()`.
pub(crate) fn is_nothing(ty: &Ty) -> bool
    ensures { IsTrue result → ty.now ≡ nothing_type }
{
    match ty {
        Ty::Tuple(parts) => parts.is_empty(),
        _ => false,
    }
}

/// Whether a set has the declaration of a number alone, which takes these types, gives `()`, and
/// goes on as this term.
pub(crate) fn is_sole(
    program: &Program,
    set: SetId,
    number: DeclId,
    types: &List<Ty>,
    text: &Term,
) -> bool
    ensures { IsTrue result → IsSole program.now set number types.now text.now }
{
    if !takes_text(program, number, types, text) {
        return false;
    }
    if !has_one(program, set, number) {
        return false;
    }
    gives_nothing(program, number)
}
