//! Declarations. The chapter "Programs" of docs/TRANSLATION.md.
ghost use Rattle.std.specs.Prelude.{◌≡◌, ◌+◌, ◌++◌, IfOk, OnOk, Some, drop, map};
ghost use Rattle.std.specs.List.{flat_map};
ghost use Rattle.fort_elab_meaning.specs.Programs.{core_body, core_declaration, declarations_from, declarations_of_set};

use crate::bodies::{Placed, body_at};
use fort_base::{List, Memory, Ty};
use fort_core::{CoreBody, CoreDecl};
use fort_types_builtin::primitive;
use fort_types_sets::{Member, MemberKind, MemberSet};
use std::alloc::Global;

/// Types in memory of their own.
fn copied(alloc: Global, types: &List<Ty>) -> Result<List<Ty>, Memory>
    ensures { IfOk result (λ copy. copy ≡ types.now) }
{
    let mut list = List::new(alloc);
    for ty in types.as_slice() {
        list.push(ty.copy(alloc)?)?;
    }
    Ok(list)
}

/// What a call of a declaration does, which stands at this position in its set.
fn core_body(
    terms: &[Placed],
    set: &MemberSet,
    at: usize,
    member: &Member,
) -> Result<CoreBody, Memory>
    ensures { IfOk result (λ body. core_body terms.now set.now at member.now member.now.kind
        ≡ Some body) }
{
    match member.kind {
        MemberKind::BuiltIn => {
            match primitive(set.name.as_slice(), member.parameters.len(), at) {
                Some(primitive) => Ok(CoreBody::Primitive(primitive)),
                None => Err(Memory),
            }
        }
        MemberKind::Constructor(made) => Ok(CoreBody::New(made)),
        MemberKind::Concrete => match member.place {
            Some(place) => Ok(CoreBody::Plain(body_at(terms, place)?)),
            None => Err(Memory),
        },
        MemberKind::Abstract => Ok(CoreBody::Abstract),
    }
}

/// A declaration, which stands at this position in its set.
fn declaration(
    alloc: Global,
    terms: &[Placed],
    set: &MemberSet,
    at: usize,
    member: &Member,
) -> Result<CoreDecl, Memory>
    ensures { IfOk result (λ made. core_declaration terms.now set.now at member.now ≡ Some made) }
{
    let body = core_body(terms, set, at, member)?;
    let parameters = copied(alloc, &member.parameters)?;
    let result = member.result.copy(alloc)?;
    Ok(CoreDecl {
        parameters,
        result,
        body,
    })
}

/// Adds the declarations of a set.
fn add_set(
    alloc: Global,
    terms: &[Placed],
    set: &MemberSet,
    list: &mut List<CoreDecl>,
) -> Result<(), Memory>
    ensures { OnOk result (map Some list.new
        ≡ map Some list.old ++ declarations_of_set terms.now set.now) }
{
    let members = set.members.as_slice();
    for at in 0..members.len() {
        list.push(declaration(alloc, terms, set, at, &members[at])?)?;
    }
    Ok(())
}

/// The declarations of sets, set by set, in their order.
pub(crate) fn declarations(
    alloc: Global,
    terms: &[Placed],
    sets: &[MemberSet],
) -> Result<List<CoreDecl>, Memory>
    ensures { IfOk result (λ list. map Some list
        ≡ flat_map (declarations_of_set terms.now) sets.now) }
{
    let mut list = List::new(alloc);
    for set in sets {
        add_set(alloc, terms, set, &mut list)?;
    }
    Ok(list)
}
