//! The program of a component. The chapter "Programs" of docs/TRANSLATION.md.
ghost use Rattle.std.specs.Prelude.{◌≡◌, [], IfOk, Some, codes, map};
ghost use Rattle.std.specs.List.{flat_map};
ghost use Rattle.fort_core.specs.declared.term.Term.{Call};
ghost use Rattle.fort_elab_meaning.specs.Bodies.{bodies};
ghost use Rattle.fort_elab_meaning.specs.Programs.{IsProgramOf, declarations_of_set, function_set};
ghost use Rattle.fort_elab_meaning.specs.Read.{given_of};

use crate::bodies::bodies;
use crate::declarations::declarations;
use crate::sets::core_sets;
use fort_base::{Bytes, List, Memory, SetId, Shared};
use fort_core::{CoreDecl, Program, Term};
use fort_elab_meaning::Known;
use fort_elab_shapes::{opening, opening_types, shapes};
use fort_form_typed::Typed;
use fort_hier::Hierarchy;
use fort_types_builtin::BUILT_IN;
use fort_types_sets::Members;
use fort_typing_known::set_among;
use std::alloc::Global;

/// The set of a function's name and number of parameters.
fn function_set(members: &Members, name: &[u8], width: usize) -> Result<SetId, Memory>
    ensures { IfOk result (λ set. set ≡ function_set members.now name.now width) }
{
    set_among(members.sets.as_slice(), name, false, width)
}

/// The call of `run` without arguments.
fn first_term(alloc: Global, members: &Members) -> Result<Shared<Term>, Memory>
    ensures { IfOk result (λ term. term ≡ Call (function_set members.now (codes "run") 0) []) }
{
    let set = function_set(members, b"run", 0)?;
    Shared::new(alloc, Term::Call(set, List::new(alloc)))
}

/// All declarations, with the terms of their bodies.
fn declared(
    alloc: Global,
    known: &Known,
    members: &Members,
    typed: &Typed,
) -> Result<List<CoreDecl>, Memory>
    ensures { IfOk result (λ list. map Some list
        ≡ flat_map (declarations_of_set (bodies (given_of known.now) 0 typed.now.bodies))
        members.now.sets) }
{
    let terms = bodies(alloc, known, typed.bodies.as_slice())?;
    declarations(alloc, terms.as_slice(), members.sets.as_slice())
}

/// The program of a component that keeps all rules, by its hierarchy, its members, its texts and
/// its typed forms.
///
/// # Errors
///
/// `Memory` where memory is wanting; where there are more variables of a declaration, functions,
/// types, fields or declarations than numbers for them; and where a declaration has no body though
/// it is to have one, which no component has that keeps all rules.
pub fn elaborate(
    alloc: Global,
    hierarchy: Hierarchy,
    members: &Members,
    texts: &[Bytes],
    typed: &Typed,
) -> Result<Program, Memory>
    ensures { IfOk result
        (λ program. IsProgramOf hierarchy members.now texts.now typed.now program) }
{
    let Hierarchy {
        table,
        names,
        bodies: _bodies,
    } = hierarchy;
    let initials = typed.initials.as_slice();
    let variables = members.variables.as_slice();
    let shapes = shapes(alloc, texts, initials, members)?;
    let widen = function_set(members, b"widen", 1)?;
    let known = Known {
        texts,
        shapes: shapes.as_slice(),
        widen,
    };
    let decls = declared(alloc, &known, members, typed)?;
    let first = first_term(alloc, members)?;
    let opening = opening(alloc, texts, initials, variables, shapes.as_slice())?;
    let opening_types = opening_types(alloc, variables, shapes.as_slice())?;
    let sets = core_sets(alloc, members.sets.as_slice())?;
    Ok(Program {
        types: table,
        built_in: BUILT_IN,
        type_names: names,
        shapes,
        sets,
        decls,
        first,
        opening,
        opening_types,
    })
}
