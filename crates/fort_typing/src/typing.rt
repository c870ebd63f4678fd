//! Typing of a component.
ghost use Rattle.std.specs.Prelude.{◌≡◌, IfOk, IfErr, Ok, None};
ghost use Rattle.fort_typing_meaning.specs.Whole.{typed_whole};
ghost use Rattle.fort_typing.specs.Typing.{facts_of, IsFault};

use crate::progress::Progress;
use crate::runs::has_run;
use fort_base::rules::NO_RUN;
use fort_base::{Bytes, CheckFault, TypeTable};
use fort_form::Forms;
use fort_form_typed::Typed;
use fort_hier::Hierarchy;
use fort_types_sets::Members;
use fort_typing_known::{Index, Known, index_of};
use std::alloc::Global;

/// The typed forms of a component whose names, hierarchy and members these are.
///
/// Its initials and bodies are asked whether they keep the chapter "Typing", each in its own
/// scopes, and after them whether there is a function `run`.
///
/// # Errors
///
/// Of the rules 601 to 614 that the component breaks the one at the earliest place, and of several
/// at one place the lowest; 609 only where it breaks no other. `Memory` where memory is wanting.
pub fn typed<'a>(
    alloc: Global,
    names: &[Bytes],
    forms: &Forms,
    hierarchy: &'a Hierarchy,
    members: &'a Members,
) -> Result<Typed, CheckFault>
    ensures ok { IfOk result
        (λ it. typed_whole (facts_of names.now hierarchy.now members.now) forms.now ≡ Ok it) }
    ensures fault { IfErr result
        (λ fault. IsFault (facts_of names.now hierarchy.now members.now) forms.now fault) }
{
    let index = index_of(alloc, hierarchy.names.as_slice(), members)?;
    typed_by(alloc, names, forms, &hierarchy.table, &index)
}

/// The same with the table of the declared types, and the index by name.
#[tactic(auto, unfolding(fort_typing_meaning::specs::Whole::typed_whole))]
fn typed_by(
    alloc: Global,
    names: &[Bytes],
    forms: &Forms,
    table: &TypeTable,
    index: &Index,
) -> Result<Typed, CheckFault>
    ensures ok { IfOk result
        (λ it. typed_whole
        (record {
          table = table.now;
          types = index.now.types.now;
          names = names.now;
          members = index.now.members.now;
          owner = None;
        }) forms.now ≡ Ok it) }
    ensures fault { IfErr result
        (λ fault. IsFault
        (record {
          table = table.now;
          types = index.now.types.now;
          names = names.now;
          members = index.now.members.now;
          owner = None;
        }) forms.now fault) }
{
    let known = Known {
        table,
        names,
        index,
        owner: None,
    };
    let mut progress = Progress::begin(alloc);
    progress.add_initials(alloc, &known, forms.initials.as_slice())?;
    progress.add_bodies(alloc, &known, forms.bodies.as_slice())?;
    let runs = has_run(&known)?;
    let Progress {
        initials,
        bodies,
        found,
    } = progress;
    if let Some(fault) = found {
        return Err(CheckFault::Refused(fault.rule, fault.place));
    }
    if !runs {
        return Err(CheckFault::Refused(NO_RUN, forms.name));
    }
    Ok(Typed { initials, bodies })
}
