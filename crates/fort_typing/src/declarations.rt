//! Initials and bodies.
ghost use Rattle.std.specs.Prelude.{◌≡◌, IfOk};
ghost use Rattle.fort_typing_known.specs.Read.{facts};
ghost use Rattle.fort_typing_meaning.specs.Whole.{judged_body, judged_initial};

use crate::constants::constant;
use fort_base::Memory;
use fort_base::rules::INITIAL_NOT_CONSTANT;
use fort_form::{BodyForm, InitialForm};
use fort_typing_known::{Fault, Known};
use fort_typing_meaning::Valued;
use fort_typing_parts::{breaks, place_of};
use fort_typing_walk::{body, typed_below};
use std::alloc::Global;

/// What an initial has become, and the first broken rule so far.
#[tactic(auto, unfolding(fort_typing_meaning::specs::Whole::judged_initial))]
pub fn judged_initial(
    alloc: Global,
    known: &Known,
    initial: &InitialForm,
    found: Option<Fault>,
) -> Result<Valued, Memory>
    ensures { IfOk result (λ it. it ≡ judged_initial (facts known.now) initial.now found) }
{
    let place = place_of(&initial.value);
    match constant(alloc, known, &initial.value)? {
        Some(typed) => Ok(typed_below(known, &initial.ty, place, typed, found)),
        None => Ok(Valued {
            node: None,
            found: breaks(INITIAL_NOT_CONSTANT, place, found),
        }),
    }
}

/// What a body has become, and the first broken rule so far.
#[tactic(auto, unfolding(fort_typing_meaning::specs::Whole::judged_body, fort_typing_walk::specs::Walks::body_answer))]
pub fn judged_body(
    alloc: Global,
    known: &Known,
    form: &BodyForm,
    found: Option<Fault>,
) -> Result<Valued, Memory>
    ensures { IfOk result (λ it. it ≡ judged_body (facts known.now) form.now found) }
{
    let within = Known {
        table: known.table,
        names: known.names,
        index: known.index,
        owner: form.owner,
    };
    body(
        alloc,
        &within,
        form.parameters.as_slice(),
        &form.result,
        &form.body,
        found,
    )
}
