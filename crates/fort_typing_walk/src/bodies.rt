//! Bodies: a walk over one body.
ghost use Rattle.std.specs.Prelude.{◌≡◌, IfOk};
ghost use Rattle.fort_typing_known.specs.Read.{facts};
ghost use Rattle.fort_typing_walk.specs.Walks.{body_answer};

use crate::elements::wanted_below;
use crate::walk::Walk;
use fort_base::{Memory, Ty};
use fort_base_stack::Stack;
use fort_form::{Form, Parameter};
use fort_typing_known::{Fault, Known};
use fort_typing_meaning::Valued;
use fort_typing_parts::place_of;
use fort_typing_rules::Meaning;
use fort_typing_tasks::{Scoping, Task};
use std::alloc::Global;
use std::mem;

/// What a body has become, with its parameters bound and below its written result, where it has,
/// and the first broken rule, that which was found so far among them; or want of memory. The
/// chapter "Typing", declarations.
///
/// Where a parameter's name is visible the body isn't asked.
#[tactic(auto, using(crate::proofs::Told::flags_told), unfolding(crate::specs::Walks::body_answer, fort_typing_meaning::specs::Parts::as_wanted_below))]
pub fn body(
    alloc: Global,
    known: &Known,
    parameters: &[Parameter],
    written: &Ty,
    form: &Form,
    found: Option<Fault>,
) -> Result<Valued, Memory>
    ensures { IfOk result (λ it. it
        ≡ body_answer (facts known.now) parameters.now written.now form.now found) }
{
    let mut walk = Walk::new(alloc, found);
    let mut names = Stack::new(alloc);
    names.push(Task::Scope(Scoping::Parameters(parameters)))?;
    walk.run(known, &mut names)?;
    if walk.frame.lost {
        return Ok(Valued {
            node: None,
            found: walk.found,
        });
    }
    let mut tasks = Stack::new(alloc);
    tasks.push(Task::See(form))?;
    walk.run(known, &mut tasks)?;
    let seen = mem::replace(&mut walk.seen, Meaning::Unknown);
    Ok(wanted_below(known, written, place_of(form), seen, walk.found))
}
