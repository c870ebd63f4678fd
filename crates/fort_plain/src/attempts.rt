//! Attempts of a replay.
ghost use Rattle.std.specs.Prelude.{◌≡◌, ◌≢◌, [], IfOk, List};
ghost use Rattle.fort_core.specs.declared.form.Mode.{Mode};
ghost use Rattle.fort_core.specs.declared.pick.Pick.{Attempt as an_attempt};
ghost use Rattle.fort_core.specs.declared.pick.Pick.{Pick};
ghost use Rattle.fort_core.specs.declared.term.Term.{Term};
ghost use Rattle.fort_machine.specs.Attempts.{Form, Ready};
ghost use Rattle.fort_machine.specs.Written.{WrittenProgram};
ghost use Rattle.fort_frames.specs.Frames.{Reaches, frames};
ghost use Rattle.fort_store_effects.specs.Levels.{levels_of, seen};
ghost use Rattle.fort_walk_course.specs.Courses.{IsGoing, StandsAt};
ghost use Rattle.fort_walk_course.specs.Calls.{MayTry};
ghost use Rattle.fort_plain.specs.Paths.{MarksStandIn, whole};
ghost use Rattle.fort_plain.specs.Takes.{ActsOn, Closes, MustWait, term_round};

use crate::act::Acted;
use crate::awake::{all_sleep, sleeps};
use crate::settled::{Settled, settle};
use fort_base::{Memory, Shared};
use fort_core::{Mode, Program, Term};
use fort_frames::Place;
use fort_walk_course::{Execution, Going};
use std::alloc::Global;

/// An attempt of an atomic form begins, unless the form sleeps while another thread of its machine
/// is awake.
///
/// # Errors
///
/// `Memory` where memory is wanting.
pub fn begin(
    alloc: Global,
    program: &Program,
    course: Execution,
    place: Place,
    form: Shared<Term>,
) -> Result<Acted, Memory>
    requires written { WrittenProgram program.now }
    requires stands { StandsAt program.now course place form }
    requires atomic { (m : Mode) × (body : Term) × Form form m body }
    ensures { IfOk result (λ r. (turn : _) (within : List Pick)
        → ActsOn program.now course (term_round course place form) turn
        (an_attempt place.path within) r) }
{
    if must_wait(alloc, &course, &place, &form)? {
        return Ok(Acted::Illegal);
    }
    match form.get() {
        Term::Atomic(mode, body) => open_attempt(
            alloc,
            program,
            course,
            place,
            &form,
            *mode,
            body.share()?,
        ),
        Term::Asleep(_, body) => open_attempt(
            alloc,
            program,
            course,
            place,
            &form,
            Mode::Atomic,
            body.share()?,
        ),
        _ => unreachable!(),
    }
}

// Whether a form sleeps while another thread of its machine is awake.
fn must_wait(
    alloc: Global,
    course: &Execution,
    place: &Place,
    form: &Shared<Term>,
) -> Result<bool, Memory>
    requires ready { Ready form.now }
    requires reached { Reaches course.now.clock (frames place.now.stack) form.now }
    requires marks { MarksStandIn (term_round course.now place.now form.now) }
    ensures { IfOk result
        (MustWait (seen (levels_of course.now.layers)) (term_round course.now place.now form.now)
        form.now) }
{
    if !sleeps(course, form.get()) {
        return Ok(false);
    }
    let all = all_sleep(alloc, course, place, form)?;
    Ok(!all)
}

// The attempt's machine begins at the body, or the fuel is out.
fn open_attempt(
    alloc: Global,
    program: &Program,
    course: Execution,
    place: Place,
    form: &Shared<Term>,
    mode: Mode,
    body: Shared<Term>,
) -> Result<Acted, Memory>
    requires may { MayTry program.now course place mode body }
    requires stands { StandsAt program.now course place form.now }
    requires ready { Ready form.now }
    ensures { IfOk result (λ r. (turn : _) (within : List Pick)
        → ActsOn program.now course (term_round course place form.now) turn
        (an_attempt place.path within) r) }
{
    let _form = form;
    if !course.affords(1) {
        return Ok(Acted::Passes);
    }
    Ok(Acted::Opens(course.begin(alloc, program, place, mode, body, 0)?))
}

/// The innermost attempt ends with the term to which its machine came; or it has no end, since that
/// isn't finished.
///
/// # Errors
///
/// `Memory` where memory is wanting.
#[tactic(auto, using(crate::proofs::Attempting::come_by, crate::proofs::Attempting::leaves))]
pub fn close(alloc: Global, program: &Program, going: Going) -> Result<Option<Going>, Memory>
    requires going { IsGoing program.now going }
    requires inside { going.course.outer ≢ [] }
    ensures { IfOk result (Closes program.now going.course (whole going.course.clock going.state)) }
{
    let Going { course, state } = going;
    match settle(alloc, course.clock(), state)? {
        Settled::Value(value) => Ok(Some(course.complete(alloc, program, value)?)),
        Settled::Throw(thrown) => Ok(Some(course.fail(alloc, program, thrown)?)),
        Settled::Open => Ok(None),
    }
}
