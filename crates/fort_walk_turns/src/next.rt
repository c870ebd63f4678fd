//! What comes next in a run: another turn, or its end.
ghost use Rattle.std.specs.Prelude.{◌≡◌};
ghost use Rattle.fort_walk_course.specs.Courses.{IsGoing, StandsAt};
ghost use Rattle.fort_walk_turns.specs.Grows.{Onward};
ghost use Rattle.fort_walk_turns.specs.Idles.{Follows, IsAtLeft, IsAtPlace};

use crate::sweep::Sweep;
use crate::walked::Walked;
use fort_base::Shared;
use fort_core::{Program, Term};
use fort_frames::{At, Place, State};
use fort_walk_course::{Execution, Going};

/// A run that goes on, and how far its innermost machine has come in going through its threads.
#[derive(Drop)]
pub struct Walking {
    pub going: Going,
    pub sweep: Sweep,
}

/// One turn of a run, or its end.
#[derive(Drop)]
pub enum Next {
    Goes(Walking),
    Ends(Walked),
}

/// At a form of the same term.
pub fn at_form(
    program: &Program,
    course: Execution,
    sweep: Sweep,
    place: Place,
    form: Shared<Term>,
) -> Next
    requires { IsAtPlace program.now course sweep place form }
    ensures follows { Follows program.now course.fuel result }
    ensures grows { Onward course result }
{
    let _program = program;
    let at = At::Form(form);
    let state = State { place, at };
    Next::Goes(Walking {
        going: Going { course, state },
        sweep,
    })
}

/// Past a thread that doesn't go on now.
pub fn left(
    program: &Program,
    course: Execution,
    sweep: Sweep,
    place: Place,
    form: Shared<Term>,
) -> Next
    requires { IsAtLeft program.now course sweep place form }
    ensures follows { Follows program.now course.fuel result }
    ensures grows { Onward course result }
{
    let _program = program;
    let at = At::Left(form);
    let state = State { place, at };
    Next::Goes(Walking {
        going: Going { course, state },
        sweep,
    })
}

/// After a pick of a thread, which stands at a form now.
pub fn picked(
    program: &Program,
    course: Execution,
    sweep: Sweep,
    place: Place,
    form: Shared<Term>,
) -> Next
    requires { StandsAt program.now course place form }
    ensures follows { Follows program.now course.fuel result }
    ensures grows { Onward course result }
{
    at_form(program, course, Sweep::picked(sweep.taken), place, form)
}

/// An attempt ended, which is a pick of the thread round it.
pub fn closed(program: &Program, going: Going, taken: u32) -> Next
    requires { IsGoing program.now going }
    ensures follows { Follows program.now going.course.fuel result }
    ensures grows { Onward going.course result }
{
    let _program = program;
    let sweep = Sweep::picked(taken);
    Next::Goes(Walking { going, sweep })
}
