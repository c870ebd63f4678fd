//! Attempts of atomic forms.
ghost use Rattle.std.specs.Prelude.{◌≡◌, ◌≢◌, ◌+◌, ◌≤◌, ◌++◌, ◌∷◌, [], Some, IfOk, IfSome, MatchOption};
ghost use Rattle.fort_core.specs.declared.form.Mode.{Mode};
ghost use Rattle.fort_core.specs.declared.term.Term.{Term};
ghost use Rattle.fort_core.specs.declared.pick.Pick.{Attempt as an_attempt};
ghost use Rattle.fort_machine.specs.Acts.{single as single_of};
ghost use Rattle.fort_machine.specs.Attempts.{Ended, aborts, goes};
ghost use Rattle.fort_machine.specs.Ends.{throw_of};
ghost use Rattle.fort_store_effects.specs.Levels.{HasAttempt, IsOpen, levels_of, spent as all_spent};
ghost use Rattle.fort_core.specs.declared.pick.Pick.{Step as a_step};
ghost use Rattle.fort_machine.specs.Runs.{location};
ghost use Rattle.fort_walk_course.specs.Picked.{PicksAttempt, PicksNothing};
ghost use Rattle.fort_walk_course.specs.Courses.{HasCome, IsGoing, IsWhole, around, held};
ghost use Rattle.fort_walk_course.specs.Calls.{Aborts, BeginsTo, CannotThrow, ClosesTo, IsUndone, KeepsForm, Leaves, MayAbort, MayTry, MayTryThis, StopsTo};

use crate::course::{Course, Going, Turn, Waiting};
use crate::execution::Execution;
use crate::steps::risen;
use fort_base::{List, Loc, Memory, Shared, TypeId};
use fort_core::{CoreKind, Mode, Pick, Program, Term, Value};
use fort_frames::{At, Place, State};
use fort_store_effects::{Closing, Layers};
use std::alloc::Global;

/// An atomic form that is tried, how, and its body.
#[derive(Drop)]
pub struct Tried {
    pub form: Shared<Term>,
    pub mode: Mode,
    pub body: Shared<Term>,
}

/// A run that stands at an atomic form of which an attempt was left, in the turn in which it began.
#[derive(Drop)]
pub struct Standing {
    pub course: Execution,
    pub place: Place,
    pub form: Shared<Term>,
    pub turn: Turn,
}

// A course before an attempt, and what was kept of the form.
#[derive(Drop)]
pub(crate) struct Undone {
    pub course: Course,
    pub place: Place,
    pub form: Option<Shared<Term>>,
    pub turn: Turn,
}

impl Execution {
    /// Begins an attempt of an atomic form at a place, at the cost of 1: the attempt's machine
    /// stands at the body.
    ///
    /// # Errors
    ///
    /// `Memory` where memory is wanting.
    pub fn begin(
        self,
        alloc: Global,
        program: &Program,
        place: Place,
        mode: Mode,
        body: Shared<Term>,
        taken: u32,
    ) -> Result<Going, Memory>
        requires may { MayTry program.now self place mode body }
        requires affords { self.spent + 1 ≤ self.fuel }
        ensures going { IfOk result (IsGoing program.now) }
        ensures whole { IfOk result (λ going. IsWhole going.state) }
        ensures fuel { IfOk result (λ going. going.course.fuel ≡ self.fuel) }
        ensures picks { IfOk result (λ going. PicksNothing self place going.course) }
    {
        let _program = program;
        let at = At::Form(body.share()?);
        let turn = Turn {
            taken,
            in_vain: false,
        };
        let course = self.within(alloc, place, None, mode, body, turn)?;
        let place = Place::root(alloc);
        Ok(Going {
            course,
            state: State { place, at },
        })
    }

    /// The same of a form that is kept, so that the attempt may be left; the walk's turn is handed
    /// out then.
    ///
    /// # Errors
    ///
    /// `Memory` where memory is wanting.
    pub fn enter(
        self,
        alloc: Global,
        program: &Program,
        place: Place,
        tried: Tried,
        turn: Turn,
    ) -> Result<Going, Memory>
        requires may { MayTryThis program.now self place tried.form tried.mode tried.body }
        requires affords { self.spent + 1 ≤ self.fuel }
        ensures going { IfOk result (IsGoing program.now) }
        ensures whole { IfOk result (λ going. IsWhole going.state) }
        ensures begins { IfOk result
            (λ going. BeginsTo self place (Some tried.form) tried.mode tried.body turn
            going.course) }
    {
        let _program = program;
        let Tried { form, mode, body } = tried;
        let at = At::Form(body.share()?);
        let course = self.within(alloc, place, Some(form), mode, body, turn)?;
        let place = Place::root(alloc);
        Ok(Going {
            course,
            state: State { place, at },
        })
    }

    /// The innermost attempt is left: it is undone, as if it had never begun, with what it did,
    /// printed and cost, and the run stands at its form again.
    ///
    /// # Errors
    ///
    /// `Memory` where memory is wanting.
    pub fn leave(self, alloc: Global, program: &Program) -> Result<Standing, Memory>
        requires kept { KeepsForm (around self) }
        requires come { (r : Ended) × HasCome program.now self r }
        ensures may { IfOk result (λ standing. (m : Mode) × (body : Term)
            × MayTryThis program.now standing.course standing.place standing.form m body) }
        ensures left { IfOk result (Leaves self) }
    {
        let _program = program;
        let undone = self.into_course().undone();
        let Undone {
            course,
            place,
            form,
            turn,
        } = undone;
        match form {
            None => unreachable!(),
            Some(form) => {
                let course = Execution::of(alloc, course)?;
                Ok(Standing {
                    course,
                    place,
                    form,
                    turn,
                })
            }
        }
    }

    /// The innermost attempt came to a value, and is completed.
    ///
    /// # Errors
    ///
    /// `Memory` where memory is wanting.
    pub fn complete(self, alloc: Global, program: &Program, value: Value) -> Result<Going, Memory>
        requires inside { self.outer ≢ [] }
        requires come { HasCome program.now self (goes (Term.Value value)) }
        ensures going { IfOk result (IsGoing program.now) }
        ensures fuel { IfOk result (λ going. going.course.fuel ≡ self.fuel) }
        ensures picks { IfOk result (λ going. PicksAttempt self self.picks going.course) }
    {
        let _program = program;
        let (course, place) = self.close(alloc, Closing::Completed)?;
        let at = At::Value(value);
        Ok(Going {
            course,
            state: State { place, at },
        })
    }

    /// The innermost attempt came to a throw, and failed.
    ///
    /// # Errors
    ///
    /// `Memory` where memory is wanting.
    pub fn fail(self, alloc: Global, program: &Program, thrown: Value) -> Result<Going, Memory>
        requires inside { self.outer ≢ [] }
        requires come { HasCome program.now self (goes (throw_of thrown)) }
        ensures going { IfOk result (IsGoing program.now) }
        ensures fuel { IfOk result (λ going. going.course.fuel ≡ self.fuel) }
        ensures picks { IfOk result (λ going. PicksAttempt self self.picks going.course) }
    {
        let _program = program;
        let (course, place) = self.close(alloc, Closing::Failed)?;
        let at = At::Throw(thrown);
        Ok(Going {
            course,
            state: State { place, at },
        })
    }

    /// A step of `abort()` at a place of an attempt's machine, at the cost of 1: an `atomic`
    /// sleeps, and a `tryatomic` throws, or can't go on where the program has no single
    /// `TryAtomicFailure`.
    ///
    /// # Errors
    ///
    /// `Memory` where memory is wanting.
    pub fn abort(
        self,
        alloc: Global,
        program: &Program,
        place: &Place,
    ) -> Result<Option<Going>, Memory>
        requires may { MayAbort program.now self place.now }
        requires affords { self.spent + 1 ≤ self.fuel }
        ensures going { IfOk result
            (λ going. MatchOption going (CannotThrow program.now (around self))
            (IsGoing program.now)) }
        ensures fuel { IfOk result
            (λ going. IfSome going (λ going. going.course.fuel ≡ self.fuel)) }
        ensures picks { IfOk result
            (λ going. IfSome going
            (λ going. PicksAttempt self (self.picks ++ a_step place.now.path (location 0) ∷ [])
            going.course)) }
    {
        let course = self.stop(alloc, place)?;
        course.aborted(alloc, program)
    }

    // The attempt's machine, before its picks, in the machine that waits for its end.
    fn within(
        self,
        alloc: Global,
        place: Place,
        form: Option<Shared<Term>>,
        mode: Mode,
        body: Shared<Term>,
        turn: Turn,
    ) -> Result<Execution, Memory>
        requires { self.spent + 1 ≤ self.fuel }
        ensures { IfOk result (BeginsTo self place form mode body turn) }
    {
        let mut course = self.into_course();
        let picks = course.picks;
        course.picks = List::new(alloc);
        course.outer.push(Waiting {
            place,
            form,
            mode,
            body,
            clock: course.clock,
            fresh: course.fresh,
            picks,
            turn,
        })?;
        course.layers = course.layers.open(alloc)?;
        course.spent += 1;
        Execution::of(alloc, course)
    }

    // The step of `abort()` itself.
    fn stop(self, alloc: Global, place: &Place) -> Result<Execution, Memory>
        requires spent { self.spent ≡ all_spent (levels_of self.layers) }
        requires affords { self.spent + 1 ≤ self.fuel }
        ensures { IfOk result (StopsTo self place.now) }
    {
        let mut course = self;
        let _room = course.get().with(1);
        let run = course.get_mut();
        run.layers.print(List::new(alloc), 1)?;
        run.picks.push(Pick::Step(place.path.copy(alloc)?, Loc(0)))?;
        run.spent = run.with(1);
        Ok(course)
    }

    // The innermost attempt was aborted.
    fn aborted(self, alloc: Global, program: &Program) -> Result<Option<Going>, Memory>
        requires inside { self.outer ≢ [] }
        requires come { HasCome program.now self aborts }
        ensures going { IfOk result
            (λ going. MatchOption going (CannotThrow program.now (around self))
            (IsGoing program.now)) }
        ensures fuel { IfOk result
            (λ going. IfSome going (λ going. going.course.fuel ≡ self.fuel)) }
        ensures picks { IfOk result
            (λ going. IfSome going (λ going. PicksAttempt self self.picks going.course)) }
    {
        let mut course = self;
        let run = course.get_mut();
        let at = match run.outer.as_slice().last() {
            None => unreachable!(),
            Some(waiting) => after_abort(alloc, program, &mut run.layers, waiting)?,
        };
        match at {
            None => Ok(None),
            Some(at) => {
                let (course, place) = course.close(alloc, Closing::Aborted)?;
                Ok(Some(Going {
                    course,
                    state: State { place, at },
                }))
            }
        }
    }

    // The machine round the innermost attempt, of which that is the last pick, and the place of
    // its form.
    fn close(self, alloc: Global, closing: Closing) -> Result<(Execution, Place), Memory>
        requires inside { self.outer ≢ [] }
        requires open { IsOpen (levels_of self.layers).store (levels_of self.layers).attempts }
        requires spent { self.spent ≡ all_spent (levels_of self.layers) }
        ensures { IfOk result (ClosesTo closing self) }
    {
        let (course, place) = self.into_course().closed(alloc, closing)?;
        Ok((Execution::of(alloc, course)?, place))
    }
}

impl Course {
    // The same of the course itself.
    fn closed(self, alloc: Global, closing: Closing) -> Result<(Course, Place), Memory>
        requires inside { self.outer ≢ [] }
        requires open { IsOpen (levels_of self.layers).store (levels_of self.layers).attempts }
        requires spent { self.spent ≡ all_spent (levels_of self.layers) }
        ensures { IfOk result (ClosesTo closing self) }
    {
        let mut course = self;
        match course.outer.pop() {
            None => unreachable!(),
            Some(waiting) => {
                let (place, picks) = with_attempt(alloc, waiting, course.picks)?;
                course.picks = picks;
                course.layers = course.layers.close(closing)?;
                course.clock = risen(course.clock)?;
                Ok((course, place))
            }
        }
    }

    // Before the innermost attempt.
    fn undone(self) -> Undone
        requires inside { self.outer ≢ [] }
        requires open { HasAttempt (levels_of self.layers).attempts }
        requires spent { self.spent ≡ all_spent (levels_of self.layers) }
        ensures { IsUndone self result }
    {
        let mut course = self;
        match course.outer.pop() {
            None => unreachable!(),
            Some(waiting) => {
                let Waiting {
                    place,
                    form,
                    mode: _,
                    body: _body,
                    clock,
                    fresh,
                    picks: before,
                    turn,
                } = waiting;
                let cost = course.layers.undo();
                course.spent -= 1;
                course.spent -= cost;
                course.picks = before;
                course.clock = clock;
                course.fresh = fresh;
                Undone {
                    course,
                    place,
                    form,
                    turn,
                }
            }
        }
    }
}

// What an atomic form becomes whose attempt was aborted, if it becomes something.
fn after_abort(
    alloc: Global,
    program: &Program,
    layers: &mut Layers,
    waiting: &Waiting,
) -> Result<Option<At>, Memory>
    requires { HasAttempt (levels_of layers.old).attempts }
    ensures becomes { IfOk result (Aborts program.now (held waiting.now) (levels_of layers.old)) }
    ensures kept { levels_of layers.new ≡ levels_of layers.old }
{
    match waiting.mode {
        Mode::Atomic => {
            let marks = layers.marks(alloc)?;
            let form = Term::Asleep(marks, waiting.body.share()?);
            Ok(Some(At::Form(Shared::new(alloc, form)?)))
        }
        Mode::Try => match single(program, program.built_in.try_atomic_failure) {
            None => Ok(None),
            Some(value) => Ok(Some(At::Throw(value))),
        },
    }
}

// The place of a machine that waited, and its picks with the attempt behind them.
fn with_attempt(
    alloc: Global,
    waiting: Waiting,
    within: List<Pick>,
) -> Result<(Place, List<Pick>), Memory>
    ensures place { IfOk result (λ both. both.0 ≡ waiting.place) }
    ensures picks { IfOk result (λ both. both.1
        ≡ waiting.picks ++ an_attempt waiting.place.path within ∷ []) }
{
    let Waiting {
        place,
        form: _form,
        mode: _,
        body: _body,
        clock: _,
        fresh: _,
        mut picks,
        turn: _,
    } = waiting;
    picks.push(Pick::Attempt(place.path.copy(alloc)?, within))?;
    Ok((place, picks))
}

/// The single object of a type, if it has one.
pub fn single(program: &Program, id: TypeId) -> Option<Value>
    ensures { result ≡ single_of program.now id }
{
    match program.shapes.get(id.0 as usize) {
        None => None,
        Some(shape) => match shape.kind {
            CoreKind::Single(base) => Some(Value::Object(id, base)),
            _ => None,
        },
    }
}
