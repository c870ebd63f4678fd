//! An attempt is opened, and comes to its end.
ghost use Rattle.std.specs.Prelude.{◌≡◌, true, IfOk, IfSome, IsTrue, Some};
ghost use Rattle.fort_core.specs.declared.term.Term.{Term as a_term, Stepped};
ghost use Rattle.fort_machine.specs.Ends.{has_stepped};
ghost use Rattle.fort_machine.specs.Written.{WrittenProgram};
ghost use Rattle.fort_hall_books.specs.Books.{origin_of};
ghost use Rattle.fort_hall_forms.specs.Forms.{EndsAt};
ghost use Rattle.fort_hall_program.specs.States.{HasGoneTo, IsBookOf, IsGood, IsLegOfTask, attempt_leg, only, opened_at, with_form};

use crate::book::TaskBook;
use crate::state::{State, TaskLeg};
use fort_base::{List, Loc, Memory, Shared};
use fort_core::{Path, Pick, Program, Term, Value};
use fort_hall_books::{Closed, Kind, Leg};
use fort_hall_forms::{AtForm, Became, after_form, ended_at};
use fort_store_effects::Layer;
use std::alloc::Global;
use std::mem;

/// The book of an attempt of the form at which a state stands. It may cost what its book has left,
/// but for the 1 of the attempt itself.
///
/// # Errors
///
/// `Memory` where memory is wanting.
pub(crate) fn begin(
    alloc: Global,
    program: &Program,
    most: u64,
    state: &State,
    form: &AtForm,
) -> Result<TaskBook, Memory>
    requires written { WrittenProgram program.now }
    requires good { IsGood program.now most state.now }
    requires form { state.now.form ≡ Some form.now }
    ensures keeps { IfOk result (IsBookOf program.now most) }
    ensures origin { IfOk result (λ x. origin_of x.book ≡ opened_at state.now form.now) }
{
    let _program = program;
    let _most = most;
    if is_mark(form.body.get()) {
        unreachable!()
    }
    let view = state.view.share()?;
    let body = form.body.share()?;
    let own = state.left.saturating_sub(1);
    TaskBook::new(alloc, true, view, body, own, state.depth.saturating_add(1))
}

// Whether a term is a part in which a step was taken.
fn is_mark(term: &Term) -> bool
    ensures mark { result ≡ has_stepped term.now }
    ensures inner { IsTrue result → (a : a_term) × (term.now ≡ Stepped a) }
{
    match term {
        Term::Stepped(_) => true,
        _ => false,
    }
}

/// The one leg that an attempt is which has completed or failed, of a state that stood at this
/// form; none where it has come to no end, or where its cost passes all numbers.
///
/// # Errors
///
/// `Memory` where memory is wanting.
#[tactic(auto, using(crate::proofs::Attempting::gone_to))]
pub(crate) fn finish(
    alloc: Global,
    program: &Program,
    most: u64,
    state: State,
    form: AtForm,
    book: TaskBook,
) -> Result<Option<TaskLeg>, Memory>
    requires good { IsGood program.now most (with_form state form) }
    requires keeps { IsBookOf program.now most book }
    requires origin { origin_of book.book ≡ opened_at state form }
    ensures { IfOk result (λ found. IfSome found (IsLegOfTask program.now)) }
{
    let closed = book.book.close(alloc, program)?;
    match ended_at(&closed.term)? {
        None => Ok(None),
        Some(became) => tried(alloc, program, most, state, form, closed, became),
    }
}

// The same of what the attempt came to, which has ended so.
fn tried(
    alloc: Global,
    program: &Program,
    most: u64,
    state: State,
    form: AtForm,
    closed: Closed,
    became: Became,
) -> Result<Option<TaskLeg>, Memory>
    requires good { IsGood program.now most (with_form state form) }
    requires gone { HasGoneTo program.now state form closed }
    requires ends { EndsAt closed.term (Some became) }
    ensures { IfOk result (λ found. IfSome found (IsLegOfTask program.now)) }
{
    let _program = program;
    let _most = most;
    let Closed {
        view: _below,
        done,
        picks: within,
        term: _end,
    } = closed;
    let Became {
        closing,
        term: becomes,
    } = became;
    if done.cost() == u64::MAX {
        return Ok(None);
    }
    let mut form = form;
    let watched = mem::replace(&mut form.watched, None);
    let path = form.place.path.copy(alloc)?;
    let picks = one_attempt(alloc, path, within)?;
    let done = done.closed(closing)?;
    let term = after_form(alloc, form, becomes)?;
    Ok(Some(leg_of(state, watched, done, picks, term)))
}

// An attempt as the leg of a state's task.
fn leg_of(
    state: State,
    watched: Option<List<(Loc, Value)>>,
    done: Layer,
    picks: List<Pick>,
    term: Shared<Term>,
) -> TaskLeg
    ensures { result ≡ attempt_leg state watched done picks term }
{
    let _view = state.view;
    let leg = Leg {
        inner: state.inner,
        path: state.path,
        part: state.part,
        kind: Kind::Attempt(watched),
        done,
        picks,
        term,
    };
    TaskLeg {
        task: state.task,
        leg,
    }
}

// An attempt as the only pick.
fn one_attempt(alloc: Global, path: Path, within: List<Pick>) -> Result<List<Pick>, Memory>
    ensures { IfOk result (λ picks. picks ≡ only path within) }
{
    let mut picks = List::new(alloc);
    picks.push(Pick::Attempt(path, within))?;
    Ok(picks)
}
