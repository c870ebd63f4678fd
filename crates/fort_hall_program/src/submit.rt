//! A leg is submitted to its book.
ghost use Rattle.std.specs.Prelude.{◌≡◌, IfOk, IfSome};
ghost use Rattle.fort_machine.specs.Ends.{open_yet, standing};
ghost use Rattle.fort_walk_turns.specs.Defined.{AlwaysOne};
ghost use Rattle.fort_hall_machine.specs.Words.{HasSubmitted, IsLent, IsSubmitted};
ghost use Rattle.fort_hall_law_books.specs.Puts.{IsPut};
ghost use Rattle.fort_hall_books.specs.Books.{origin_of};
ghost use Rattle.fort_hall_books.specs.Legs.{IsLegOf};
ghost use Rattle.fort_hall_program.specs.States.{HasAppended, IsBookOf, IsGood, IsLegOfTask, pass_of};

use crate::book::TaskBook;
use crate::lend::{DEPTH, lend_on};
use crate::state::{State, TaskLeg, Waste};
use crate::tasks::Tasks;
use fort_base::{Memory, Shared};
use fort_core::{Program, Term};
use fort_frames_moves::{Stand, standing_of};
use fort_hall_books::{Answer, Leg};
use fort_hall_machine::{After, Found, Submitted};
use fort_hall_parts::{open_parts, put_in};
use std::alloc::Global;

/// A book of so many legs, each of which cost less than so much in the mean, lends no task more.
const MANY: u64 = 256;

const SHORT: u64 = 96;

/// Appends a leg where it suits the book, as one entry that names the pass. What the worker goes on
/// with is lent: the same task, or the first of those into which it is divided where others look
/// for work (`wanted`), or the task that waited for this one. A leg of a task that was given up is
/// dropped, whatever it is.
///
/// # Errors
///
/// `Memory` where memory is wanting; the history is as it was.
pub(crate) fn submit(
    alloc: Global,
    program: &Program,
    most: u64,
    book: &mut TaskBook,
    leg: TaskLeg,
    pass: u64,
    wanted: u32,
) -> Result<(Submitted<State>, Waste), Memory>
    requires one { AlwaysOne program.now }
    requires keeps { IsBookOf program.now most book.old }
    requires leg { IsLegOfTask program.now leg }
    ensures keeps { IsBookOf program.now most book.new }
    ensures origin { origin_of book.new.book ≡ origin_of book.old.book }
    ensures history { HasSubmitted pass_of pass book.old.book.entries result
        book.new.book.entries }
    ensures good { IfOk result (λ r. IsSubmitted (IsGood program.now most) r.0) }
{
    let TaskLeg { task, leg } = leg;
    if !book.tasks.comes_back(task) {
        return Ok((Submitted::Gone, Waste::Leg(leg)));
    }
    let Some(whole) = whole_with(alloc, book, &leg)? else {
        let next = refused(alloc, program, most, book, task);
        return Ok((Submitted::Stale(next), Waste::Leg(leg)));
    };
    let part = leg.term.share()?;
    match append(alloc, program, most, book, leg, whole, pass)? {
        Answer::Stale(_why, leg) => {
            let again = refused(alloc, program, most, book, task);
            Ok((Submitted::Stale(again), Waste::Leg(leg)))
        }
        Answer::Done(before) => {
            let left = after(alloc, program, most, book, task, part, wanted);
            Ok((Submitted::Done(left), Waste::Term(before)))
        }
    }
}

// The book's term with what a leg's part has become in its place, where the part stands there.
fn whole_with(alloc: Global, book: &TaskBook, leg: &Leg) -> Result<Option<Shared<Term>>, Memory>
    requires { standing leg.now.part ≡ open_yet }
    ensures { IfOk result (λ found. IfSome found
        (IsPut book.now.book.term leg.now.path.0 leg.now.part leg.now.term)) }
{
    let next = leg.term.share()?;
    let path = leg.path.0.as_slice();
    put_in(alloc, book.book.term(), path, &leg.part, next, DEPTH)
}

// A leg is appended where it suits the book, and done to the store at hand; else nothing changes.
fn append(
    alloc: Global,
    program: &Program,
    most: u64,
    book: &mut TaskBook,
    leg: Leg,
    whole: Shared<Term>,
    pass: u64,
) -> Result<Answer, Memory>
    requires keeps { IsBookOf program.now most book.old }
    requires leg { IsLegOf program.now leg }
    requires put { IsPut book.old.book.term leg.path.0 leg.part leg.term whole }
    ensures keeps { IsBookOf program.now most book.new }
    ensures origin { origin_of book.new.book ≡ origin_of book.old.book }
    ensures history { HasAppended pass book.old.book.entries result book.new.book.entries }
{
    let _most = most;
    let more = leg.done.silent(alloc)?;
    match book.book.submit(alloc, program, leg, whole, pass)? {
        Answer::Stale(why, leg) => Ok(Answer::Stale(why, leg)),
        Answer::Done(before) => {
            book.go_on(more);
            Ok(Answer::Done(before))
        }
    }
}

// A leg of the task was refused, and the task is lent again.
fn refused(
    alloc: Global,
    program: &Program,
    most: u64,
    book: &mut TaskBook,
    task: u64,
) -> Option<(u64, Found<State>)>
    requires one { AlwaysOne program.now }
    requires keeps { IsBookOf program.now most book.old }
    ensures keeps { IsBookOf program.now most book.new }
    ensures same { book.new.book ≡ book.old.book }
    ensures good { IsLent (IsGood program.now most) result }
{
    book.tasks.refuse(task);
    lend_on(alloc, program, most, book, Some(task))
}

// What is left to do behind a leg that was appended.
fn after(
    alloc: Global,
    program: &Program,
    most: u64,
    book: &mut TaskBook,
    task: u64,
    part: Shared<Term>,
    wanted: u32,
) -> After<State>
    requires one { AlwaysOne program.now }
    requires keeps { IsBookOf program.now most book.old }
    ensures keeps { IsBookOf program.now most book.new }
    ensures same { book.new.book ≡ book.old.book }
    ensures good { IsLent (IsGood program.now most) result.next }
{
    let short = are_short(book);
    book.tasks.retire_if(short);
    let held = book.tasks.is_held();
    let woken = book.tasks.wake(book.book.len());
    let offer = turned(alloc, &mut book.tasks, task, &part, wanted);
    let freed = held && !book.tasks.is_held();
    let passed_on = offer.count == 0 && offer.next != Some(task);
    let next = lend_on(alloc, program, most, book, offer.next);
    After {
        woken: woken || freed || passed_on || next.is_none(),
        next,
        first: offer.first,
        count: offer.count,
    }
}

// Whether the root's book has so many legs that are so short together that one worker by itself
// would be faster.
fn are_short(book: &TaskBook) -> bool {
    let legs = book.book.len() as u64;
    let least = legs.saturating_mul(SHORT);
    book.depth == 0 && legs >= MANY && book.book.done().cost() < least
}

// Which task comes next, and which are new for others.
#[derive(Drop)]
struct Offer {
    next: Option<u64>,
    first: u64,
    count: u64,
}

// How the task stands once its part has become another one.
fn turned(alloc: Global, tasks: &mut Tasks, task: u64, part: &Shared<Term>, wanted: u32) -> Offer {
    match standing_of(part.get()) {
        Stand::Open => {
            tasks.accept(task, wanted);
            let had_turn = tasks.had_turn(task);
            if wanted == 0 && !had_turn {
                return alone(Some(task));
            }
            match divided(alloc, tasks, task, part) {
                Ok(Some(offer)) => offer,
                _ if had_turn => alone(Some(tasks.behind(task))),
                _ => alone(Some(task)),
            }
        }
        Stand::Value => alone(tasks.end(task)),
        Stand::Throw => alone(tasks.cut(task)),
    }
}

// No new task.
fn alone(next: Option<u64>) -> Offer {
    Offer {
        next,
        first: 0,
        count: 0,
    }
}

// The tasks into which a part of several open parts is divided.
fn divided(
    alloc: Global,
    tasks: &mut Tasks,
    task: u64,
    part: &Shared<Term>,
) -> Result<Option<Offer>, Memory> {
    let Some(division) = open_parts(alloc, part, DEPTH)? else {
        return Ok(None);
    };
    let count = division.numbers.len() as u64;
    match tasks.divide(alloc, task, &division)? {
        None => Ok(None),
        Some(first) => Ok(Some(Offer {
            next: Some(first),
            first: first.saturating_add(1),
            count: count.saturating_sub(1),
        })),
    }
}
