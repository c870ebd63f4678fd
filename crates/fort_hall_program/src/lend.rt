//! A task is lent.
ghost use Rattle.std.specs.Prelude.{◌≡◌, IfOk, IfSome};
ghost use Rattle.fort_walk_turns.specs.Defined.{AlwaysOne};
ghost use Rattle.fort_hall_machine.specs.Words.{IsFound, IsLent};
ghost use Rattle.fort_hall_program.specs.States.{IsBookOf, IsGood};

use crate::book::TaskBook;
use crate::state::State;
use fort_base::{Memory, Shared};
use fort_core::Program;
use fort_hall_machine::Found;
use fort_hall_parts::part_at;
use std::alloc::Global;

/// How many forms may stand round the part of a task.
pub(crate) const DEPTH: u32 = 256;

/// Lends a task, where it can be lent. One whose part isn't to be reached is given up, and the task
/// that was divided into it goes on alone: so a book doesn't end here.
///
/// # Errors
///
/// `Memory` where memory is wanting, now or when the book's store was to go on.
pub(crate) fn lend(
    alloc: Global,
    program: &Program,
    most: u64,
    book: &mut TaskBook,
    task: u64,
) -> Result<Found<State>, Memory>
    requires one { AlwaysOne program.now }
    requires keeps { IsBookOf program.now most book.old }
    ensures keeps { IsBookOf program.now most book.new }
    ensures same { book.new.book ≡ book.old.book }
    ensures good { IfOk result (IsFound (IsGood program.now most)) }
{
    let legs = book.book.len();
    if !book.tasks.lend(task, legs) {
        return Ok(Found::Nothing);
    }
    match state_of(alloc, program, most, book, task) {
        Ok(Some(state)) => Ok(Found::Runs(state)),
        Ok(None) => {
            let _ = book.tasks.cut(task);
            Ok(Found::Nothing)
        }
        Err(wanting) => {
            book.tasks.give_back(task);
            Err(wanting)
        }
    }
}

/// Lends a task, if it is one and can be lent; where memory is wanting, it isn't.
pub(crate) fn lend_on(
    alloc: Global,
    program: &Program,
    most: u64,
    book: &mut TaskBook,
    task: Option<u64>,
) -> Option<(u64, Found<State>)>
    requires one { AlwaysOne program.now }
    requires keeps { IsBookOf program.now most book.old }
    ensures keeps { IsBookOf program.now most book.new }
    ensures same { book.new.book ≡ book.old.book }
    ensures good { IsLent (IsGood program.now most) result }
{
    let Some(task) = task else {
        return None;
    };
    match lend(alloc, program, most, book, task) {
        Ok(Found::Nothing) => None,
        Ok(found) => Some((task, found)),
        Err(Memory) => None,
    }
}

// The part of a task, with the store, where the term has an open part at its path.
#[tactic(auto, using(crate::proofs::Lending::good_state, crate::proofs::Stores::shared_off, crate::proofs::Stores::none_open))]
fn state_of(
    alloc: Global,
    program: &Program,
    most: u64,
    book: &mut TaskBook,
    task: u64,
) -> Result<Option<State>, Memory>
    requires one { AlwaysOne program.now }
    requires keeps { IsBookOf program.now most book.old }
    ensures keeps { IsBookOf program.now most book.new }
    ensures same { book.new.book ≡ book.old.book }
    ensures good { IfOk result (λ found. IfSome found (IsGood program.now most)) }
{
    let _program = program;
    let _most = most;
    let Some((path, slice)) = book.tasks.find(task) else {
        return Ok(None);
    };
    let path = path.copy(alloc)?;
    let Some(part) = part_at(alloc, book.book.term(), path.0.as_slice(), DEPTH)? else {
        return Ok(None);
    };
    let Some(store) = &mut book.at_hand else {
        return Err(Memory);
    };
    let view = store.share(alloc)?;
    Ok(Some(State {
        task,
        inner: book.book.is_inner(),
        path,
        part,
        view: Shared::new(alloc, view)?,
        left: book.book.left(),
        slice,
        depth: book.depth,
        form: None,
    }))
}
