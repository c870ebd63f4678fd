//! A deck in one thread: three jobs are put, and each comes out where it must.
ghost use Rattle.std.specs.Prelude.{◌≡◌, ◌<◌, [], ◌∷◌, ◌++◌, length, Some, None, IfSome};
ghost use Rattle.fort_deck.specs.Decks.{IsOwnerOf, IsThiefOf, put_by, owned_by, stack_of, thieves_of, number_of, stolen_by, left_of};
ghost use Rattle.fort_hall_test.specs.Jobs.{job, row};

use crate::closing::close_with_one;
use fort_base::{BookId, TaskId};
use fort_deck::{Deck, Job, Owner, Rest, Thief};
use std::alloc::Global;

/// What the owner took, what the thief took, and what was left in two calls.
#[derive(Drop)]
pub struct Row {
    pub owned: Job,
    pub stolen: Job,
    pub left: Option<Job>,
    pub end: Option<Job>,
}

// One of the first jobs: it can't be refused.
fn put(deck: &Deck, owner: &mut Owner, number: u64)
    requires { IsOwnerOf deck.now owner.old × (length (put_by owner.old) < 64) }
    ensures same { IsOwnerOf deck.now owner.new × (owned_by owner.new ≡ owned_by owner.old)
        × (thieves_of owner.new ≡ thieves_of owner.old) }
    ensures put { (put_by owner.new ≡ put_by owner.old ++ job number ∷ [])
        × (stack_of owner.new ≡ stack_of owner.old ++ job number ∷ []) }
{
    let job = Job {
        book: BookId(0),
        task: TaskId(number),
    };
    let Ok(()) = deck.put(owner, job) else {
        unreachable!()
    };
}

// The last of the jobs, where no thief was made and a job is left.
fn own(deck: &Deck, owner: &mut Owner) -> Job
    requires { IsOwnerOf deck.now owner.old × (thieves_of owner.old ≡ 0)
        × (0 < length (stack_of owner.old)) }
    ensures same { IsOwnerOf deck.now owner.new × (put_by owner.new ≡ put_by owner.old)
        × (thieves_of owner.new ≡ thieves_of owner.old) }
    ensures took { (stack_of owner.old ≡ stack_of owner.new ++ result ∷ [])
        × (owned_by owner.new ≡ owned_by owner.old ++ result ∷ []) }
{
    let Some(job) = deck.own(owner) else {
        unreachable!()
    };
    job
}

// Jobs 1, 2 and 3 are put, and the owner takes one.
fn put_three(deck: &Deck, owner: &mut Owner) -> Job
    requires { IsOwnerOf deck.now owner.old × (put_by owner.old ≡ []) × (owned_by owner.old ≡ [])
        × (stack_of owner.old ≡ []) × (thieves_of owner.old ≡ 0) }
    ensures same { IsOwnerOf deck.now owner.new × (thieves_of owner.new ≡ 0) }
    ensures counts { (length (put_by owner.new) ≡ 3) × (length (owned_by owner.new) ≡ 1) }
    ensures took { (result ≡ job 3) × (stack_of owner.new ≡ job 1 ∷ job 2 ∷ []) }
{
    put(deck, owner, 1);
    put(deck, owner, 2);
    put(deck, owner, 3);
    own(deck, owner)
}

// The one job that is left, and what comes after it.
fn take_two(mut rest: Rest) -> (Option<Job>, Option<Job>)
    requires { left_of rest ≡ job 2 ∷ [] }
    ensures { (result.0 ≡ Some (job 2)) × (result.1 ≡ None) }
{
    let left = rest.next();
    let end = rest.next();
    (left, end)
}

// The thief is taken in, and the owner takes what is left.
fn finish(
    alloc: Global,
    deck: Deck,
    owner: Owner,
    thief: Thief,
    owned: Job,
    stolen: Job,
) -> Option<Row>
    requires owner { IsOwnerOf deck owner × (thieves_of owner ≡ 1) × (length (put_by owner) ≡ 3)
        × (length (owned_by owner) ≡ 1) × (stack_of owner ≡ job 1 ∷ job 2 ∷ []) }
    requires thief { IsThiefOf deck thief × (number_of thief ≡ 0)
        × (stolen_by thief ≡ stolen ∷ []) }
    requires owned { owned ≡ job 3 }
    ensures { IfSome result (λ r. r ≡ row 3 1 2) }
{
    match close_with_one(alloc, deck, owner, thief) {
        Some(rest) => {
            let (left, end) = take_two(rest);
            Some(Row {
                owned,
                stolen,
                left,
                end,
            })
        }
        None => None,
    }
}

/// Jobs 1, 2 and 3 are put. The owner takes 3, a thief takes 1, and 2 is left. `None` is want of
/// memory, or a theft that found nothing.
pub fn worked_row(alloc: Global) -> Option<Row>
    ensures { IfSome result (λ r. r ≡ row 3 1 2) }
{
    let Ok((deck, mut owner)) = Deck::new(alloc) else {
        return None;
    };
    let owned = put_three(&deck, &mut owner);
    let Ok(mut thief) = deck.thief(&mut owner) else {
        unreachable!()
    };
    match deck.steal(&mut thief) {
        Some(stolen) => finish(alloc, deck, owner, thief, owned, stolen),
        None => None,
    }
}
