//! A deck between two threads: each job that was put comes out once.
ghost use Rattle.std.specs.Prelude.{◌≡◌, ◌+◌, ◌<◌, ◌^◌, ◌≤◌, [], length, IfSome};
ghost use Rattle.fort_deck.specs.Decks.{IsOwnerOf, IsThiefOf, put_by, owned_by, stolen_by, thieves_of, number_of, left_of};

use crate::closing::close_with_one;
use fort_base::{BookId, TaskId};
use fort_deck::{Deck, Job, Owner, Rest, Thief};
use std::alloc::Global;
use std::thread::{Threads, join};

/// How many jobs were put, and how many each party took.
#[derive(Drop, Clone, Copy)]
pub struct Sums {
    pub put: u64,
    pub owned: u64,
    pub stolen: u64,
    pub left: u64,
}

// The owner puts `count` jobs, as far as memory suffices, and takes every second one back at once.
fn put_and_own(deck: &Deck, mut owner: Owner, count: u64) -> (Owner, u64, u64)
    requires { IsOwnerOf deck.now owner × (put_by owner ≡ []) × (owned_by owner ≡ []) }
    ensures same { IsOwnerOf deck.now result.0 × (thieves_of result.0 ≡ thieves_of owner) }
    ensures counts { (length (put_by result.0) ≡ result.1)
        × (length (owned_by result.0) ≡ result.2) }
{
    let mut put = 0u64;
    let mut owned = 0u64;
    for i in 0..count {
        let job = Job {
            book: BookId(0),
            task: TaskId(i),
        };
        if deck.put(&mut owner, job).is_ok() {
            put += 1;
        }
        if i % 2 == 1 && deck.own(&mut owner).is_some() {
            owned += 1;
        }
    }
    (owner, put, owned)
}

// The thief tries so often to take a job.
fn steal_some(deck: &Deck, mut thief: Thief, tries: u64) -> (Thief, u64)
    requires { IsThiefOf deck.now thief × (stolen_by thief ≡ []) }
    ensures same { IsThiefOf deck.now result.0 × (number_of result.0 ≡ number_of thief) }
    ensures count { length (stolen_by result.0) ≡ result.1 }
{
    let mut stolen = 0u64;
    for _i in 0..tries {
        if deck.steal(&mut thief).is_some() {
            stolen += 1;
        }
    }
    (thief, stolen)
}

// Takes all that is left.
fn drain(mut rest: Rest) -> u64
    requires { length (left_of rest) < 2 ^ 64 }
    ensures { result ≡ length (left_of rest) }
{
    let mut left = 0u64;
    while let Some(_job) = rest.next() {
        left += 1;
    }
    left
}

// Takes the thief in and counts what is left.
fn settle(alloc: Global, deck: Deck, owner: Owner, thief: Thief, sums: Sums) -> Option<Sums>
    requires parties { IsOwnerOf deck owner × IsThiefOf deck thief × (thieves_of owner ≡ 1) }
    requires counts { (length (put_by owner) ≡ sums.put) × (length (owned_by owner) ≡ sums.owned)
        × (length (stolen_by thief) ≡ sums.stolen) }
    ensures { IfSome result (λ s. s.put ≡ s.owned + s.stolen + s.left) }
{
    match close_with_one(alloc, deck, owner, thief) {
        Some(rest) => Some(Sums {
            left: drain(rest),
            ..sums
        }),
        None => None,
    }
}

/// The owner and a thief work on one deck, side by side. As many jobs come out as were put. `None`
/// is want of memory.
pub fn share<R: Threads + Sync>(rt: &R, alloc: Global, count: u64, tries: u64) -> Option<Sums>
    ensures { IfSome result (λ s. s.put ≡ s.owned + s.stolen + s.left) }
{
    let Ok((deck, mut owner)) = Deck::new(alloc) else {
        return None;
    };
    let Ok(thief) = deck.thief(&mut owner) else {
        unreachable!()
    };
    let shared = &deck;
    let ((owner, put, owned), (thief, stolen)) = join(
        rt,
        move || -> (Owner, u64, u64)
            requires { IsOwnerOf shared.now owner × (put_by owner ≡ []) × (owned_by owner ≡ [])
                × (thieves_of owner ≡ 1) }
            ensures { IsOwnerOf shared.entry.now result.0 × (thieves_of result.0 ≡ 1)
                × (length (put_by result.0) ≡ result.1) × (length (owned_by result.0) ≡ result.2) }
        { put_and_own(shared, owner, count) },
        move || -> (Thief, u64)
            requires { IsThiefOf shared.now thief × (stolen_by thief ≡ []) }
            ensures { IsThiefOf shared.entry.now result.0
                × (length (stolen_by result.0) ≡ result.1) }
        { steal_some(shared, thief, tries) },
    );
    let sums = Sums {
        put,
        owned,
        stolen,
        left: 0,
    };
    settle(alloc, deck, owner, thief, sums)
}
