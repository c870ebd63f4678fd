//! What a submitted leg came to.
ghost use Rattle.std.specs.Prelude.{◌≡◌};
ghost use Rattle.fort_hall_machine.specs.Words.{IsSubmitted, IsLent};
ghost use Rattle.fort_hall_work.specs.Grown.{was_appended};

use crate::lent::Lent;
use fort_base::{BookId, TaskId};
use fort_deck::Job;
use fort_hall_machine::{After, Found, Machine, Submitted};

/// Tasks for others: new ones, with numbers in a row, and whether others may be lent again.
#[derive(Clone, Copy, Debug, PartialEq, Eq)]
pub struct Offer {
    pub first: u64,
    pub count: u64,
    pub woken: bool,
}

impl Offer {
    /// No task for others.
    pub const NONE: Offer = Offer {
        first: 0,
        count: 0,
        woken: false,
    };

    pub fn is_some(&self) -> bool {
        self.count > 0 || self.woken
    }
}

/// What a submitted leg leaves, as it comes out of a lock.
#[derive(Drop)]
pub struct Outcome<M: Machine> {
    /// Whether the leg was appended.
    pub done: bool,
    /// What this worker goes on with.
    pub next: Option<Lent<M>>,
    pub offer: Offer,
    /// What the book let go.
    pub waste: M::Waste,
}

impl<M: Machine> Outcome<M> {
    /// The outcome of a leg of this book.
    pub fn new(book: BookId, submitted: Submitted<M::State>, waste: M::Waste) -> Outcome<M>
        requires { IsSubmitted M.good submitted }
        ensures { result.done ≡ was_appended submitted }
    {
        match submitted {
            Submitted::Done(
                After {
                    next,
                    first,
                    count,
                    woken,
                },
            ) => Outcome {
                done: true,
                next: lent_on(book, next),
                offer: Offer {
                    first,
                    count,
                    woken,
                },
                waste,
            },
            Submitted::Stale(next) => Outcome {
                done: false,
                offer: Offer {
                    woken: next.is_none(),
                    ..Offer::NONE
                },
                next: lent_on(book, next),
                waste,
            },
            Submitted::Gone => Outcome {
                done: false,
                next: None,
                offer: Offer::NONE,
                waste,
            },
        }
    }
}

// The task of this book that is lent on.
fn lent_on<M: Machine>(book: BookId, next: Option<(u64, Found<M::State>)>) -> Option<Lent<M>>
    requires { IsLent M.good next }
{
    match next {
        Some((task, found)) => Some(Lent::new(
            Job {
                book,
                task: TaskId(task),
            },
            found,
        )),
        None => None,
    }
}
