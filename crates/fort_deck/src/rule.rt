//! The rule of the deque under a deck, and what each call tells the party that makes it.
use crate::job::Job;
use crate::view::View;
use crossbeam_deque::protocol::{Join, Lesson, Outcome, Protocol, Split};

pub struct Dealing;

impl Protocol<Job, View> for Dealing {
    ghost use Rattle.fort_deck.specs.Views.{founder, nobody};
    ghost use Rattle.fort_deck.specs.Dealt.{Dealt};

    ghost holds = { Dealt };

    ghost first = { founder };

    ghost guest = { nobody };
}

/// A job is put.
pub struct Put;

impl Outcome<Job, View> for Put {
    ghost use Rattle.fort_deck.specs.Calls.{Puts};

    ghost then = { Puts };
}

/// The owner takes a job.
pub struct Own;

impl Outcome<Job, View> for Own {
    ghost use Rattle.fort_deck.specs.Calls.{Owns, AllStolen};

    ghost then = { Owns };

    ghost empty = { AllStolen };
}

/// A thief takes a job.
pub struct Steal;

impl Outcome<Job, View> for Steal {
    ghost use Rattle.fort_deck.specs.Calls.{Steals, HadFew};

    ghost then = { Steals };

    ghost empty = { HadFew };
}

/// A thief is made.
pub struct Another;

impl Split<View> for Another {
    ghost use Rattle.fort_deck.specs.Views.{one_more, newcomer};

    ghost left = { one_more };

    ghost right = { newcomer };
}

/// A thief is taken in.
pub struct Together;

impl Join<View> for Together {
    ghost use Rattle.fort_deck.specs.Views.{one_less, nobody};

    ghost both = { one_less };

    ghost spent = { nobody };
}

/// All thieves have been taken in: what was put is accounted for.
pub struct Settle;

impl Lesson<Job, View> for Settle {
    ghost use Rattle.fort_deck.specs.Calls.{Settles};

    ghost fact = { λ v _. Settles v };
}

/// A job is taken of those that are left.
pub struct Next;

impl Outcome<Job, View> for Next {
    ghost use Rattle.std.specs.Prelude.{◌≡◌, []};
    ghost use Rattle.fort_deck.specs.Views.{left};
    ghost use Rattle.fort_deck.specs.Calls.{Nexts};

    ghost then = { Nexts };

    ghost empty = { λ v. left v ≡ [] };
}
