//! The rule of the table under a turn, and what each kind of step tells the pass that makes it.
use crate::grows::Grows;
use crate::view::View;
use atomic_table::{Join, Play, Split, TableRule};
use std::snapshot::Snapshot;

pub struct InTurn;

impl<B: Grows> TableRule<Option<B>, View<B>, Snapshot<B>> for InTurn {
    ghost use Rattle.fort_turn.specs.Rule.{Kept, opened};

    ghost holds = { λ _. Kept B.history B.origin B.by };

    ghost first = { λ k. opened k.value };
}

/// A place is drawn.
pub struct Draw;

impl<B: Grows> Play<Option<B>, View<B>> for Draw {
    ghost use Rattle.fort_turn.specs.Rule.{drew};

    ghost then = { drew };
}

/// The slot is taken, where the pass's place is served.
pub struct Enter;

impl<B: Grows> Play<Option<B>, View<B>> for Enter {
    ghost use Rattle.fort_turn.specs.Rule.{entered};

    ghost then = { entered B.history B.origin B.by };
}

/// The slot is given back.
pub struct GiveBack;

impl<B: Grows> Play<Option<B>, View<B>> for GiveBack {
    ghost use Rattle.fort_turn.specs.Rule.{gave_back};

    ghost then = { gave_back };
}

/// The turn is passed on: the next place is served.
pub struct PassOn;

impl<B: Grows> Play<Option<B>, View<B>> for PassOn {
    ghost use Rattle.fort_turn.specs.Rule.{passed_on};

    ghost then = { passed_on };
}

/// No view changes; the first pass sees that no entry names a pass which isn't made yet.
pub struct Look;

impl<B: Grows> Play<Option<B>, View<B>> for Look {
    ghost use Rattle.fort_turn.specs.Rule.{looked};

    ghost then = { looked B.history B.origin B.by };
}

/// A seat is split.
pub struct Another;

impl<B> Split<View<B>> for Another {
    ghost use Rattle.fort_turn.specs.Rule.{one_more, newcomer};

    ghost left = { one_more };

    ghost right = { newcomer };
}

/// Two seats are joined: the one is told what the other knew.
pub struct Together;

impl<B> Join<View<B>> for Together {
    ghost use Rattle.fort_turn.specs.Rule.{told_of, nobody};

    ghost both = { told_of };

    ghost spent = { nobody };
}

/// The look that ends a join: the pass sees a book that follows what both had seen.
pub struct Settle;

impl<B: Grows> Play<Option<B>, View<B>> for Settle {
    ghost use Rattle.fort_turn.specs.Rule.{settled};

    ghost then = { settled B.history B.origin B.by };
}
