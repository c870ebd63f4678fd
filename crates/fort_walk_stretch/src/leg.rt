//! A leg.

use fort_base::{List, Shared};
use fort_core::{Pick, Term};
use fort_store_effects::Layer;

/// Steps that the threads of a part took beside the run.
#[derive(Drop)]
pub struct Leg {
    /// What they did, over the layers that stayed as they are.
    pub done: Layer,
    /// The steps, with paths that begin at the part.
    pub picks: List<Pick>,
    /// What the part has become.
    pub term: Shared<Term>,
    /// They made no location with this number or a higher one.
    pub fresh: u64,
    /// Whether an open thread was left out, other than for want of room in the leg: it stands at an
    /// atomic form, say.
    pub left_out: bool,
}

/// What a leg may take.
#[derive(Clone, Copy, Debug, PartialEq, Eq)]
pub struct Room {
    /// The first number for its new locations.
    pub from: u64,
    /// The number behind the last one for them.
    pub until: u64,
    /// What it may cost.
    pub cost: u64,
}
