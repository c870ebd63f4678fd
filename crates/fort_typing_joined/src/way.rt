//! The ways of putting two elements together.
ghost use Rattle.std.specs.Prelude.{◌≡◌, IfOk};
ghost use Rattle.fort_typing_known.specs.Read.{facts};
ghost use Rattle.fort_typing_joined.specs.Ways.{put_together};

use crate::applied::{applied, joined};
use crate::followed::followed;
use fort_base::{Boxed, Memory};
use fort_typing_known::Known;
use fort_typing_meaning::Made;
use fort_typing_rules::Part;
use std::alloc::Global;

/// How two elements are put together.
#[derive(Clone, Copy)]
pub enum Way {
    /// The first is a function, and the second its argument.
    Apply,
    /// The second is a postfix of the first.
    Follow,
    /// By the operator `juxtaposition`.
    Join,
}

/// What comes of two elements.
pub fn combined(
    alloc: Global,
    known: &Known,
    way: Way,
    one: Boxed<Part>,
    other: Boxed<Part>,
) -> Result<Made, Memory>
    ensures { IfOk result (λ made. made ≡ put_together (facts known.now) way one other) }
{
    match way {
        Way::Apply => applied(alloc, known, one, other),
        Way::Follow => followed(alloc, known, one, other),
        Way::Join => joined(alloc, known, one, other),
    }
}
