//! Groupings of neighbouring elements.
ghost use Rattle.std.specs.Prelude.{◌≡◌, ◌≤◌, ◌<◌, ◌-◌, ◌++◌, ◌∷◌, [], IfOk};
ghost use Rattle.fort_juxt.specs.declared.elements.Grouping.TheVariants as a_grouping;
ghost use Rattle.fort_juxt.specs.Loose.{units, joined as joined_left, applied as applied_right};

use crate::elements::Grouping;
use fort_base::{Boxed, Memory};
use std::alloc::Global;

/// Two groupings joined by juxtaposition.
pub fn pair(alloc: Global, left: Grouping, right: Grouping) -> Result<Grouping, Memory>
    ensures { IfOk result (λ g. g ≡ a_grouping.Pair left right) }
{
    let left = Boxed::new(alloc, left)?;
    Ok(Grouping::Pair(left, Boxed::new(alloc, right)?))
}

/// A grouping applied to another one.
fn application(alloc: Global, function: Grouping, argument: Grouping) -> Result<Grouping, Memory>
    ensures { IfOk result (λ g. g ≡ a_grouping.Apply function argument) }
{
    let function = Boxed::new(alloc, function)?;
    Ok(Grouping::Apply(function, Boxed::new(alloc, argument)?))
}

/// The elements from one place up to another one joined to the left.
pub fn joined(alloc: Global, from: usize, to: usize) -> Result<Grouping, Memory>
    requires { from < to }
    ensures { IfOk result (λ g. joined_left (units from (to - from)) ≡ g ∷ []) }
{
    let mut grouping = Grouping::One(from);
    for at in from + 1..to {
        grouping = pair(alloc, grouping, Grouping::One(at))?;
    }
    Ok(grouping)
}

/// The elements from one place up to another one, each applied to what stands behind it, the last
/// one to an argument.
pub fn applied(
    alloc: Global,
    from: usize,
    to: usize,
    argument: Grouping,
) -> Result<Grouping, Memory>
    requires { from ≤ to }
    ensures { IfOk result (λ g. applied_right (units from (to - from) ++ argument ∷ []) ≡ g ∷ []) }
{
    let mut grouping = argument;
    for at in (from..to).rev() {
        grouping = application(alloc, Grouping::One(at), grouping)?;
    }
    Ok(grouping)
}
