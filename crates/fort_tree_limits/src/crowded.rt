//! What there is too much of in a component.
ghost use Rattle.std.specs.Prelude.{◌≡◌, MatchOption};
ghost use Rattle.fort_tree.specs.Limits.{BreaksLimit, KeepsLimits};

use crate::census::Count;
use crate::walk::Walk;
use fort_base::Place;
use fort_tree::Component;

/// How many declarations a component may have, the members of its traits and objects included.
const MOST_DECLARATIONS: usize = 4096;

/// How many traits and objects a component may have.
const MOST_TYPES: usize = 1024;

/// The earliest place of what passes a limit in a component, or `None` where nothing does; it takes
/// no memory.
///
/// It is what rule 203 of the chapter "Limits, and 203" refuses.
pub fn first_crowded(component: &Component) -> Option<Place>
    ensures { MatchOption result (KeepsLimits component.now) (λ at. BreaksLimit component.now at) }
{
    let mut walk = Walk { earliest: None };
    let mut declarations = Count {
        left: MOST_DECLARATIONS,
        late: None,
    };
    declarations.declarations(&component.declarations);
    walk.see_late(declarations.late);
    let mut types = Count {
        left: MOST_TYPES,
        late: None,
    };
    types.types(&component.declarations);
    walk.see_late(types.late);
    walk.declarations(&component.declarations);
    walk.earliest
}
