//! What holds of legs, each law named by a function that does nothing.
ghost use Rattle.fort_walk_stretch.specs.Goes.{LegStaysBelow};

/// Where the store has no location from the first number of the room on, a leg touches none with
/// the number `fresh` or a higher one.
pub fn leg_stays_below()
    ensures { LegStaysBelow }
{}
