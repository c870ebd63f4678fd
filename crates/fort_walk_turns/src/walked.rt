//! What a walk comes to.
use fort_walk_course::Ran;

/// What a walk of a program comes to.
#[derive(Drop)]
pub enum Walked {
    /// To the end of a run: completed, uncaught or out of fuel.
    Ran(Ran),
    /// To a machine of the program, the root's or an attempt's, that can't go on and isn't at its
    /// end. No machine of an accepted program is so.
    Stuck,
}
