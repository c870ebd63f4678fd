//! What comes into the place of a variable.
use fort_base::Loc;
use fort_core::Value;

/// What comes into the place of a variable, by its number.
#[derive(Drop)]
pub enum Put {
    /// A value, into the place of an immutable variable.
    Given(u32, Value),
    /// A location, into the place of a mutable variable.
    Located(u32, Loc),
}
