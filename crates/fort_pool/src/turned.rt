//! What one turn answers.

/// What a turn did.
#[derive(Clone, Copy, Debug, PartialEq, Eq)]
pub enum Turned {
    /// Something.
    Did,
    /// Nothing; there may be something to do later.
    Idle,
    /// There is nothing more to do.
    Over,
}
