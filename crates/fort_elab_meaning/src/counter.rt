//! The numbers that are next.

/// The number of the next variable of a declaration, and that of the next function of the program.
#[derive(Clone, Copy, Debug, PartialEq, Eq)]
pub struct Counter {
    pub variable: u32,
    pub function: u32,
}
