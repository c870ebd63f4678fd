//! The rows of a program's sets.
use fort_base::{DeclId, List};
use fort_core::Program;

/// What `pick` asks of a program: the program, and for each set of it, by its number, its
/// declarations, a more specific one before those that are above it.
#[derive(Drop)]
pub struct Tables<'a> {
    pub program: &'a Program,
    pub rows: List<List<DeclId>>,
}
