//! One level of a pick, to take it apart. It lets itself go in its own way, so that no other crate
//! can match on one by value.
use crate::path::Path;
use crate::pick::Pick;
use fort_base::{List, Loc};

/// A pick whose parts can be taken; each variant is that of the pick.
#[derive(Drop)]
pub enum PickNode {
    Step(Path, Loc),
    Attempt(Path, List<Pick>),
}
