//! Canonical text has the same tree: the law that joins showing a file and reading it again.
#![tactic(auto)]

mod laws;

pub use laws::reading_again_gives_the_same_tree;
