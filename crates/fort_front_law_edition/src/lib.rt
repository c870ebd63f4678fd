//! A law: what edition 1 accepts is accepted with the same program.
#![tactic(auto)]

mod laws;

pub use laws::edition_one_files_are_kept;
