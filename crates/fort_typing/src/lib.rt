//! Typing of a component: its typed forms, or its first broken rule of 601 to 614.
#![tactic(auto)]

mod constants;
mod declarations;
mod progress;
mod runs;
mod typing;

pub use typing::typed;
