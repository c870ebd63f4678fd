//! Tests of the top call, and a gate at which two parts of a run meet: they begin their legs before
//! either goes on. The chapter "Legs" of docs/MACHINE.md.
#![tactic(auto)]

#[cfg(test)]
mod calls;
mod meeting;
#[cfg(test)]
mod tests;

pub use meeting::Meeting;
