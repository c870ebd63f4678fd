//! Legs of a form of a program, made by the workers of a hall. The chapter "Books" of
//! docs/THREADS.md.
#![tactic(auto)]

mod legs;

pub use legs::{Assignment, Crew, HallForm, HallLegs, legs_by};
