//! The bank: a component of any size, written from two numbers.
#![tactic(auto)]

mod text;

pub use text::bank;
