//! The form of each part of a tree, made of the forms that stand in it and lie on a stack.
#![tactic(auto)]

mod blocks;
mod expressions;
mod flats;
mod items;
mod taking;

pub use blocks::{block, delimited};
pub use expressions::expression;
pub use flats::{atom, group, postfix, run, unit};
pub use taking::take;
