//! What a form is, once its parts have been asked.
#![tactic(auto)]

mod branches;
mod closing;
mod copies;
mod frames;
mod leaves;
mod parts;
mod writes;

pub use closing::close;
