//! The top call: from the words and the file's bytes to the status and the printed bytes.
#![tactic(auto)]

mod answer;
mod audit;
mod check;
mod deliver;
mod file;
mod laws;
mod link;
mod meant;
mod record;
mod reply;
mod run;
mod show;
mod top;

pub use top::{Finish, fortress};
