//! A hall of workers: what they share, and what one of them does in a turn. The chapter "The hall"
//! of docs/THREADS.md.
#![tactic(auto)]

mod attempt;
mod board;
mod calls;
mod decks;
mod hall;
mod lent;
mod open;
mod outcome;
mod rooted;
pub mod seat;
mod seek;
mod shelf;
mod turn;
mod worker;

pub use attempt::{Attempt, Due};
pub use board::Board;
pub use decks::{Own, Victim};
pub use hall::{Hall, ROOT};
pub use lent::{Back, Lent, Sound};
pub use outcome::{Offer, Outcome};
pub use rooted::Rooted;
pub use seat::Seat;
pub use shelf::{Answer, Shelf};
pub use worker::{Looks, Worker};
