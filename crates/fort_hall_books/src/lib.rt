//! A book of legs, as the workers of a hall take them in: over fort_store_effects and the laws of
//! fort_hall_law_books. The chapter "Books" of docs/THREADS.md.
#![tactic(auto)]

mod book;
mod laws;
mod leg;
mod submit;

pub use book::{Book, Closed, Entry};
pub use laws::{book_grows, kept_is_book};
pub use leg::{Answer, Cause, Kind, Leg};
