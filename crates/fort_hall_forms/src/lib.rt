//! Atomic forms in the parts of a book's term, at which attempts are opened: the first one that
//! doesn't sleep, what the part becomes by its attempt, and how that ends. The chapter "Books" of
//! docs/THREADS.md.
#![tactic(auto)]

mod after;
mod ended;
mod first;
mod form;
mod laws;

pub use after::after_form;
pub use ended::{Became, ended_at};
pub use first::first_form;
pub use form::AtForm;
pub use laws::part_of_run;
