//! The machine of a form of a program, for a hall of workers: its books, tasks, legs and attempts,
//! over fort_hall_books and the legs of fort_walk_stretch. The chapter "Books" of docs/THREADS.md.
#![tactic(auto)]

mod advance;
mod attempt;
mod book;
mod depth;
mod lend;
mod machine;
mod state;
mod submit;
mod tasks;

pub use book::TaskBook;
pub use machine::{Naming, Setting, TermMachine};
pub use state::{State, TaskLeg, Waste};
