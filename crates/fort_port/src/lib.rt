//! The outside as three traits, whose contracts say what a program may rely on, and all that
//! implement them.
#![tactic(auto)]

mod calm;
mod gate;
mod memory;
mod pieces;
mod real;
mod shelf;
mod sink;

pub use calm::{CalmShelf, CalmSink};
pub use gate::{Gate, IdleGate, Point};
pub use memory::{MemoryShelf, MemorySink};
pub use real::{FileShelf, StreamSink};
pub use shelf::{Failed, Shelf};
pub use sink::Sink;
