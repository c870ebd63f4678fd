//! What a run and the attempts in it have done to the store: cells of locations, in layers over the
//! store. The chapter "Store and effects" of docs/MACHINE.md.
#![tactic(auto)]

mod again;
mod append;
mod beside;
mod cell;
mod close;
mod layer;
mod layers;
mod make;
mod marks;

pub use cell::{Cell, Closing, Left};
pub use layer::Layer;
pub use layers::{Account, Layers};
