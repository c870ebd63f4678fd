//! What a machine takes of the program of an accepted file: no run of it stops short of its end,
//! below goes through a third type, and what it throws is an object.
//!
//! Nothing is computed here. Each function names a law by its clause.
#![tactic(auto)]

mod laws;

pub use laws::{
    accepted_goes_through, accepted_has_text, accepted_never_stops, founded_goes_through,
    founded_never_stops,
};
