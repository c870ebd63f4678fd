//! Trees apart from places: what moving the places of a tree's tokens leaves as it was.
#![tactic(auto)]

mod laws;

pub use laws::moving_places_keeps_the_rest;
