//! The judge of typing: what each form answers, as it is computed form by form, and how far a
//! form's parts have come.
#![tactic(auto)]

mod frame;

pub use frame::{Frame, Made, Outcome, Side, Slot, Valued, Want};
