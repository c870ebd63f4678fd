//! Forms: what the bodies and initials of a component say, without the tokens that they are written
//! with.
#![tactic(auto)]

mod component;
mod form;

pub use component::{BodyForm, Forms, InitialForm};
pub use form::{Branch, Form, Generator, Item, Parameter, Reduction, TypeBranch, Update};
