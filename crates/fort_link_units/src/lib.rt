//! What a file is: a component with imports and exports, or an API.
#![tactic(auto)]

mod answer;
mod apis;
mod components;
mod heads;
mod laws;
mod limits;
mod openers;
mod places;
mod unit;

pub use answer::read_unit;
pub use laws::{never_both, one_unit};
pub use unit::{Api, ApiDeclaration, ApiDeclared, ComponentUnit, FunctionHead, Import, Unit};
