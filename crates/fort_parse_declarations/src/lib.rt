//! Reading declarations and components, over expressions and types: the productions and the frame
//! of a component.
#![tactic(auto)]

mod declarations;
mod frame;
mod methods;
mod names;
mod parsed;
mod syntax;
mod values;

pub use frame::whole;
pub use parsed::Parsed;
