//! What is given for all forms of a component.
use fort_base::{Bytes, SetId};
use fort_core::CoreShape;

/// What the translation of a form looks up of its component.
#[derive(Clone, Copy)]
pub struct Known<'a> {
    /// The component's texts, by their numbers.
    pub texts: &'a [Bytes],
    /// What each declared type is made of, by the types' numbers.
    pub shapes: &'a [CoreShape],
    /// The set of `widen`.
    pub widen: SetId,
}
