//! What is known of a component.
use crate::index::Index;
use fort_base::{Bytes, TypeId, TypeTable};

/// What is looked up of a component where its expressions are typed.
#[derive(Clone, Copy)]
pub struct Known<'a> {
    /// Which declared type is below which.
    pub table: &'a TypeTable,
    /// The component's names, by their numbers.
    pub names: &'a [Bytes],
    /// The names of its declared types, its fields, its overload sets and its variables at the top,
    /// with an index by name.
    pub index: &'a Index<'a>,
    /// The type in whose declaration the expressions stand, where they stand in one.
    pub owner: Option<TypeId>,
}
