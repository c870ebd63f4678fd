//! A name that is bound.
use fort_base::{NameId, Place, Ty};

/// What a name in scope stands for. The chapter "Names in scope".
#[derive(Drop)]
pub struct Binding {
    /// The name.
    pub name: NameId,
    /// Where it was bound.
    pub place: Place,
    /// The type of its values.
    pub ty: Ty,
    /// Whether it can be assigned to.
    pub mutable: bool,
}
