//! A field of a type, and a variable at the top.
ghost use Rattle.std.specs.Prelude.{◌≡◌, IfOk};

use fort_base::{Memory, NameId, Place, Ty};
use std::alloc::Global;

/// A field of a type, or a variable at the top of a component.
#[derive(Drop)]
pub struct Field {
    pub name: NameId,
    /// The place of its first token: of its `var`, where it has one, or else of its name.
    pub place: Place,
    pub ty: Ty,
    /// Whether it can be assigned to: whether `var` or `:=` makes it so. A trait's field can't be.
    pub mutable: bool,
}

impl Field {
    /// An equal field in memory of its own, or want of memory.
    pub fn copy(&self, alloc: Global) -> Result<Field, Memory>
        ensures { IfOk result (λ copy. copy ≡ self.now) }
    {
        Ok(Field {
            name: self.name,
            place: self.place,
            ty: self.ty.copy(alloc)?,
            mutable: self.mutable,
        })
    }
}
