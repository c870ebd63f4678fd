//! DeclaredType types, as a component writes them.
ghost use Rattle.std.specs.Prelude.{◌≡◌, ◌↔◌, IsTrue};
ghost use Rattle.fort_types.specs.declared.hierarchy.TypeKind.TheVariants as a_kind;

use fort_base::List;

/// What a declared type is.
#[derive(Clone, Copy, Debug, PartialEq, Eq)]
pub enum TypeKind {
    /// `trait`, and the built-in `Object` and `Exception`.
    Trait,
    /// `object`, and the built-in exceptions.
    Object,
    /// A built-in type that nothing extends, as `ZZ32`.
    Leaf,
}

/// A declared type: its kind, and the numbers of the declared types that its head names, each
/// number a place in the hierarchy.
///
/// A number past the hierarchy's end names no type and counts for nothing.
#[derive(Drop)]
pub struct DeclaredType {
    pub kind: TypeKind,
    /// `extends { .. }`
    pub extends: List<usize>,
    /// `excludes { .. }`
    pub excludes: List<usize>,
    /// `comprises { .. }`; no numbers where there is none.
    pub comprises: List<usize>,
}

impl TypeKind {
    /// Whether other types may extend the type.
    pub fn is_trait(self) -> bool
        ensures { IsTrue result ↔ (self ≡ a_kind.Trait) }
    {
        match self {
            TypeKind::Trait => true,
            TypeKind::Object | TypeKind::Leaf => false,
        }
    }
}
