//! What a component declares, as the later checks want it.
use crate::field::Field;
use fort_base::{Bytes, List, Place, Ty, TypeId};

/// The members of a component.
#[derive(Drop)]
pub struct Members {
    /// The place of the name of each type, by the types' numbers; `None` for a built-in one.
    pub places: List<Option<Place>>,
    /// Whether each type is an object or a leaf, by the types' numbers, so that the overload rules
    /// need no tree.
    pub objects: List<bool>,
    /// The fields of each type, by the types' numbers: the ones that it declares in their order,
    /// and behind them inherited ones.
    pub fields: List<List<Field>>,
    /// All overload sets, in the order of their first declarations, built-in ones first.
    pub sets: List<MemberSet>,
    /// The variables at the top, in source order.
    pub variables: List<Field>,
}

/// An overload set: all declarations of one name, kind and number of parameters.
#[derive(Drop)]
pub struct MemberSet {
    /// The name of the function or method, or the first spelling of the operator, as UTF-8.
    pub name: Bytes,
    /// Whether these are dotted methods.
    pub dotted: bool,
    /// The declarations: built-in ones, then the component's in source order. There is at least
    /// one.
    pub members: List<Member>,
}

/// A declaration of an overload set.
#[derive(Drop)]
pub struct Member {
    /// The place of its first token; `None` for a built-in one. A constructor's is that of the
    /// object's name.
    pub place: Option<Place>,
    /// The types of its parameters; a dotted method's receiver is the first.
    pub parameters: List<Ty>,
    pub result: Ty,
    /// The position of `self` or of the receiver, counted from 0, with its type; `None` where it is
    /// no method.
    pub owner: Option<(u32, TypeId)>,
    pub kind: MemberKind,
}

/// What a declaration is.
#[derive(Clone, Copy, Debug, PartialEq, Eq)]
pub enum MemberKind {
    /// A built-in declaration.
    BuiltIn,
    /// The constructor of an object.
    Constructor(TypeId),
    /// A function, or a method with a body.
    Concrete,
    /// A method without a body.
    Abstract,
}
