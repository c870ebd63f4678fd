//! The trees of types.
use crate::spot::{Name, Spot};
use fort_base::{Boxed, List};

/// `Type = Simple ["->" Simple]`
#[cycle(types)]
#[derive(Drop)]
pub enum TypeTree {
    /// `Simple`
    Simple(SimpleType),
    /// `Simple "->" Simple`
    Arrow(SimpleType, Spot, SimpleType),
}

/// `Simple = Name | "Array" "[\" Type "," "ZZ32" "\]" | "(" [Type ("," Type)*] ")"`
#[cycle(types)]
#[derive(Drop)]
pub enum SimpleType {
    /// `Name`
    Named(Name),
    /// `"Array" "[\" Type "," "ZZ32" "\]"`; the two names must be `Array` and `ZZ32`.
    Array {
        array: Name,
        left: Spot,
        element: Boxed<TypeTree>,
        comma: Spot,
        index: Name,
        right: Spot,
    },
    /// `"(" [Type ("," Type)*] ")"`; of one part it is that part, of none it is the type of `()`.
    Parts {
        left: Spot,
        parts: Option<TypeList>,
        right: Spot,
    },
}

/// `Type ("," Type)*`
#[cycle(types)]
#[derive(Drop)]
pub struct TypeList {
    pub first: Boxed<TypeTree>,
    pub others: List<NextType>,
}

/// `"," Type`, a further type of a list.
#[cycle(types)]
#[derive(Drop)]
pub struct NextType {
    pub comma: Spot,
    pub ty: TypeTree,
}
