//! The forms of a component.
use crate::form::{Form, Parameter};
use fort_base::{List, NameId, Place, Ty, TypeId};

/// The forms of a component: all that the rules of typing are asked of.
#[derive(Drop)]
pub struct Forms {
    /// The place of the component's name.
    pub name: Place,
    /// The initials of the variables at the top and of the fields in the bodies of objects, in the
    /// order of their places.
    pub initials: List<InitialForm>,
    /// The functions and the methods that have a body, in the order of their places.
    pub bodies: List<BodyForm>,
}

/// `x: T = e` at the top or in the body of an object: the field's object, the name, T, and e.
#[derive(Drop)]
pub struct InitialForm {
    pub owner: Option<TypeId>,
    pub name: NameId,
    pub ty: Ty,
    pub value: Form,
}

/// A function or a method with its body.
#[derive(Drop)]
pub struct BodyForm {
    /// The place of the declaration's first token, by which its set has it.
    pub place: Place,
    /// The type in whose declaration it stands, where it is a method.
    pub owner: Option<TypeId>,
    /// The parameters that have names, `self` aside, in their order.
    pub parameters: List<Parameter>,
    /// Which parameter of the declaration is the receiver or `self`, counted from 0, where it is a
    /// method.
    pub receiver: Option<u32>,
    /// The written result.
    pub result: Ty,
    pub body: Form,
}
