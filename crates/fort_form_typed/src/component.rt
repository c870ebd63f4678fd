//! A component's typed forms.
use crate::typed_form::TypedForm;
use fort_base::{List, NameId, Place, Ty, TypeId};
use fort_form::Parameter;

/// A component that keeps the rules of typing: what its translation goes by.
#[derive(Drop)]
pub struct Typed {
    /// The initials of the variables at the top and of the fields in the bodies of objects, each a
    /// constant, in the order of their places: the field's object, the name, the written type, and
    /// the constant.
    pub initials: List<(Option<TypeId>, NameId, Ty, TypedForm)>,
    /// The functions and the methods that have a body, in the order of their places.
    pub bodies: List<TypedBody>,
}

/// A function or a method with its body.
#[derive(Drop)]
pub struct TypedBody {
    /// The place of the declaration's first token, by which its set has it.
    pub place: Place,
    /// The parameters that have names, `self` aside, in their order.
    pub parameters: List<Parameter>,
    /// Which parameter of the declaration is the receiver or `self`, counted from 0, where it is a
    /// method.
    pub receiver: Option<u32>,
    pub body: TypedForm,
}
