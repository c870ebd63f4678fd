//! An accepted component, as the machine runs it. What is large in it is let go here, once for all
//! crates above.
use crate::primitive::Primitive;
use crate::term::Term;
use crate::value::Value;
use fort_base::{Bytes, DeclId, List, Loc, NameId, Shared, Ty, TypeId, TypeTable};

/// What makes values of a declared type.
#[derive(Clone, Copy, Debug, PartialEq, Eq)]
pub enum CoreKind {
    /// A trait: only the objects below it do.
    Trait,
    /// A built-in leaf: values of their own kind do, as numbers and texts.
    Leaf,
    /// An object with a parameter list: its constructor does.
    Object,
    /// An object without one: there is one value, whose locations begin here in the opening store.
    Single(Loc),
}

/// A field of a declared type.
pub struct CoreField {
    pub name: NameId,
    pub ty: Ty,
    pub mutable: bool,
    /// The constant of a field that stands in the body of an object; parameters and fields of
    /// traits have none.
    pub initial: Option<Value>,
}

impl Drop for CoreField {
    fn drop(self) {
        let CoreField {
            name: _,
            ty: _ty,
            mutable: _,
            initial: _initial,
        } = self;
    }
}

/// A declared type.
pub struct CoreShape {
    pub kind: CoreKind,
    /// Of an object the fields that it declares, in this order: its parameters, then the fields of
    /// its body; it has one location for each. Of a trait all its fields, inherited ones included.
    /// Of a leaf none.
    pub fields: List<CoreField>,
}

impl Drop for CoreShape {
    fn drop(self) {
        let CoreShape {
            kind: _,
            fields: _fields,
        } = self;
    }
}

/// An overload set, by its declarations.
#[derive(Drop)]
pub struct CoreSet {
    pub decls: List<DeclId>,
}

/// What a call of a declaration does.
#[derive(Drop)]
pub enum CoreBody {
    /// Goes on as this term, in which the i-th parameter, counted from 0, is the variable i.
    Plain(Shared<Term>),
    /// Gives the answer of a built-in declaration.
    Primitive(Primitive),
    /// Nothing: an abstract method.
    Abstract,
    /// Makes an object of this type, whose parameters are the arguments.
    New(TypeId),
}

/// A declaration that can be called; the receiver or `self` is one of the parameters.
pub struct CoreDecl {
    pub parameters: List<Ty>,
    pub result: Ty,
    pub body: CoreBody,
}

impl Drop for CoreDecl {
    fn drop(self) {
        let CoreDecl {
            parameters: _parameters,
            result: _result,
            body: _body,
        } = self;
    }
}

/// The numbers of the built-in types that values and steps name.
#[derive(Clone, Copy, Debug, PartialEq, Eq)]
pub struct BuiltIn {
    /// `Object`
    pub object: TypeId,
    /// `Exception`
    pub exception: TypeId,
    /// `ZZ32`
    pub small: TypeId,
    /// `ZZ64`
    pub large: TypeId,
    /// `String`
    pub text: TypeId,
    /// `Boolean`
    pub truth: TypeId,
    /// `Range`
    pub range: TypeId,
    /// `IntegerOverflow`
    pub integer_overflow: TypeId,
    /// `DivisionByZero`
    pub division_by_zero: TypeId,
    /// `NegativeExponent`
    pub negative_exponent: TypeId,
    /// `IndexOutOfRange`
    pub index_out_of_range: TypeId,
    /// `NegativeSize`
    pub negative_size: TypeId,
    /// `DepthExceeded`
    pub depth_exceeded: TypeId,
    /// `TryAtomicFailure`
    pub try_atomic_failure: TypeId,
    /// `AbortOutside`
    pub abort_outside: TypeId,
}

/// A program: its types, overload sets and declarations by number, its first term and its opening
/// store.
pub struct Program {
    /// Which declared types are below each other, and which are apart.
    pub types: TypeTable,
    /// The built-in types, by name.
    pub built_in: BuiltIn,
    /// The names of the declared types, by number.
    pub type_names: List<Bytes>,
    /// What each declared type is made of, by number.
    pub shapes: List<CoreShape>,
    /// The overload sets, by number.
    pub sets: List<CoreSet>,
    /// The declarations, by number.
    pub decls: List<CoreDecl>,
    /// The call of `run`.
    pub first: Shared<Term>,
    /// The top-level variables and the locations of the single objects, with their opening values.
    pub opening: List<(Loc, Value)>,
    /// The type of each of these locations, in the same order.
    pub opening_types: List<(Loc, Ty)>,
}

impl Drop for Program {
    fn drop(self) {
        let Program {
            types: _types,
            built_in: _,
            type_names: _type_names,
            shapes: _shapes,
            sets: _sets,
            decls: _decls,
            first: _first,
            opening: _opening,
            opening_types: _opening_types,
        } = self;
    }
}
