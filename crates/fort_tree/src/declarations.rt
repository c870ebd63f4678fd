//! The trees of declarations.
use crate::expr::Expr;
use crate::spot::{Name, NextName, Sign, Spot};
use crate::types::TypeTree;
use fort_base::{Bytes, List};

/// `Component = "component" Name ["export" Name] (Decl by Sep) "end"`
#[derive(Drop)]
pub struct Component {
    pub component: Spot,
    pub name: Name,
    pub export: Option<Export>,
    pub declarations: List<Declared>,
    pub end: Spot,
    /// Each name and each operator word of the component's token list once, as UTF-8.
    pub names: List<Bytes>,
    /// What each text of the component's token list says, as UTF-8.
    pub texts: List<Bytes>,
}

/// `"export" Name`; the name must be `Executable`.
#[derive(Clone, Copy, Debug, PartialEq, Eq)]
pub struct Export {
    pub export: Spot,
    pub name: Name,
}

/// A declaration, and the `;` directly after it, where there is one.
#[derive(Drop)]
pub struct Declared {
    pub declaration: Declaration,
    pub semicolon: Option<Spot>,
}

/// `Decl = Var | Fn | Trait | Object`
#[derive(Drop)]
pub enum Declaration {
    /// `Var`
    Variable(Variable),
    /// `Fn`
    Function(Function),
    /// `Trait`
    Trait(Trait),
    /// `Object`
    Object(Object),
}

/// `Var = ["var"] Name ":" Type ("=" | ":=") Expr`
#[cycle(tree)]
#[derive(Drop)]
pub struct Variable {
    pub var: Option<Spot>,
    pub name: Name,
    pub colon: Spot,
    pub ty: TypeTree,
    pub sign: InitialSign,
    pub value: Expr,
}

/// The sign before the initial of a variable.
#[derive(Clone, Copy, Debug, PartialEq, Eq)]
pub enum InitialSign {
    /// `"="`
    Equals(Spot),
    /// `":="`
    Becomes(Spot),
}

/// `Fn = (Name | "opr" OpName) "(" [Param ("," Param)*] ")" ":" Type "=" Expr`
#[derive(Drop)]
pub struct Function {
    pub name: FunctionName,
    pub left: Spot,
    pub parameters: Option<Parameters>,
    pub right: Spot,
    pub colon: Spot,
    pub result: TypeTree,
    pub equals: Spot,
    pub body: Expr,
}

/// `Name | "opr" OpName`
#[derive(Clone, Copy, Debug, PartialEq, Eq)]
pub enum FunctionName {
    /// `Name`
    Name(Name),
    /// `"opr" OpName`, where it is an operator: one that is infix, or `^`, with two parameters, or
    /// `-` or `NOT` with one.
    Operator(Spot, Sign),
    /// `"opr" OpName`, where it is the name `juxtaposition`, with two parameters.
    Juxtaposition(Spot, Name),
}

/// `Param ("," Param)*`
#[derive(Drop)]
pub struct Parameters {
    pub first: Parameter,
    pub others: List<NextParameter>,
}

/// `"," Param`, a further parameter.
#[derive(Drop)]
pub struct NextParameter {
    pub comma: Spot,
    pub parameter: Parameter,
}

/// `Param = Name ":" Type`
#[derive(Drop)]
pub struct Parameter {
    pub name: Name,
    pub colon: Spot,
    pub ty: TypeTree,
}

/// `Trait = "trait" Name [Ext] [Exc] [Com] (TMember by Sep) "end"`
#[derive(Drop)]
pub struct Trait {
    pub trait_: Spot,
    pub name: Name,
    pub extends: Option<Extends>,
    pub excludes: Option<Excludes>,
    pub comprises: Option<Comprises>,
    pub members: List<TraitEntry>,
    pub end: Spot,
}

/// `Object = "object" Name ["(" [OParam ("," OParam)*] ")"] [Ext] (OMember by Sep) "end"`
#[derive(Drop)]
pub struct Object {
    pub object: Spot,
    pub name: Name,
    pub parameters: Option<ObjectParameters>,
    pub extends: Option<Extends>,
    pub members: List<ObjectEntry>,
    pub end: Spot,
}

/// `Ext = "extends" Names`
#[derive(Drop)]
pub struct Extends {
    pub extends: Spot,
    pub names: Names,
}

/// `Exc = "excludes" Names`
#[derive(Drop)]
pub struct Excludes {
    pub excludes: Spot,
    pub names: Names,
}

/// `Com = "comprises" Names`
#[derive(Drop)]
pub struct Comprises {
    pub comprises: Spot,
    pub names: Names,
}

/// `Names = Name | "{" Name ("," Name)* "}"`
#[derive(Drop)]
pub enum Names {
    /// `Name`
    One(Name),
    /// `"{" Name ("," Name)* "}"`
    Braces {
        left: Spot,
        first: Name,
        others: List<NextName>,
        right: Spot,
    },
}

/// `"(" [OParam ("," OParam)*] ")"`
#[derive(Drop)]
pub struct ObjectParameters {
    pub left: Spot,
    pub parameters: Option<ObjectParameterList>,
    pub right: Spot,
}

/// `OParam ("," OParam)*`
#[derive(Drop)]
pub struct ObjectParameterList {
    pub first: ObjectParameter,
    pub others: List<NextObjectParameter>,
}

/// `"," OParam`, a further parameter of an object.
#[derive(Drop)]
pub struct NextObjectParameter {
    pub comma: Spot,
    pub parameter: ObjectParameter,
}

/// `OParam = ["var"] Name ":" Type`
#[derive(Drop)]
pub struct ObjectParameter {
    pub var: Option<Spot>,
    pub name: Name,
    pub colon: Spot,
    pub ty: TypeTree,
}

/// A member of a trait, and the `;` directly after it, where there is one.
#[derive(Drop)]
pub struct TraitEntry {
    pub member: TraitMember,
    pub semicolon: Option<Spot>,
}

/// `TMember = Name ":" Type | Method`
#[derive(Drop)]
pub enum TraitMember {
    /// `Name ":" Type`
    Field {
        name: Name,
        colon: Spot,
        ty: TypeTree,
    },
    /// `Method`
    Method(Method),
}

/// A member of an object, and the `;` directly after it, where there is one.
#[derive(Drop)]
pub struct ObjectEntry {
    pub member: ObjectMember,
    pub semicolon: Option<Spot>,
}

/// `OMember = Var | Method`
#[derive(Drop)]
pub enum ObjectMember {
    /// `Var`
    Variable(Variable),
    /// `Method`; it has a body.
    Method(Method),
}

/// `Method = (Name | "opr" OpName) "(" [MParam ("," MParam)*] ")" ":" Type ["=" Expr]`
///
/// One parameter at most is `self`, and one of a method with `opr` is.
#[derive(Drop)]
pub struct Method {
    pub name: FunctionName,
    pub left: Spot,
    pub parameters: Option<MethodParameters>,
    pub right: Spot,
    pub colon: Spot,
    pub result: TypeTree,
    pub body: Option<MethodBody>,
}

/// `"=" Expr`
#[derive(Drop)]
pub struct MethodBody {
    pub equals: Spot,
    pub body: Expr,
}

/// `MParam ("," MParam)*`
#[derive(Drop)]
pub struct MethodParameters {
    pub first: MethodParameter,
    pub others: List<NextMethodParameter>,
}

/// `"," MParam`, a further parameter of a method.
#[derive(Drop)]
pub struct NextMethodParameter {
    pub comma: Spot,
    pub parameter: MethodParameter,
}

/// `MParam = Param | "self"`
#[derive(Drop)]
pub enum MethodParameter {
    /// `Param`
    Parameter(Parameter),
    /// `"self"`
    Self_(Spot),
}
