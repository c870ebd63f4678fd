//! Trees: what each token list of the language stands for, each with the place and the gap of its
//! tokens.
#![tactic(auto)]

mod declarations;
mod delimited;
mod expr;
mod grouped;
mod spot;
mod types;

pub use declarations::{
    Component, Comprises, Declaration, Declared, Excludes, Export, Extends, Function, FunctionName,
    InitialSign, Method, MethodBody, MethodParameter, MethodParameters, Names, NextMethodParameter,
    NextObjectParameter, NextParameter, Object, ObjectEntry, ObjectMember, ObjectParameter,
    ObjectParameterList, ObjectParameters, Parameter, Parameters, Trait, TraitEntry, TraitMember,
    Variable,
};
pub use delimited::{
    Also, Block, BlockItem, CaseClause, Catch, Delimited, Elif, ElseBlock, ElseClause, Finally,
    Item, NextGenerator, TypeClause,
};
pub use expr::{
    AssignSign, Atom, Big, Expr, ExprList, FillSpots, Flat, FlatPart, Generator, Head, NextExpr,
    Operand, Postfix, Prefix, Run, RunPart,
};
pub use grouped::{FlatGrouping, Grouped, Groups, Joint, Row};
pub use spot::{Name, NextName, Sign, Spot};
pub use types::{NextType, SimpleType, TypeList, TypeTree};
