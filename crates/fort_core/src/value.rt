//! Values and closures.
ghost use Rattle.std.specs.Prelude.{◌≡◌, [], IfOk};

use crate::release::{drop_held, drop_values};
use crate::term::Term;
use fort_base::{Bytes, List, Loc, Memory, Shared, Ty, TypeId};
use std::alloc::Global;

/// What a variable, a field, an element or a finished term has.
///
/// The unit value `()` is the tuple of no parts; no tuple has one part. Values are closed: no
/// variable of an enclosing term stands in them. What is large in a value may belong to other
/// values too, in any threads.
#[cycle(core)]
pub enum Value {
    /// A ZZ32.
    Small(i32),
    /// A ZZ64.
    Large(i64),
    /// A Boolean.
    Truth(bool),
    /// A String, in UTF-8.
    Text(Shared<Bytes>),
    Tuple(Shared<List<Value>>),
    /// A Range: its first number and how many there are.
    Range(i32, u64),
    /// An object: its type, and its base, the first of its locations.
    Object(TypeId, Loc),
    /// An array: the type of its elements, its base, and how many there are.
    Array(Shared<Ty>, Loc, u64),
    /// A function: nothing but its parameters and what it holds is needed to run its body.
    Function(Shared<Closure>),
}

/// A function term, or a function once it holds the values of all variables round it.
#[cycle(core)]
pub struct Closure {
    /// The number of the `fn` in its program, by its place in the source: two that are written
    /// alike at two places differ by it.
    pub number: u32,
    /// The variables of the parameters, with their types. With other than one parameter the
    /// function takes the tuple of their values.
    pub parameters: Shared<List<(u32, Ty)>>,
    /// The type of the body.
    pub result: Shared<Ty>,
    /// The body, as it is written but for the locations of mutable variables.
    pub body: Shared<Term>,
    /// The values of immutable variables from round the function that stand in the body, each
    /// variable once, in the order of their numbers.
    pub held: List<(u32, Value)>,
}

impl Drop for Value {
    #[cycle(core)]
    fn drop(self) {
        match self {
            Value::Small(_) => {}
            Value::Large(_) => {}
            Value::Truth(_) => {}
            Value::Text(_) => {}
            Value::Tuple(parts) => {
                if let Some(parts) = parts.last() {
                    drop_values(parts);
                }
            }
            Value::Range(_, _) => {}
            Value::Object(_, _) => {}
            Value::Array(_, _, _) => {}
            Value::Function(closure) => {
                let _closure = closure.last();
            }
        }
    }
}

impl Drop for Closure {
    #[cycle(core)]
    fn drop(self) {
        let Closure {
            number: _,
            parameters: _,
            result: _,
            body,
            held,
        } = self;
        let _body = body.last();
        drop_held(held);
    }
}

impl Value {
    /// The value `()`, or want of memory.
    pub fn unit(alloc: Global) -> Result<Value, Memory>
        ensures { IfOk result (λ unit. unit ≡ Value.Tuple []) }
    {
        Ok(Value::Tuple(Shared::new(alloc, List::new(alloc))?))
    }
}
