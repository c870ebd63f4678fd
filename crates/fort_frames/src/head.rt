//! The parallel forms, without their parts.
use fort_base::SetId;

/// A parallel form, without its parts.
#[derive(Clone, Copy, Debug, PartialEq, Eq)]
pub enum Head {
    /// `(a, b)`
    Group,
    /// `f(a, b)`, its receiver among the arguments
    Call(SetId),
    /// `f a` of a function value: function and argument
    Apply,
    /// `do a also do b end`
    Also,
    /// Both halves of a divided `for`.
    ForHalves,
    /// Both halves of a divided reduction.
    ReduceHalves(SetId),
}
