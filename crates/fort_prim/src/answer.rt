//! What a built-in declaration answers.
use fort_base::{Bytes, TypeId};
use fort_core::Value;

/// What a built-in declaration answers. The chapter "Built-in declarations".
#[derive(Drop)]
pub enum Answer {
    /// A value that was there, a number, a truth or a range.
    Value(Value),
    /// A text that it makes, in UTF-8.
    Makes(Bytes),
    /// The throw of a built-in exception: of its one value.
    Throws(TypeId),
    /// A text that it prints, in UTF-8.
    Prints(Bytes),
    /// The end of its machine.
    Ends,
}
