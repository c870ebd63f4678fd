//! What a walk over typed forms is still to do.
use crate::build::Build;
use fort_base::{Boxed, NameId, SetId, Ty};
use fort_form::Parameter;
use fort_form_typed::{Chosen, TypedForm};

/// What a row of forms is.
#[derive(Clone, Copy)]
pub enum Row<'a> {
    /// Forms whose terms go to the last list.
    List,
    /// Items of a block.
    Items,
    /// Sides of a chain: the set that joins its comparisons, their calls, and how many sides come
    /// before; these have the newest numbers.
    Sides(SetId, &'a [Chosen], usize),
}

/// What is asked of each test of an `if` or a `case`.
#[derive(Clone, Copy)]
pub enum Test<'a> {
    /// Whether it is true.
    True,
    /// Whether the variable of the newest number is equal to it, by these calls.
    Equal(&'a [Chosen]),
}

/// What a walk is still to do. Of a form its term comes on top.
#[derive(Clone, Copy)]
pub enum Task<'a> {
    /// A form.
    See(&'a TypedForm),
    /// Forms one after another.
    Row(Row<'a>, &'a [TypedForm]),
    /// Generators with their sources, and the body.
    Loops(&'a [(NameId, bool)], &'a [TypedForm], &'a TypedForm),
    /// Tests, what each gives, and the `else`.
    Tests(Test<'a>, &'a [TypedForm], &'a [TypedForm], &'a Option<Boxed<TypedForm>>),
    /// A list begins.
    Open,
    /// The last term goes to the last list.
    Gather,
    /// A variable without a name has the next number.
    Number,
    /// A function has the next number.
    Function,
    /// The number of a name in scope becomes the newest.
    Find(NameId),
    /// A name comes into scope.
    Name(NameId),
    /// Names come into scope; the newest number is that of the first.
    Names(&'a [(NameId, Ty)]),
    /// The same of parameters.
    Parameters(&'a [Parameter]),
    /// So many names go out of scope.
    Leave(usize),
    /// A term is built of the last finished ones.
    Build(Build<'a>),
}
