//! What built-in declarations do, those on ZZ32 and on ZZ64 alike.

/// An operator on two numbers whose result doesn't ask how wide they are.
#[derive(Clone, Copy, Debug, PartialEq, Eq)]
pub(crate) enum Operator {
    Add,
    Subtract,
    Times,
    Max,
    Min,
    Divide,
    Remainder,
    Modulo,
    Gcd,
    Lcm,
    Power,
}

/// An operator on two numbers that goes by how many bits they have.
#[derive(Clone, Copy, Debug, PartialEq, Eq)]
pub(crate) enum BitOperator {
    And,
    Or,
    Xor,
    ShiftLeft,
    ShiftRight,
}

/// A comparison of two numbers.
#[derive(Clone, Copy, Debug, PartialEq, Eq)]
pub(crate) enum Test {
    Equal,
    Unequal,
    Less,
    AtMost,
    Greater,
    AtLeast,
}

/// An operator on two truths.
#[derive(Clone, Copy, Debug, PartialEq, Eq)]
pub(crate) enum Connective {
    Equal,
    Unequal,
    And,
    Or,
}

/// What a built-in declaration does with its arguments.
#[derive(Clone, Copy, Debug, PartialEq, Eq)]
pub(crate) enum Operation {
    /// An operator on two ZZ32, and on two ZZ64.
    Small(Operator),
    Large(Operator),
    /// An operator on the bits of two ZZ32, and of two ZZ64.
    SmallBits(BitOperator),
    LargeBits(BitOperator),
    /// `-a` on ZZ32, and on ZZ64.
    NegateSmall,
    NegateLarge,
    /// A comparison of two ZZ32, and of two ZZ64.
    SmallTest(Test),
    LargeTest(Test),
    /// Whether it is true, or false, that two texts are equal.
    TextsEqual(bool),
    /// An operator on two truths.
    Truths(Connective),
    /// `NOT a`
    Not,
    /// `a ≡ b` on Any
    Same,
    /// `a : b`
    RangeTo,
    /// `a # n`
    RangeCount,
    /// The text of two values, the second after the first.
    Join,
    /// `println(a)`
    Println,
    /// `print(a)`
    Print,
    /// `abort()`
    Abort,
    /// `widen(a)`
    Widen,
    /// `narrow(a)`
    Narrow,
    /// `length(a)`
    Length,
}
