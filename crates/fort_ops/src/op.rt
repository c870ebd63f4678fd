/// An operator. Each variant's comment is its spellings, the ASCII one first.
#[derive(Clone, Copy, Debug, PartialEq, Eq)]
pub enum Op {
    /// No spelling: two units side by side, with a gap between them.
    Juxt,
    /// `TIMES`, `×`
    Times,
    /// `DOT`, `·`
    Dot,
    /// `DIV`
    Div,
    /// `REM`
    Rem,
    /// `MOD`
    Mod,
    /// `MAX`
    Max,
    /// `MIN`
    Min,
    /// `GCD`
    Gcd,
    /// `LCM`
    Lcm,
    /// `+`
    Plus,
    /// `-`, between units and before one
    Minus,
    /// `BITAND`
    BitAnd,
    /// `BITOR`
    BitOr,
    /// `BITXOR`
    BitXor,
    /// `LSHIFT`
    LShift,
    /// `RSHIFT`
    RShift,
    /// `:`
    Range,
    /// `#`
    Count,
    /// `=`
    Eq,
    /// `=/=`, `≠`
    Ne,
    /// `<`
    Lt,
    /// `<=`, `≤`
    Le,
    /// `>`
    Gt,
    /// `>=`, `≥`
    Ge,
    /// `===`, `≡`
    Same,
    /// `AND`, `∧`
    And,
    /// `OR`, `∨`
    Or,
    /// `NOT`, `¬`
    Not,
    /// `^`
    Power,
    /// An operator word, by the number of its name, whose spelling it has.
    Word(u32),
}

/// Which way a relational operator points.
#[derive(Clone, Copy, Debug, PartialEq, Eq)]
pub enum Sense {
    /// `=` and `===`
    Equal,
    /// `=/=`
    Unequal,
    /// `<` and `<=`
    Rising,
    /// `>` and `>=`
    Falling,
    /// Every operator that is not relational.
    Other,
}
