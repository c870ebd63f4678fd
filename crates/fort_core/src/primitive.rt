//! The built-in declarations.

/// A built-in declaration. The first names end in `Small` for the declaration on ZZ32, in `Large`
/// for the one on ZZ64.
#[derive(Clone, Copy, Debug, PartialEq, Eq)]
pub enum Primitive {
    /// `a + b`
    AddSmall,
    AddLarge,
    /// `a - b`
    SubtractSmall,
    SubtractLarge,
    /// `a × b`
    TimesSmall,
    TimesLarge,
    /// `a · b`
    DotSmall,
    DotLarge,
    /// `a b`
    JuxtaposeSmall,
    JuxtaposeLarge,
    /// `a MAX b`
    MaxSmall,
    MaxLarge,
    /// `a MIN b`
    MinSmall,
    MinLarge,
    /// `-a`
    NegateSmall,
    NegateLarge,
    /// `a DIV b`, truncated
    DivideSmall,
    DivideLarge,
    /// `a REM b`, of the sign of `a` or 0
    RemainderSmall,
    RemainderLarge,
    /// `a MOD b`, of the sign of `b` or 0
    ModuloSmall,
    ModuloLarge,
    /// `a GCD b`
    GcdSmall,
    GcdLarge,
    /// `a LCM b`
    LcmSmall,
    LcmLarge,
    /// `a BITAND b`
    BitAndSmall,
    BitAndLarge,
    /// `a BITOR b`
    BitOrSmall,
    BitOrLarge,
    /// `a BITXOR b`
    BitXorSmall,
    BitXorLarge,
    /// `a LSHIFT b`
    ShiftLeftSmall,
    ShiftLeftLarge,
    /// `a RSHIFT b`
    ShiftRightSmall,
    ShiftRightLarge,
    /// `a^b`
    PowerSmall,
    PowerLarge,
    /// `a = b`
    EqualSmall,
    EqualLarge,
    /// `a ≠ b`
    UnequalSmall,
    UnequalLarge,
    /// `a < b`
    LessSmall,
    LessLarge,
    /// `a ≤ b`
    AtMostSmall,
    AtMostLarge,
    /// `a > b`
    GreaterSmall,
    GreaterLarge,
    /// `a ≥ b`
    AtLeastSmall,
    AtLeastLarge,
    /// `a = b` on String
    EqualTexts,
    /// `a ≠ b` on String
    UnequalTexts,
    /// `a = b` on Boolean
    EqualTruths,
    /// `a ≠ b` on Boolean
    UnequalTruths,
    /// `a ≡ b` on Any: the same value; two functions never are
    Same,
    /// `a AND b`
    And,
    /// `a OR b`
    Or,
    /// `NOT a`
    Not,
    /// `a : b` on ZZ32
    RangeTo,
    /// `a # n` on ZZ32
    RangeCount,
    /// `a b` on String and Any
    JoinTextAny,
    /// `a b` on Any and String
    JoinAnyText,
    /// `a b` on String and String
    JoinTexts,
    /// `println(a)`
    Println,
    /// `print(a)`
    Print,
    /// `abort()`
    Abort,
    /// `widen(a)`
    Widen,
    /// `narrow(a)`
    Narrow,
    /// `length(a)`
    Length,
}
