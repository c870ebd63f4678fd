//! What an operator on numbers gives.
ghost use Rattle.std.specs.Prelude.{◌≡◌, pos};
ghost use Rattle.std.specs.Int.{w64};
ghost use Rattle.fort_machine.specs.Numbers.{number, within};
ghost use Rattle.fort_prim.specs.Outcomes.{figure};

/// What an operator on numbers gives: a number of its type, or why it gives none. The chapter
/// "Built-in declarations".
#[derive(Clone, Copy, Debug, PartialEq, Eq)]
pub enum Outcome {
    Number(i64),
    /// The number isn't in its type's range.
    TooLarge,
    /// The divisor is 0.
    ByZero,
    /// The exponent is below 0.
    BelowZero,
}

/// A number that isn't negative, where a ZZ64 can be it.
pub(crate) fn natural(n: u64) -> Outcome
    ensures { figure result ≡ within w64 (number (pos n)) }
{
    match i64::try_from(n) {
        Ok(number) => Outcome::Number(number),
        Err(_) => Outcome::TooLarge,
    }
}

/// A number of twice the width, where a ZZ64 can be it.
pub(crate) fn narrowed(n: i128) -> Outcome
    ensures { figure result ≡ within w64 (number n) }
{
    match i64::try_from(n) {
        Ok(number) => Outcome::Number(number),
        Err(_) => Outcome::TooLarge,
    }
}
