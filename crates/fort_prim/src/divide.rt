//! Quotients and what they leave.
ghost use Rattle.std.specs.Prelude.{◌≡◌, false};
ghost use Rattle.std.specs.Int.{w64};
ghost use Rattle.fort_machine.specs.Numbers.{within, quotient as quotient_of, remainder as remainder_of, modulus as modulus_of, same_sign as same_sign_of};
ghost use Rattle.fort_machine.specs.Numbers as numbers_;
ghost use Rattle.fort_prim.specs.Outcomes.{figure};

use crate::outcome::Outcome;

/// `a DIV b` on ZZ64: the quotient without its fraction. The chapter "Built-in declarations".
pub fn quotient(a: i64, b: i64) -> Outcome
    ensures { figure result ≡ within w64 (quotient_of a b) }
{
    if b == 0 {
        return Outcome::ByZero;
    }
    match a.checked_div(b) {
        Some(number) => Outcome::Number(number),
        None => Outcome::TooLarge,
    }
}

/// `a REM b` on ZZ64: what that quotient leaves, of the sign of `a` or 0. The chapter "Built-in
/// declarations".
pub fn remainder(a: i64, b: i64) -> Outcome
    ensures { figure result ≡ within w64 (remainder_of a b) }
{
    if b == 0 {
        return Outcome::ByZero;
    }
    Outcome::Number(a.wrapping_rem(b))
}

/// `a MOD b` on ZZ64: the remainder that is 0 or has the sign of `b`. The chapter "Built-in
/// declarations".
pub fn modulus(a: i64, b: i64) -> Outcome
    ensures { figure result ≡ within w64 (modulus_of a b) }
{
    if b == 0 {
        return Outcome::ByZero;
    }
    Outcome::Number(to_sign_of(b, a.wrapping_rem(b)))
}

// A remainder brought to the sign of the divisor, where it isn't 0.
fn to_sign_of(b: i64, rest: i64) -> i64
    ensures { result ≡ numbers_.to_sign_of b rest }
{
    if rest == 0 {
        0
    } else if same_sign(rest, b) {
        rest
    } else {
        rest + b
    }
}

// Whether two numbers, neither of them 0, are on one side of 0.
fn same_sign(a: i64, b: i64) -> bool
    ensures { result ≡ same_sign_of a b }
{
    if a < 0 { b < 0 } else { 0 < b }
}
