//! Sums, products, and the greater and the lesser of two.
ghost use Rattle.std.specs.Prelude.{◌≡◌, ◌+ℤ◌, ◌-ℤ◌, ◌*ℤ◌, neg_ℤ};
ghost use Rattle.std.specs.Int.{w64, int_max, int_min};
ghost use Rattle.fort_machine.specs.Numbers.{number, within};
ghost use Rattle.fort_prim.specs.Outcomes.{figure};

use crate::outcome::Outcome;

/// `a + b` on ZZ64. The chapter "Built-in declarations".
pub fn sum(a: i64, b: i64) -> Outcome
    ensures { figure result ≡ within w64 (number (a +ℤ b)) }
{
    match a.checked_add(b) {
        Some(number) => Outcome::Number(number),
        None => Outcome::TooLarge,
    }
}

/// `a - b` on ZZ64. The chapter "Built-in declarations".
pub fn difference(a: i64, b: i64) -> Outcome
    ensures { figure result ≡ within w64 (number (a -ℤ b)) }
{
    match a.checked_sub(b) {
        Some(number) => Outcome::Number(number),
        None => Outcome::TooLarge,
    }
}

/// `a × b` on ZZ64. The chapter "Built-in declarations".
pub fn product(a: i64, b: i64) -> Outcome
    ensures { figure result ≡ within w64 (number (a *ℤ b)) }
{
    match a.checked_mul(b) {
        Some(number) => Outcome::Number(number),
        None => Outcome::TooLarge,
    }
}

/// `-a` on ZZ64. The chapter "Built-in declarations".
pub fn negated(a: i64) -> Outcome
    ensures { figure result ≡ within w64 (number (neg_ℤ a)) }
{
    match a.checked_neg() {
        Some(number) => Outcome::Number(number),
        None => Outcome::TooLarge,
    }
}

/// `a MAX b` on ZZ64. The chapter "Built-in declarations".
pub fn greater(a: i64, b: i64) -> Outcome
    ensures { figure result ≡ within w64 (number (int_max a b)) }
{
    Outcome::Number(a.max(b))
}

/// `a MIN b` on ZZ64. The chapter "Built-in declarations".
pub fn lesser(a: i64, b: i64) -> Outcome
    ensures { figure result ≡ within w64 (number (int_min a b)) }
{
    Outcome::Number(a.min(b))
}
