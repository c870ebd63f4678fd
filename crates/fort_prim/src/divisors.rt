//! Common divisors and multiples.
ghost use Rattle.std.specs.Prelude.{◌≡◌, ◌*◌};
ghost use Rattle.std.specs.Int.{w64, IsGcd};
ghost use Rattle.fort_machine.specs.Numbers.{within, greatest_divisor as greatest_divisor_of, least_multiple as least_multiple_of};
ghost use Rattle.fort_prim.specs.Outcomes.{figure};

use crate::outcome::{Outcome, natural};

/// `a GCD b` on ZZ64, which isn't negative; of 0 and 0 it is 0. The chapter "Built-in
/// declarations".
pub fn greatest_divisor(a: i64, b: i64) -> Outcome
    ensures { figure result ≡ within w64 (greatest_divisor_of a b) }
{
    natural(common_divisor(a.unsigned_abs(), b.unsigned_abs()))
}

/// `a LCM b` on ZZ64, which isn't negative; with a 0 it is 0. The chapter "Built-in declarations".
pub fn least_multiple(a: i64, b: i64) -> Outcome
    ensures { figure result ≡ within w64 (least_multiple_of a b) }
{
    let left = a.unsigned_abs();
    let right = b.unsigned_abs();
    let divisor = common_divisor(left, right);
    if divisor == 0 {
        return Outcome::Number(0);
    }
    match (left / divisor).checked_mul(right) {
        Some(multiple) => natural(multiple),
        None => Outcome::TooLarge,
    }
}

fn common_divisor(a: u64, b: u64) -> u64
    ensures { IsGcd a b result }
{
    let mut x = a;
    let mut y = b;
    while y != 0 {
        let rest = x % y;
        x = y;
        y = rest;
    }
    x
}
