//! Powers.
ghost use Rattle.std.specs.Prelude.{◌≡◌, ◌≤◌, pos, negsuc, unsigned_abs};
ghost use Rattle.std.specs.Int.{w64, int_pow};
ghost use Rattle.fort_machine.specs.Numbers.{number, within, power as power_of};
ghost use Rattle.fort_prim.specs.Outcomes.{figure};

use crate::outcome::Outcome;

/// `a^b` on ZZ64: 0 to the 0 is 1, and a `b` below 0 gives none. It takes at most 64 rounds. The
/// chapter "Built-in declarations".
pub fn power(a: i64, b: i64) -> Outcome
    ensures { figure result ≡ within w64 (power_of a b) }
{
    if b < 0 {
        Outcome::BelowZero
    } else {
        natural_power(a, b as u64)
    }
}

#[tactic(auto, using(crate::proofs::PowerLaws::one_power))]
fn natural_power(a: i64, exponent: u64) -> Outcome
    ensures { figure result ≡ within w64 (number (int_pow a exponent)) }
{
    match a {
        0 => Outcome::Number(power_of_zero(exponent)),
        1 => Outcome::Number(1),
        -1 => Outcome::Number(power_of_minus_one(exponent)),
        _ => steep_power(a, exponent),
    }
}

#[tactic(auto, using(crate::proofs::PowerLaws::zero_power))]
fn power_of_zero(exponent: u64) -> i64
    ensures { result ≡ int_pow (pos 0) exponent }
{
    if exponent == 0 { 1 } else { 0 }
}

#[tactic(auto, using(crate::proofs::PowerLaws::one_power))]
fn power_of_minus_one(exponent: u64) -> i64
    ensures { result ≡ int_pow (negsuc 0) exponent }
{
    if exponent % 2 == 0 { 1 } else { -1 }
}

// A power of a number other than 0, 1 and -1: it is too large from 2 to the 64 on.
fn steep_power(a: i64, exponent: u64) -> Outcome
    requires { 2 ≤ unsigned_abs a }
    ensures { figure result ≡ within w64 (number (int_pow a exponent)) }
{
    if 63 < exponent {
        return Outcome::TooLarge;
    }
    match a.checked_pow(exponent as u32) {
        Some(number) => Outcome::Number(number),
        None => Outcome::TooLarge,
    }
}
