//! Operators on numbers, by name.
ghost use Rattle.std.specs.Prelude.{◌≡◌};
ghost use Rattle.std.specs.Int.{w32, w64};
ghost use Rattle.fort_machine.specs.Numbers.{within};
ghost use Rattle.fort_machine.specs.Numbers as numbers_;
ghost use Rattle.fort_prim.specs.Operations.{bits_of_type, connected as connected_of, figure_of, holds};
ghost use Rattle.fort_prim.specs.Outcomes.{figure};

use crate::divide::{modulus, quotient, remainder};
use crate::divisors::{greatest_divisor, least_multiple};
use crate::operation::{BitOperator, Connective, Operator, Test};
use crate::outcome::Outcome;
use crate::plain::{difference, greater, lesser, product, sum};
use crate::powers::power;
use crate::shift::{shifted_left, shifted_right};

/// An operator on two ZZ64.
pub(crate) fn computed(operator: Operator, a: i64, b: i64) -> Outcome
    ensures { figure result ≡ within w64 (figure_of operator a b) }
{
    match operator {
        Operator::Add => sum(a, b),
        Operator::Subtract => difference(a, b),
        Operator::Times => product(a, b),
        Operator::Max => greater(a, b),
        Operator::Min => lesser(a, b),
        Operator::Divide => quotient(a, b),
        Operator::Remainder => remainder(a, b),
        Operator::Modulo => modulus(a, b),
        Operator::Gcd => greatest_divisor(a, b),
        Operator::Lcm => least_multiple(a, b),
        Operator::Power => power(a, b),
    }
}

/// An operator on two ZZ32, before it is asked whether the number is one.
pub(crate) fn small_computed(operator: Operator, a: i32, b: i32) -> Outcome
    ensures { within w32 (figure result) ≡ within w32 (figure_of operator a b) }
{
    computed(operator, i64::from(a), i64::from(b))
}

/// An operator on the bits of two ZZ64.
pub(crate) fn large_bits(operator: BitOperator, a: i64, b: i64) -> Outcome
    ensures { figure result ≡ within w64 (bits_of_type w64 operator a b) }
{
    match operator {
        BitOperator::And => Outcome::Number(a & b),
        BitOperator::Or => Outcome::Number(a | b),
        BitOperator::Xor => Outcome::Number(a ^ b),
        BitOperator::ShiftLeft => shifted_left(a, b),
        BitOperator::ShiftRight => shifted_right(a, b),
    }
}

/// An operator on the bits of two ZZ32, before it is asked whether the number is one.
pub(crate) fn small_bits(operator: BitOperator, a: i32, b: i32) -> Outcome
    ensures { within w32 (figure result) ≡ within w32 (bits_of_type w32 operator a b) }
{
    match operator {
        BitOperator::And => Outcome::Number(i64::from(a & b)),
        BitOperator::Or => Outcome::Number(i64::from(a | b)),
        BitOperator::Xor => Outcome::Number(i64::from(a ^ b)),
        BitOperator::ShiftLeft => small_shifted_left(a, b),
        BitOperator::ShiftRight => small_shifted_right(a, b),
    }
}

#[tactic(auto, using(crate::proofs::Ranges::within_both))]
fn small_shifted_left(a: i32, b: i32) -> Outcome
    ensures { within w32 (figure result) ≡ within w32 (numbers_.shifted_left w32 a b) }
{
    if 31 < b {
        Outcome::TooLarge
    } else {
        shifted_left(i64::from(a), i64::from(b))
    }
}

#[tactic(auto, using(crate::proofs::Ranges::within_both))]
fn small_shifted_right(a: i32, b: i32) -> Outcome
    ensures { within w32 (figure result) ≡ within w32 (numbers_.shifted_right w32 a b) }
{
    if 31 < b {
        Outcome::TooLarge
    } else {
        shifted_right(i64::from(a), i64::from(b))
    }
}

/// Whether a comparison holds.
pub(crate) fn compared(test: Test, a: i64, b: i64) -> bool
    ensures { result ≡ holds test a b }
{
    match test {
        Test::Equal => a == b,
        Test::Unequal => a != b,
        Test::Less => a < b,
        Test::AtMost => a <= b,
        Test::Greater => a > b,
        Test::AtLeast => a >= b,
    }
}

/// An operator on two truths.
pub(crate) fn connected(connective: Connective, a: bool, b: bool) -> bool
    ensures { result ≡ connected_of connective a b }
{
    match connective {
        Connective::Equal => a == b,
        Connective::Unequal => a != b,
        Connective::And => a && b,
        Connective::Or => a || b,
    }
}
