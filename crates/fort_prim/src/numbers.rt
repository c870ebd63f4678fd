//! The built-in declarations on numbers. None where the arguments aren't numbers of the type.
ghost use Rattle.std.specs.Prelude.{◌≡◌, map};
ghost use Rattle.std.specs.Int.{w32, w64};
ghost use Rattle.fort_core.specs.declared.value.Value.{out-Value};
ghost use Rattle.fort_core.specs.declared.primitive.Primitive.TheVariants as primitive_;
ghost use Rattle.fort_machine.specs.Primitives.{answer_of, large as large_by, large_test as large_test_by, small as small_by, small_test as small_test_by};
ghost use Rattle.fort_core.specs.declared.program.Program.{Program};
ghost use Rattle.fort_prim.specs.Answers.{reply};
ghost use Rattle.fort_prim.specs.Operations.{bits_of_type, figure_of, holds};

use crate::answer::Answer;
use crate::arguments::{large_number, small_number, two_large_numbers, two_small_numbers};
use crate::computed::{compared, computed, large_bits, small_bits, small_computed};
use crate::counts::{count_to, counted};
use crate::operation::{BitOperator, Operator, Test};
use crate::outcome::Outcome;
use crate::plain::negated;
use crate::results::{large_answer, small_answer};
use fort_core::{Program, Value};

/// An operator on two ZZ32.
pub(crate) fn small(program: &Program, operator: Operator, arguments: &[Value]) -> Option<Answer>
    ensures { result
        ≡ reply (small_by program.now (figure_of operator) (map out-Value arguments.now)) }
{
    match two_small_numbers(arguments) {
        None => None,
        Some((a, b)) => {
            let outcome = small_computed(operator, a, b);
            Some(small_answer(program, outcome))
        }
    }
}

/// An operator on two ZZ64.
pub(crate) fn large(program: &Program, operator: Operator, arguments: &[Value]) -> Option<Answer>
    ensures { result
        ≡ reply (large_by program.now (figure_of operator) (map out-Value arguments.now)) }
{
    match two_large_numbers(arguments) {
        None => None,
        Some((a, b)) => {
            let outcome = computed(operator, a, b);
            Some(large_answer(program, outcome))
        }
    }
}

/// An operator on the bits of two ZZ32.
pub(crate) fn on_small_bits(
    program: &Program,
    operator: BitOperator,
    arguments: &[Value],
) -> Option<Answer>
    ensures { result
        ≡ reply (small_by program.now (bits_of_type w32 operator) (map out-Value arguments.now)) }
{
    match two_small_numbers(arguments) {
        None => None,
        Some((a, b)) => {
            let outcome = small_bits(operator, a, b);
            Some(small_answer(program, outcome))
        }
    }
}

/// An operator on the bits of two ZZ64.
pub(crate) fn on_large_bits(
    program: &Program,
    operator: BitOperator,
    arguments: &[Value],
) -> Option<Answer>
    ensures { result
        ≡ reply (large_by program.now (bits_of_type w64 operator) (map out-Value arguments.now)) }
{
    match two_large_numbers(arguments) {
        None => None,
        Some((a, b)) => {
            let outcome = large_bits(operator, a, b);
            Some(large_answer(program, outcome))
        }
    }
}

/// A comparison of two ZZ32.
pub(crate) fn small_test(test: Test, arguments: &[Value]) -> Option<Answer>
    ensures { (p : Program)
        → result ≡ reply (small_test_by (holds test) (map out-Value arguments.now)) }
{
    match two_small_numbers(arguments) {
        None => None,
        Some((a, b)) => {
            let holds = compared(test, i64::from(a), i64::from(b));
            Some(Answer::Value(Value::Truth(holds)))
        }
    }
}

/// A comparison of two ZZ64.
pub(crate) fn large_test(test: Test, arguments: &[Value]) -> Option<Answer>
    ensures { (p : Program)
        → result ≡ reply (large_test_by (holds test) (map out-Value arguments.now)) }
{
    match two_large_numbers(arguments) {
        None => None,
        Some((a, b)) => {
            let holds = compared(test, a, b);
            Some(Answer::Value(Value::Truth(holds)))
        }
    }
}

/// `-a` on ZZ32.
pub(crate) fn negate_small(program: &Program, arguments: &[Value]) -> Option<Answer>
    ensures { result ≡ reply (answer_of program.now primitive_.NegateSmall arguments.now) }
{
    match small_number(arguments) {
        None => None,
        Some(a) => {
            let outcome = negated(i64::from(a));
            Some(small_answer(program, outcome))
        }
    }
}

/// `-a` on ZZ64.
pub(crate) fn negate_large(program: &Program, arguments: &[Value]) -> Option<Answer>
    ensures { result ≡ reply (answer_of program.now primitive_.NegateLarge arguments.now) }
{
    match large_number(arguments) {
        None => None,
        Some(a) => {
            let outcome = negated(a);
            Some(large_answer(program, outcome))
        }
    }
}

/// `widen(a)`: the same number on ZZ64.
pub(crate) fn widen(arguments: &[Value]) -> Option<Answer>
    ensures { (p : Program) → result ≡ reply (answer_of p primitive_.Widen arguments.now) }
{
    match small_number(arguments) {
        None => None,
        Some(a) => Some(Answer::Value(Value::Large(i64::from(a)))),
    }
}

/// `narrow(a)`: the same number on ZZ32, where it is one.
pub(crate) fn narrow(program: &Program, arguments: &[Value]) -> Option<Answer>
    ensures { result ≡ reply (answer_of program.now primitive_.Narrow arguments.now) }
{
    match large_number(arguments) {
        None => None,
        Some(a) => Some(small_answer(program, Outcome::Number(a))),
    }
}

/// `a : b`: the numbers from a to b.
pub(crate) fn range_to(arguments: &[Value]) -> Option<Answer>
    ensures { (p : Program) → result ≡ reply (answer_of p primitive_.RangeTo arguments.now) }
{
    match two_small_numbers(arguments) {
        None => None,
        Some((a, b)) => Some(Answer::Value(Value::Range(a, count_to(a, b)))),
    }
}

/// `a # n`: n numbers from a on.
pub(crate) fn range_count(program: &Program, arguments: &[Value]) -> Option<Answer>
    ensures { result ≡ reply (answer_of program.now primitive_.RangeCount arguments.now) }
{
    match two_small_numbers(arguments) {
        None => None,
        Some((a, n)) => Some(counted(program, a, n)),
    }
}
