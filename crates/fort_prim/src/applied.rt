//! The answer of a built-in declaration.
ghost use Rattle.std.specs.Prelude.{◌≡◌, ◌≢◌, IfOk};
ghost use Rattle.fort_machine.specs.Primitives.{answer_of, nothing};
ghost use Rattle.fort_prim.specs.Answers.{Replies, reply};
ghost use Rattle.fort_prim.specs.Operations.{answer_by};

use crate::answer::Answer;
use crate::numbers::{
    large, large_test, narrow, negate_large, negate_small, on_large_bits, on_small_bits,
    range_count, range_to, small, small_test, widen,
};
use crate::operation::Operation;
use crate::table::operation;
use crate::words::{aborted, are_same, joined, length, line, negation, shown, texts_equal, truths};
use fort_base::Memory;
use fort_core::{Primitive, Program, Value};
use std::alloc::Global;

/// What a built-in declaration answers to values of its types. The chapter "Built-in declarations".
///
/// Its time is constant but for powers and common divisors, at most about a hundred rounds, and for
/// texts and `≡`, which is that of the values.
///
/// # Errors
///
/// `Memory` where memory is wanting.
pub fn apply(
    alloc: Global,
    program: &Program,
    primitive: Primitive,
    arguments: &[Value],
) -> Result<Answer, Memory>
    requires { answer_of program.now primitive arguments.now ≢ nothing }
    ensures { IfOk result
        (λ answer. Replies answer (answer_of program.now primitive arguments.now)) }
{
    match done(alloc, program, operation(primitive), arguments)? {
        Some(answer) => Ok(answer),
        None => unreachable!(),
    }
}

/// What a built-in declaration answers to any values, or `None` where they aren't as many as it
/// takes, or of other kinds than it computes with. The chapter "Built-in declarations". Its time is
/// that of `apply`.
///
/// # Errors
///
/// `Memory` where memory is wanting.
pub fn answered(
    alloc: Global,
    program: &Program,
    primitive: Primitive,
    arguments: &[Value],
) -> Result<Option<Answer>, Memory>
    ensures { IfOk result (λ answer. answer
        ≡ reply (answer_of program.now primitive arguments.now)) }
{
    let answer = done(alloc, program, operation(primitive), arguments)?;
    Ok(answer)
}

// What an operation answers; none where the arguments aren't of its types.
fn done(
    alloc: Global,
    program: &Program,
    operation: Operation,
    arguments: &[Value],
) -> Result<Option<Answer>, Memory>
    ensures { IfOk result (λ answer. answer
        ≡ reply (answer_by program.now operation arguments.now)) }
{
    match operation {
        Operation::Small(operator) => Ok(small(program, operator, arguments)),
        Operation::Large(operator) => Ok(large(program, operator, arguments)),
        Operation::SmallBits(operator) => Ok(on_small_bits(program, operator, arguments)),
        Operation::LargeBits(operator) => Ok(on_large_bits(program, operator, arguments)),
        Operation::NegateSmall => Ok(negate_small(program, arguments)),
        Operation::NegateLarge => Ok(negate_large(program, arguments)),
        Operation::SmallTest(test) => Ok(small_test(test, arguments)),
        Operation::LargeTest(test) => Ok(large_test(test, arguments)),
        Operation::TextsEqual(wanted) => Ok(texts_equal(wanted, arguments)),
        Operation::Truths(connective) => Ok(truths(connective, arguments)),
        Operation::Not => Ok(negation(arguments)),
        Operation::Same => Ok(are_same(arguments)),
        Operation::RangeTo => Ok(range_to(arguments)),
        Operation::RangeCount => Ok(range_count(program, arguments)),
        Operation::Join => joined(alloc, program, arguments),
        Operation::Println => line(alloc, program, arguments),
        Operation::Print => shown(alloc, program, arguments),
        Operation::Abort => Ok(aborted(arguments)),
        Operation::Widen => Ok(widen(arguments)),
        Operation::Narrow => Ok(narrow(program, arguments)),
        Operation::Length => Ok(length(program, arguments)),
    }
}
