//! What an operator on numbers answers, by what it gives.
ghost use Rattle.std.specs.Prelude.{◌≡◌};
ghost use Rattle.std.specs.Int.{w32};
ghost use Rattle.fort_machine.specs.Numbers.{within};
ghost use Rattle.fort_machine.specs.Numbers as numbers_;
ghost use Rattle.fort_machine.specs.Primitives.{as_value};
ghost use Rattle.fort_prim.specs.Outcomes.{figure};
ghost use Rattle.fort_prim.specs.Answers.{Replies};

use crate::answer::Answer;
use crate::outcome::Outcome;
use fort_core::{Program, Value};

/// The answer of an operator on ZZ64, by what it gives.
pub(crate) fn large_answer(program: &Program, outcome: Outcome) -> Answer
    ensures { Replies result (as_value program.now (λ n. Value.Large n) (figure outcome)) }
{
    match outcome {
        Outcome::Number(number) => Answer::Value(Value::Large(number)),
        Outcome::TooLarge => Answer::Throws(program.built_in.integer_overflow),
        Outcome::ByZero => Answer::Throws(program.built_in.division_by_zero),
        Outcome::BelowZero => Answer::Throws(program.built_in.negative_exponent),
    }
}

/// The answer of an operator on ZZ32, by what it gives before it is asked whether that is in range.
pub(crate) fn small_answer(program: &Program, outcome: Outcome) -> Answer
    ensures { Replies result
        (as_value program.now (λ n. Value.Small n) (within w32 (figure outcome))) }
{
    match outcome {
        Outcome::Number(number) => small_number(program, number),
        _ => large_answer(program, outcome),
    }
}

fn small_number(program: &Program, number: i64) -> Answer
    ensures { Replies result
        (as_value program.now (λ n. Value.Small n) (within w32 (numbers_.number number))) }
{
    match i32::try_from(number) {
        Ok(number) => Answer::Value(Value::Small(number)),
        Err(_) => Answer::Throws(program.built_in.integer_overflow),
    }
}
