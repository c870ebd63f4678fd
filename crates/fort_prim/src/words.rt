//! The built-in declarations on texts, truths and values of any kind. None where the arguments
//! aren't such.
ghost use Rattle.std.specs.Prelude.{◌≡◌, map, IfOk};
ghost use Rattle.fort_core.specs.declared.primitive.Primitive.TheVariants as primitive_;
ghost use Rattle.fort_machine.specs.Primitives.{answer_of};
ghost use Rattle.fort_core.specs.declared.program.Program.{Program};
ghost use Rattle.fort_prim.specs.Answers.{reply};
ghost use Rattle.fort_prim.specs.Operations.{answer_by};
ghost use Rattle.fort_prim.specs.declared.operation.Operation.TheVariants as operation_;

use crate::answer::Answer;
use crate::arguments::{both_texts, both_truths, both_values, single, single_text, truth};
use crate::computed::connected;
use crate::counts::length_of;
use crate::operation::Connective;
use crate::outcome::natural;
use crate::results::small_answer;
use fort_base::Memory;
use fort_core::{Program, Value};
use fort_value::{same, text};
use std::alloc::Global;

/// Whether it is as `wanted` that two texts are equal.
pub(crate) fn texts_equal(wanted: bool, arguments: &[Value]) -> Option<Answer>
    ensures { (p : Program)
        → result ≡ reply (answer_by p (operation_.TextsEqual wanted) arguments.now) }
{
    match both_texts(arguments) {
        None => None,
        Some((a, b)) => {
            let equal = a.as_slice() == b.as_slice();
            Some(Answer::Value(Value::Truth(equal == wanted)))
        }
    }
}

/// An operator on two truths.
pub(crate) fn truths(connective: Connective, arguments: &[Value]) -> Option<Answer>
    ensures { (p : Program)
        → result ≡ reply (answer_by p (operation_.Truths connective) arguments.now) }
{
    match both_truths(arguments) {
        None => None,
        Some((a, b)) => Some(Answer::Value(Value::Truth(connected(connective, a, b)))),
    }
}

/// `NOT a`
pub(crate) fn negation(arguments: &[Value]) -> Option<Answer>
    ensures { (p : Program) → result ≡ reply (answer_of p primitive_.Not arguments.now) }
{
    match truth(arguments) {
        None => None,
        Some(a) => Some(Answer::Value(Value::Truth(!a))),
    }
}

/// `a ≡ b` on Any.
pub(crate) fn are_same(arguments: &[Value]) -> Option<Answer>
    ensures { (p : Program) → result ≡ reply (answer_of p primitive_.Same arguments.now) }
{
    match both_values(arguments) {
        None => None,
        Some((a, b)) => Some(Answer::Value(Value::Truth(same(a, b)))),
    }
}

/// The text of two values, the second after the first.
pub(crate) fn joined(
    alloc: Global,
    program: &Program,
    arguments: &[Value],
) -> Result<Option<Answer>, Memory>
    ensures { IfOk result (λ answer. answer
        ≡ reply (answer_of program.now primitive_.JoinTexts arguments.now)) }
{
    match both_values(arguments) {
        None => Ok(None),
        Some((a, b)) => {
            let mut all = text(alloc, program, a)?;
            let more = text(alloc, program, b)?;
            all.append(more)?;
            Ok(Some(Answer::Makes(all)))
        }
    }
}

/// `println(a)`: the text of a value, with a line feed.
pub(crate) fn line(
    alloc: Global,
    program: &Program,
    arguments: &[Value],
) -> Result<Option<Answer>, Memory>
    ensures { IfOk result (λ answer. answer
        ≡ reply (answer_of program.now primitive_.Println arguments.now)) }
{
    match single(arguments) {
        None => Ok(None),
        Some(value) => {
            let mut line = text(alloc, program, value)?;
            line.push(b'\n')?;
            Ok(Some(Answer::Prints(line)))
        }
    }
}

/// `print(a)`: the text of a value.
pub(crate) fn shown(
    alloc: Global,
    program: &Program,
    arguments: &[Value],
) -> Result<Option<Answer>, Memory>
    ensures { IfOk result (λ answer. answer
        ≡ reply (answer_of program.now primitive_.Print arguments.now)) }
{
    match single(arguments) {
        None => Ok(None),
        Some(value) => Ok(Some(Answer::Prints(text(alloc, program, value)?))),
    }
}

/// `length(a)`: how many characters a text has.
pub(crate) fn length(program: &Program, arguments: &[Value]) -> Option<Answer>
    ensures { result ≡ reply (answer_of program.now primitive_.Length arguments.now) }
{
    match single_text(arguments) {
        None => None,
        Some(text) => {
            let outcome = natural(length_of(text.as_slice()) as u64);
            Some(small_answer(program, outcome))
        }
    }
}

/// `abort()`
pub(crate) fn aborted(arguments: &[Value]) -> Option<Answer>
    ensures { (p : Program) → result ≡ reply (answer_of p primitive_.Abort arguments.now) }
{
    if arguments.is_empty() {
        Some(Answer::Ends)
    } else {
        None
    }
}
