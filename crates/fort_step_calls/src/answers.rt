//! The answers of built-in declarations, with their costs.
ghost use Rattle.std.specs.Prelude.{◌≡◌, ◌+◌, [], length, IfOk};
ghost use Rattle.fort_core.specs.declared.term.Term as term_;
ghost use Rattle.fort_step_deal.specs.Deals.{act_of};
ghost use Rattle.fort_machine.specs.Acts.{turns, unit};
ghost use Rattle.fort_machine.specs.Calls.{by_answer};
ghost use Rattle.fort_machine.specs.Primitives.{answer_of};
ghost use Rattle.fort_step_calls.specs.Called.{by_given};

use fort_base::{Bytes, List, Memory, Shared};
use fort_core::{Primitive, Program, Term, Value};
use fort_prim::Answer;
use fort_step_deal::Deal;
use fort_step_parts::throwing;
use std::alloc::Global;

// What a built-in declaration does that values are passed to.
#[tactic(auto, using(crate::proofs::Answered::answers))]
pub(crate) fn answered(
    alloc: Global,
    program: &Program,
    primitive: Primitive,
    values: &List<Value>,
) -> Result<Deal, Memory>
    ensures { IfOk result (λ deal. act_of deal
        ≡ by_answer program.now (answer_of program.now primitive values.now)) }
{
    match fort_prim::answered(alloc, program, primitive, values.as_slice())? {
        None => Ok(Deal::Stuck),
        Some(answer) => by_its_answer(alloc, program, answer),
    }
}

fn by_its_answer(alloc: Global, program: &Program, answer: Answer) -> Result<Deal, Memory>
    ensures { IfOk result (λ deal. act_of deal ≡ by_given program.now answer) }
{
    match answer {
        Answer::Value(value) => Ok(Deal::becomes(alloc, Shared::new(alloc, Term::Value(value))?)),
        Answer::Makes(text) => made(alloc, text),
        Answer::Throws(id) => throwing(alloc, program, id),
        Answer::Prints(text) => printed(alloc, text),
        Answer::Ends => Ok(Deal::Ends),
    }
}

// A text that is made, at the cost of its bytes too.
fn made(alloc: Global, text: Bytes) -> Result<Deal, Memory>
    ensures { IfOk result (λ deal. act_of deal
        ≡ turns (term_.Value (Value.Text text)) [] (1 + length text)) }
{
    match (text.len() as u64).checked_add(1) {
        None => Err(Memory),
        Some(cost) => {
            let value = Value::Text(Shared::new(alloc, text)?);
            let next = Shared::new(alloc, Term::Value(value))?;
            Ok(Deal::Turns(next, List::new(alloc), cost))
        }
    }
}

// A text that is printed, at the cost of its bytes too.
fn printed(alloc: Global, text: Bytes) -> Result<Deal, Memory>
    ensures { IfOk result (λ deal. act_of deal ≡ turns (term_.Value unit) text (1 + length text)) }
{
    match (text.len() as u64).checked_add(1) {
        None => Err(Memory),
        Some(cost) => {
            let next = Shared::new(alloc, Term::Value(Value::unit(alloc)?))?;
            Ok(Deal::Turns(next, text, cost))
        }
    }
}
