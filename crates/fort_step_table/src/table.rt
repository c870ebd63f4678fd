//! The table of steps, a line for each form.
ghost use Rattle.std.specs.Prelude.{◌≡◌, IfOk};
ghost use Rattle.fort_step_deal.specs.Deals.{act_of};
ghost use Rattle.fort_machine.specs.Forms.{act};

use crate::in_order;
use crate::operands::operator;
use fort_base::{Memory, Shared};
use fort_core::{Program, Term};
use fort_step_bound::apply_row;
use fort_step_deal::Deal;
use fort_step_forms::{read_row, while_row};
use fort_step_parts::{also_row, call_row, fn_row, for_halves_row, group_row, reduce_halves_row};
use std::alloc::Global;

/// What a term does at its next step, where none of its parts has to step first: the row of its
/// form. An atomic form goes by attempts, so it has no row; what is finished or open has none
/// either. The chapter "Steps and costs".
///
/// # Errors
///
/// `Memory` where memory is wanting, or a number passes what the program's data can hold.
pub fn deal_of(alloc: Global, program: &Program, term: &Shared<Term>) -> Result<Deal, Memory>
    ensures { IfOk result (λ deal. act_of deal ≡ act program.now term.now) }
{
    match term.get() {
        Term::Call(set, arguments) => call_row(alloc, *set, arguments),
        Term::Operator(set, operands) => operator(alloc, *set, operands),
        Term::Apply(function, argument) => apply_row(alloc, function, argument),
        Term::Fill(ty, size, value) => in_order::fill(alloc, program, ty, size, value),
        Term::Let(variables, first, rest) => {
            in_order::local(alloc, variables.get(), first, rest)
        }
        Term::Mutable(variable, _, first, rest) => {
            in_order::mutable(alloc, *variable, first, rest)
        }
        Term::Read(slot) => Ok(read_row(*slot)),
        Term::ReadField(object, field) => in_order::read_field(alloc, program, object, *field),
        Term::ReadElement(array, index) => in_order::read_element(alloc, program, array, index),
        Term::Write(slot, value) => in_order::write(alloc, *slot, value),
        Term::WriteField(object, field, value) => {
            in_order::write_field(alloc, program, object, *field, value)
        }
        Term::WriteElement(array, index, value) => {
            in_order::write_element(alloc, program, array, index, value)
        }
        Term::Size(array) => in_order::size(alloc, array),
        Term::Then(first, rest) => in_order::then(alloc, first, rest),
        Term::If(test, yes, no) => in_order::choice(alloc, test, yes, no),
        Term::While(test, body) => while_row(alloc, term, test, body),
        Term::Typecase(variable, subject, clauses, other) => {
            in_order::typecase(alloc, program, *variable, subject, clauses, other)
        }
        Term::For(order, span, variable, source, body) => {
            in_order::generator(alloc, *order, *span, *variable, source, body)
        }
        Term::ForHalves(first, second) => for_halves_row(alloc, first, second),
        Term::Reduce(order, span, set, empty, variable, source, body) => {
            in_order::reduction(alloc, *order, *span, *set, empty, *variable, source, body)
        }
        Term::ReduceHalves(set, first, second) => reduce_halves_row(alloc, *set, first, second),
        Term::Also(blocks) => also_row(alloc, blocks),
        Term::Throw(thrown) => in_order::throw(alloc, thrown),
        Term::Try(body, variable, clauses, last) => {
            in_order::guarded(alloc, program, body, *variable, clauses, last)
        }
        Term::Group(parts) => group_row(alloc, program, parts),
        Term::Fn(closure) => fn_row(alloc, program, closure.get()),
        Term::Value(_)
        | Term::Variable(_)
        | Term::Atomic(_, _)
        | Term::Asleep(_, _)
        | Term::Stepped(_) => Ok(Deal::Stuck),
    }
}
