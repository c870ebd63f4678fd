//! Forms whose next part has come to a value or to a throw, by the frame round it.
ghost use Rattle.std.specs.Prelude.{◌≡◌, IfOk};
ghost use Rattle.fort_core.specs.declared.term.Term as term_;
ghost use Rattle.fort_step_deal.specs.Deals.{act_of};
ghost use Rattle.fort_frames.specs.Frames.{frame_of};
ghost use Rattle.fort_machine.specs.Ends.{throw_of};
ghost use Rattle.fort_machine.specs.Forms.{act};
ghost use Rattle.fort_machine.specs.Frames.{on};

use crate::in_order;
use crate::operands::operator_at_value;
use crate::parallel::deal_with_part;
use fort_base::{Memory, Shared};
use fort_core::{Program, Term, Value};
use fort_frames::Frame;
use fort_step_bound::{for_row, let_row, reduce_row};
use fort_step_calls::{try_throw_row, try_value_row, typecase_row};
use fort_step_deal::Deal;
use fort_step_forms::{
    fill_row, if_row, mutable_row, read_element_row, read_field_row, size_row, then_row,
    write_element_row, write_field_row, write_row,
};
use fort_step_parts::thrown_row;
use std::alloc::Global;

/// What a form does at its next step whose part is at a value, by the frame round that part. The
/// chapter "Steps and costs".
///
/// # Errors
///
/// `Memory` where memory is wanting, or a number passes what the program's data can hold.
#[tactic(auto, using(crate::proofs::AtFrames::at_values))]
pub fn deal_at_value(
    alloc: Global,
    program: &Program,
    frame: &Frame,
    value: &Value,
) -> Result<Deal, Memory>
    ensures { IfOk result (λ deal. act_of deal
        ≡ act program.now (on (frame_of frame.now) (term_.Value value.now))) }
{
    match frame {
        Frame::Node(node) => {
            let part = Shared::new(alloc, Term::Value(value.share()?))?;
            deal_with_part(alloc, program, node, part)
        }
        Frame::Throw => Ok(Deal::Stuck),
        Frame::Operand(set, values, operands) => {
            operator_at_value(alloc, *set, values, value, operands)
        }
        Frame::FillSize(ty, part) => in_order::fill_of_size(alloc, program, ty, value, part),
        Frame::FillValue(ty, size) => {
            fill_row(alloc, program, ty.share()?, value.share()?, size)
        }
        Frame::Let(variables, rest) => let_row(alloc, variables.get(), value, rest),
        Frame::Mutable(variable, _, rest) => {
            Ok(mutable_row(*variable, value.share()?, rest.share()?))
        }
        Frame::Write(slot) => Ok(write_row(*slot, value.share()?)),
        Frame::Field(field) => read_field_row(program, value, *field),
        Frame::FieldTarget(field, part) => {
            in_order::write_field_of(alloc, program, value, *field, part)
        }
        Frame::FieldValue(object, field) => {
            write_field_row(program, object, *field, value.share()?)
        }
        Frame::Element(part) => in_order::read_element_of(alloc, program, value, part),
        Frame::Index(array) => read_element_row(alloc, program, array, value),
        Frame::ElementTarget(index, part) => {
            in_order::write_element_of(alloc, program, value, index, part)
        }
        Frame::ElementIndex(array, part) => {
            in_order::write_element_at(alloc, program, array, value, part)
        }
        Frame::ElementValue(array, index) => {
            write_element_row(alloc, program, array, index, value.share()?)
        }
        Frame::Size => size_row(alloc, value),
        Frame::Then(rest) => Ok(then_row(alloc, rest.share()?)),
        Frame::Test(yes, no) => if_row(alloc, value, yes, no),
        Frame::Subject(variable, clauses, other) => {
            typecase_row(alloc, program, *variable, value, clauses, other)
        }
        Frame::Source(order, span, variable, body) => {
            for_row(alloc, *order, *span, *variable, value, body)
        }
        Frame::ReducedSource(order, span, set, empty, variable, body) => {
            reduce_row(alloc, *order, *span, *set, empty, *variable, value, body)
        }
        Frame::Try(_, _, last) => try_value_row(alloc, value.share()?, last),
    }
}

/// What a form does at its next step whose part is at a throw, by the frame round that part: it
/// goes on as the throw, but for a `try` and a parallel form. The chapter "Steps and costs".
///
/// # Errors
///
/// `Memory` where memory is wanting.
#[tactic(auto, using(crate::proofs::AtFrames::at_throws))]
pub fn deal_at_throw(
    alloc: Global,
    program: &Program,
    frame: &Frame,
    thrown: &Value,
) -> Result<Deal, Memory>
    ensures { IfOk result (λ deal. act_of deal
        ≡ act program.now (on (frame_of frame.now) (throw_of thrown.now))) }
{
    match frame {
        Frame::Node(node) => {
            let value = Shared::new(alloc, Term::Value(thrown.share()?))?;
            let part = Shared::new(alloc, Term::Throw(value))?;
            deal_with_part(alloc, program, node, part)
        }
        Frame::Try(variable, clauses, last) => {
            try_throw_row(alloc, program, *variable, clauses, last, thrown)
        }
        _ => thrown_row(alloc, thrown.share()?),
    }
}
