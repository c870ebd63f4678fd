//! What a thread does at its next step.
ghost use Rattle.std.specs.Prelude.{◌≡◌, IfOk};
ghost use Rattle.fort_machine.specs.Forms.{act};
ghost use Rattle.fort_step_deal.specs.Deals.{act_of};
ghost use Rattle.fort_frames_moves.specs.Turns.{ready_term};
ghost use Rattle.fort_disp.specs.Rows.{MayPick};
ghost use Rattle.fort_step_acting.specs.Only.{CallsRun, IsDealt};

use crate::made::share_values;
use fort_base::Memory;
use fort_core::Program;
use fort_disp::Tables;
use fort_frames_moves::Ready;
use fort_step_calls::{called, called_by};
use fort_step_deal::Deal;
use fort_step_table::{deal_at_throw, deal_at_value, deal_of, deal_of_node, deal_of_operands};
use std::alloc::Global;

/// What a thread's form does, and for a call what the declaration does that it runs; nothing where
/// the call runs none. Every declaration is asked.
///
/// # Errors
///
/// `Memory` where memory is wanting.
pub fn acting(alloc: Global, program: &Program, ready: &Ready) -> Result<Deal, Memory>
    ensures { IfOk result (IsDealt program.now (ready_term ready.now)) }
{
    match deal(alloc, program, ready)? {
        Deal::Calls(set, values) => match called(alloc, program, set, &values)? {
            None => Ok(Deal::Stuck),
            Some(deal) => Ok(deal),
        },
        other => Ok(other),
    }
}

/// The same of a form that is no call or runs a declaration, which is found by the program's
/// tables.
///
/// # Errors
///
/// `Memory` where memory is wanting.
pub fn acting_by(alloc: Global, tables: &Tables, ready: &Ready) -> Result<Deal, Memory>
    requires tables { MayPick tables.now }
    requires runs { CallsRun tables.now.program.now (ready_term ready.now) }
    ensures { IfOk result (IsDealt tables.now.program.now (ready_term ready.now)) }
{
    match deal(alloc, tables.program, ready)? {
        Deal::Calls(set, values) => called_by(alloc, tables, set, &values),
        other => Ok(other),
    }
}

fn deal(alloc: Global, program: &Program, ready: &Ready) -> Result<Deal, Memory>
    ensures { IfOk result (λ deal. act_of deal ≡ act program.now (ready_term ready.now)) }
{
    match ready {
        Ready::Form(term) => deal_of(alloc, program, term),
        Ready::Node(head, parts) => deal_of_node(alloc, program, *head, parts),
        Ready::Operands(set, values) => { Ok(deal_of_operands(*set, share_values(alloc, values)?)) }
        Ready::Value(frame, value) => deal_at_value(alloc, program, frame, value),
        Ready::Throw(frame, thrown) => deal_at_throw(alloc, program, frame, thrown),
    }
}
