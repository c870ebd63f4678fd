//! What a call of values does.
ghost use Rattle.std.specs.Prelude.{◌≡◌, Some, IfOk};
ghost use Rattle.fort_base.specs.declared.ids.DeclId.{DeclId};
ghost use Rattle.fort_core.specs.declared.program.CoreDecl.{CoreDecl};
ghost use Rattle.fort_step_deal.specs.Deals.{act_of};
ghost use Rattle.fort_machine.specs.Acts.{enters};
ghost use Rattle.fort_disp.specs.Rows.{MayPick};
ghost use Rattle.fort_machine.specs.Calls.{Dispatches, by_body, by_number};
ghost use Rattle.fort_machine.specs.Substitution.{substituted_all as with_values};
ghost use Rattle.fort_step_calls.specs.Called.{IsCalled};

use crate::answers::answered;
use crate::objects::constructed;
use fort_base::{List, Memory, SetId, Shared};
use fort_core::{CoreBody, Program, Term, Value};
use fort_disp::{Tables, running};
use fort_disp_plain::dispatched;
use fort_step_deal::Deal;
use fort_step_subst::put_all;
use std::alloc::Global;

/// What a call of values does: what the declaration does that it runs, or `None` where it runs
/// none. Every declaration of the set is asked. The chapter "Calls".
///
/// # Errors
///
/// `Memory` where memory is wanting.
pub fn called(
    alloc: Global,
    program: &Program,
    set: SetId,
    values: &List<Value>,
) -> Result<Option<Deal>, Memory>
    ensures { IfOk result (IsCalled program.now set values.now) }
{
    let decl = match dispatched(program, set, values) {
        None => return Ok(None),
        Some(decl) => decl,
    };
    let deal = by_its_body(alloc, program, &decl.body, values)?;
    Ok(Some(deal))
}

/// The same of a call that runs a declaration, which is found by the program's tables.
///
/// # Errors
///
/// `Memory` where memory is wanting.
pub fn called_by(
    alloc: Global,
    tables: &Tables,
    set: SetId,
    values: &List<Value>,
) -> Result<Deal, Memory>
    requires tables { MayPick tables.now }
    requires runs { (number : DeclId) × (decl : CoreDecl)
        × Dispatches tables.now.program.now set values.now number decl }
    ensures { IfOk result (λ deal. IsCalled tables.now.program.now set values.now (Some deal)) }
{
    let decl = running(tables, set, values);
    by_its_body(alloc, tables.program, &decl.body, values)
}

// What a declaration does that values are passed to.
fn by_its_body(
    alloc: Global,
    program: &Program,
    body: &CoreBody,
    values: &List<Value>,
) -> Result<Deal, Memory>
    ensures { IfOk result (λ deal. act_of deal ≡ by_body program.now body.now values.now) }
{
    match body {
        CoreBody::Plain(term) => entered(alloc, term, values),
        CoreBody::Primitive(primitive) => answered(alloc, program, *primitive, values),
        CoreBody::Abstract => Ok(Deal::Stuck),
        CoreBody::New(id) => constructed(alloc, program, *id, values),
    }
}

// The body with its parameters replaced.
fn entered(alloc: Global, term: &Shared<Term>, values: &List<Value>) -> Result<Deal, Memory>
    ensures { IfOk result (λ deal. act_of deal
        ≡ enters term.now (with_values (by_number 0 values.now) term.now)) }
{
    let pairs = numbered(alloc, values)?;
    let next = put_all(alloc, term, &pairs)?;
    Ok(Deal::Enters(term.share()?, next))
}

// The values of parameters, by their numbers.
fn numbered(alloc: Global, values: &List<Value>) -> Result<List<(u32, Value)>, Memory>
    ensures { IfOk result (λ pairs. pairs ≡ by_number 0 values.now) }
{
    let mut pairs = List::new(alloc);
    let mut number: u32 = 0;
    for value in values.as_slice() {
        pairs.push((number, value.share()?))?;
        number = match number.checked_add(1) {
            None => return Err(Memory),
            Some(next) => next,
        };
    }
    Ok(pairs)
}
