//! New objects.
ghost use Rattle.std.specs.Prelude.{◌≡◌, ◌++◌, slice_get, IfOk};
ghost use Rattle.fort_step_deal.specs.Deals.{act_of};
ghost use Rattle.fort_machine.specs.Calls.{constants as constants_of, constructing};

use fort_base::{List, Memory, TypeId};
use fort_core::{CoreShape, Program, Value};
use fort_step_deal::{Deal, Makes};
use std::alloc::Global;

// A new object, with the values that are passed and the constants of its body's fields.
pub(crate) fn constructed(
    alloc: Global,
    program: &Program,
    id: TypeId,
    values: &List<Value>,
) -> Result<Deal, Memory>
    ensures { IfOk result (λ deal. act_of deal
        ≡ constructing id values.now (slice_get program.now.shapes id.0)) }
{
    match program.shapes.get(id.0 as usize) {
        None => Ok(Deal::Stuck),
        Some(shape) => Ok(Deal::Makes(Makes::Object(id, fields(alloc, values, shape)?))),
    }
}

fn fields(alloc: Global, values: &List<Value>, shape: &CoreShape) -> Result<List<Value>, Memory>
    ensures { IfOk result (λ all. all ≡ values.now ++ constants_of shape.now) }
{
    let mut all = List::new(alloc);
    for value in values.as_slice() {
        all.push(value.share()?)?;
    }
    all.append(constants(alloc, shape)?)?;
    Ok(all)
}

fn constants(alloc: Global, shape: &CoreShape) -> Result<List<Value>, Memory>
    ensures { IfOk result (λ all. all ≡ constants_of shape.now) }
{
    let mut all = List::new(alloc);
    for field in shape.fields.as_slice() {
        if let Some(value) = &field.initial {
            all.push(value.share()?)?;
        }
    }
    Ok(all)
}
