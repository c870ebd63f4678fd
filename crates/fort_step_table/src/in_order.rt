//! Forms that go from left to right, by how their next part stands.
ghost use Rattle.std.specs.Prelude.{◌≡◌, [], ◌∷◌, IfOk};
ghost use Rattle.fort_core.specs.declared.value.Value.{out-Value};
ghost use Rattle.fort_step_deal.specs.Deals.{act_of};
ghost use Rattle.fort_machine.specs.Acts.{after, becomes, makes, stuck};
ghost use Rattle.fort_machine.specs.Ends.{standing};
ghost use Rattle.fort_machine.specs.Forms.{binding, by_element, choosing, clause_for, field_of, filling, location_of, reading_at, sizing, trying, writing_at};
ghost use Rattle.fort_machine.specs.Generators.{generating, reducing};
ghost use Rattle.fort_machine.specs.Substitution.{bound_to, located, substituted};

use fort_base::{List, Memory, NameId, SetId, Shared, Ty};
use fort_core::{Order, Program, Slot, Span, Term, Value};
use fort_step_bound::{for_row, let_row, reduce_row};
use fort_step_calls::{try_throw_row, try_value_row, typecase_row};
use fort_step_deal::Deal;
use fort_step_forms::{
    fill_row, if_row, mutable_row, read_element_row, read_field_row, size_row, then_row,
    write_element_row, write_field_row, write_row,
};
use fort_step_parts::{Stand, standing_of, thrown_row};
use std::alloc::Global;

pub(crate) fn fill(
    alloc: Global,
    program: &Program,
    ty: &Shared<Ty>,
    size: &Shared<Term>,
    value: &Shared<Term>,
) -> Result<Deal, Memory>
    ensures { IfOk result (λ deal. act_of deal
        ≡ after size.now
        (λ size. after value.now (λ v. filling program.now ty.now v (out-Value size)))) }
{
    match standing_of(size.get()) {
        Stand::Value(size) => fill_of_size(alloc, program, ty, size, value),
        Stand::Throw(thrown) => thrown_row(alloc, thrown.share()?),
        Stand::Open => Ok(Deal::Stuck),
    }
}

pub(crate) fn fill_of_size(
    alloc: Global,
    program: &Program,
    ty: &Shared<Ty>,
    size: &Value,
    value: &Shared<Term>,
) -> Result<Deal, Memory>
    ensures { IfOk result (λ deal. act_of deal
        ≡ after value.now (λ v. filling program.now ty.now v (out-Value size.now))) }
{
    match standing_of(value.get()) {
        Stand::Value(value) => fill_row(alloc, program, ty.share()?, value.share()?, size),
        Stand::Throw(thrown) => thrown_row(alloc, thrown.share()?),
        Stand::Open => Ok(Deal::Stuck),
    }
}

pub(crate) fn local(
    alloc: Global,
    variables: &List<(u32, Ty)>,
    first: &Shared<Term>,
    rest: &Shared<Term>,
) -> Result<Deal, Memory>
    ensures { IfOk result (λ deal. act_of deal
        ≡ after first.now (λ v. binding (bound_to variables.now v) rest.now)) }
{
    match standing_of(first.get()) {
        Stand::Value(value) => let_row(alloc, variables, value, rest),
        Stand::Throw(thrown) => thrown_row(alloc, thrown.share()?),
        Stand::Open => Ok(Deal::Stuck),
    }
}

pub(crate) fn mutable(
    alloc: Global,
    variable: u32,
    first: &Shared<Term>,
    rest: &Shared<Term>,
) -> Result<Deal, Memory>
    ensures { IfOk result (λ deal. act_of deal
        ≡ after first.now (λ v. makes (v ∷ []) (λ l. located variable l rest.now) 1)) }
{
    match standing_of(first.get()) {
        Stand::Value(value) => Ok(mutable_row(variable, value.share()?, rest.share()?)),
        Stand::Throw(thrown) => thrown_row(alloc, thrown.share()?),
        Stand::Open => Ok(Deal::Stuck),
    }
}

pub(crate) fn read_field(
    alloc: Global,
    program: &Program,
    object: &Shared<Term>,
    field: NameId,
) -> Result<Deal, Memory>
    ensures { IfOk result (λ deal. act_of deal
        ≡ after object.now (λ v. reading_at (field_of program.now field (out-Value v)))) }
{
    match standing_of(object.get()) {
        Stand::Value(object) => read_field_row(program, object, field),
        Stand::Throw(thrown) => thrown_row(alloc, thrown.share()?),
        Stand::Open => Ok(Deal::Stuck),
    }
}

pub(crate) fn read_element(
    alloc: Global,
    program: &Program,
    array: &Shared<Term>,
    index: &Shared<Term>,
) -> Result<Deal, Memory>
    ensures { IfOk result (λ deal. act_of deal
        ≡ after array.now
        (λ v. after index.now
        (λ w. by_element program.now (out-Value v) (out-Value w) reading_at))) }
{
    match standing_of(array.get()) {
        Stand::Value(array) => read_element_of(alloc, program, array, index),
        Stand::Throw(thrown) => thrown_row(alloc, thrown.share()?),
        Stand::Open => Ok(Deal::Stuck),
    }
}

pub(crate) fn read_element_of(
    alloc: Global,
    program: &Program,
    array: &Value,
    index: &Shared<Term>,
) -> Result<Deal, Memory>
    ensures { IfOk result (λ deal. act_of deal
        ≡ after index.now
        (λ w. by_element program.now (out-Value array.now) (out-Value w) reading_at)) }
{
    match standing_of(index.get()) {
        Stand::Value(index) => read_element_row(alloc, program, array, index),
        Stand::Throw(thrown) => thrown_row(alloc, thrown.share()?),
        Stand::Open => Ok(Deal::Stuck),
    }
}

pub(crate) fn write(alloc: Global, slot: Slot, value: &Shared<Term>) -> Result<Deal, Memory>
    ensures { IfOk result (λ deal. act_of deal ≡ after value.now (writing_at (location_of slot))) }
{
    match standing_of(value.get()) {
        Stand::Value(value) => Ok(write_row(slot, value.share()?)),
        Stand::Throw(thrown) => thrown_row(alloc, thrown.share()?),
        Stand::Open => Ok(Deal::Stuck),
    }
}

pub(crate) fn write_field(
    alloc: Global,
    program: &Program,
    object: &Shared<Term>,
    field: NameId,
    value: &Shared<Term>,
) -> Result<Deal, Memory>
    ensures { IfOk result (λ deal. act_of deal
        ≡ after object.now
        (λ v. after value.now (writing_at (field_of program.now field (out-Value v))))) }
{
    match standing_of(object.get()) {
        Stand::Value(object) => write_field_of(alloc, program, object, field, value),
        Stand::Throw(thrown) => thrown_row(alloc, thrown.share()?),
        Stand::Open => Ok(Deal::Stuck),
    }
}

pub(crate) fn write_field_of(
    alloc: Global,
    program: &Program,
    object: &Value,
    field: NameId,
    value: &Shared<Term>,
) -> Result<Deal, Memory>
    ensures { IfOk result (λ deal. act_of deal
        ≡ after value.now (writing_at (field_of program.now field (out-Value object.now)))) }
{
    match standing_of(value.get()) {
        Stand::Value(value) => write_field_row(program, object, field, value.share()?),
        Stand::Throw(thrown) => thrown_row(alloc, thrown.share()?),
        Stand::Open => Ok(Deal::Stuck),
    }
}

pub(crate) fn write_element(
    alloc: Global,
    program: &Program,
    array: &Shared<Term>,
    index: &Shared<Term>,
    value: &Shared<Term>,
) -> Result<Deal, Memory>
    ensures { IfOk result (λ deal. act_of deal
        ≡ after array.now
        (λ v. after index.now
        (λ w. after value.now
        (λ u. by_element program.now (out-Value v) (out-Value w) (λ l. writing_at l u))))) }
{
    match standing_of(array.get()) {
        Stand::Value(array) => write_element_of(alloc, program, array, index, value),
        Stand::Throw(thrown) => thrown_row(alloc, thrown.share()?),
        Stand::Open => Ok(Deal::Stuck),
    }
}

pub(crate) fn write_element_of(
    alloc: Global,
    program: &Program,
    array: &Value,
    index: &Shared<Term>,
    value: &Shared<Term>,
) -> Result<Deal, Memory>
    ensures { IfOk result (λ deal. act_of deal
        ≡ after index.now
        (λ w. after value.now
        (λ u. by_element program.now (out-Value array.now) (out-Value w)
        (λ l. writing_at l u)))) }
{
    match standing_of(index.get()) {
        Stand::Value(index) => write_element_at(alloc, program, array, index, value),
        Stand::Throw(thrown) => thrown_row(alloc, thrown.share()?),
        Stand::Open => Ok(Deal::Stuck),
    }
}

pub(crate) fn write_element_at(
    alloc: Global,
    program: &Program,
    array: &Value,
    index: &Value,
    value: &Shared<Term>,
) -> Result<Deal, Memory>
    ensures { IfOk result (λ deal. act_of deal
        ≡ after value.now
        (λ u. by_element program.now (out-Value array.now) (out-Value index.now)
        (λ l. writing_at l u))) }
{
    match standing_of(value.get()) {
        Stand::Value(value) => write_element_row(alloc, program, array, index, value.share()?),
        Stand::Throw(thrown) => thrown_row(alloc, thrown.share()?),
        Stand::Open => Ok(Deal::Stuck),
    }
}

pub(crate) fn size(alloc: Global, array: &Shared<Term>) -> Result<Deal, Memory>
    ensures { IfOk result (λ deal. act_of deal ≡ after array.now (λ v. sizing (out-Value v))) }
{
    match standing_of(array.get()) {
        Stand::Value(array) => size_row(alloc, array),
        Stand::Throw(thrown) => thrown_row(alloc, thrown.share()?),
        Stand::Open => Ok(Deal::Stuck),
    }
}

pub(crate) fn then(alloc: Global, first: &Shared<Term>, rest: &Shared<Term>) -> Result<Deal, Memory>
    ensures { IfOk result (λ deal. act_of deal ≡ after first.now (λ v. becomes rest.now)) }
{
    match standing_of(first.get()) {
        Stand::Value(_) => Ok(then_row(alloc, rest.share()?)),
        Stand::Throw(thrown) => thrown_row(alloc, thrown.share()?),
        Stand::Open => Ok(Deal::Stuck),
    }
}

pub(crate) fn choice(
    alloc: Global,
    test: &Shared<Term>,
    yes: &Shared<Term>,
    no: &Shared<Term>,
) -> Result<Deal, Memory>
    ensures { IfOk result (λ deal. act_of deal
        ≡ after test.now (λ v. choosing (out-Value v) yes.now no.now)) }
{
    match standing_of(test.get()) {
        Stand::Value(test) => if_row(alloc, test, yes, no),
        Stand::Throw(thrown) => thrown_row(alloc, thrown.share()?),
        Stand::Open => Ok(Deal::Stuck),
    }
}

pub(crate) fn typecase(
    alloc: Global,
    program: &Program,
    variable: u32,
    subject: &Shared<Term>,
    clauses: &List<(Shared<Term>, Shared<Ty>)>,
    other: &Shared<Term>,
) -> Result<Deal, Memory>
    ensures { IfOk result (λ deal. act_of deal
        ≡ after subject.now
        (λ v. becomes
        (clause_for program.now v clauses.now (substituted variable v other.now)
        (substituted variable v)))) }
{
    match standing_of(subject.get()) {
        Stand::Value(subject) => { typecase_row(alloc, program, variable, subject, clauses, other) }
        Stand::Throw(thrown) => thrown_row(alloc, thrown.share()?),
        Stand::Open => Ok(Deal::Stuck),
    }
}

pub(crate) fn generator(
    alloc: Global,
    order: Order,
    span: Span,
    variable: u32,
    source: &Shared<Term>,
    body: &Shared<Term>,
) -> Result<Deal, Memory>
    ensures { IfOk result (λ deal. act_of deal
        ≡ after source.now (λ v. generating order span variable v body.now)) }
{
    match standing_of(source.get()) {
        Stand::Value(source) => for_row(alloc, order, span, variable, source, body),
        Stand::Throw(thrown) => thrown_row(alloc, thrown.share()?),
        Stand::Open => Ok(Deal::Stuck),
    }
}

pub(crate) fn reduction(
    alloc: Global,
    order: Order,
    span: Span,
    set: SetId,
    empty: &Shared<Term>,
    variable: u32,
    source: &Shared<Term>,
    body: &Shared<Term>,
) -> Result<Deal, Memory>
    ensures { IfOk result (λ deal. act_of deal
        ≡ after source.now (λ v. reducing order span set empty.now variable v body.now)) }
{
    match standing_of(source.get()) {
        Stand::Value(source) => {
            reduce_row(alloc, order, span, set, empty, variable, source, body)
        }
        Stand::Throw(thrown) => thrown_row(alloc, thrown.share()?),
        Stand::Open => Ok(Deal::Stuck),
    }
}

// A throw goes on by what throws in its part; of a value it is finished.
pub(crate) fn throw(alloc: Global, thrown: &Shared<Term>) -> Result<Deal, Memory>
    ensures { IfOk result (λ deal. act_of deal ≡ after thrown.now (λ v. stuck)) }
{
    match standing_of(thrown.get()) {
        Stand::Value(_) => Ok(Deal::Stuck),
        Stand::Throw(thrown) => thrown_row(alloc, thrown.share()?),
        Stand::Open => Ok(Deal::Stuck),
    }
}

pub(crate) fn guarded(
    alloc: Global,
    program: &Program,
    body: &Shared<Term>,
    variable: u32,
    clauses: &List<(Shared<Term>, Shared<Ty>)>,
    last: &Option<Shared<Term>>,
) -> Result<Deal, Memory>
    ensures { IfOk result (λ deal. act_of deal
        ≡ trying program.now variable clauses.now last.now (standing body.now)) }
{
    match standing_of(body.get()) {
        Stand::Value(value) => try_value_row(alloc, value.share()?, last),
        Stand::Throw(thrown) => { try_throw_row(alloc, program, variable, clauses, last, thrown) }
        Stand::Open => Ok(Deal::Stuck),
    }
}
