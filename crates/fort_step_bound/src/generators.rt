//! `for`.
ghost use Rattle.std.specs.Prelude.{◌≡◌, ◌<◌, ◌≤◌, IfOk};
ghost use Rattle.fort_core.specs.declared.form.Order.TheVariants as order_;
ghost use Rattle.fort_core.specs.declared.form.Span.TheVariants as span_;
ghost use Rattle.fort_step_deal.specs.Deals.{act_of};
ghost use Rattle.fort_machine.specs.Generators.{for_items as for_items_of, generating};
ghost use Rattle.fort_step_bound.specs.Items.{items_of};

use crate::division::halves;
use crate::items::{Items, by_item, items_over, spanned};
use fort_base::{Memory, Shared};
use fort_core::{Order, Span, Term, Value};
use fort_step_deal::{Deal, Goes};
use std::alloc::Global;

/// A `for` whose source is a value: over no item it is `()`, over one its body, over more both
/// halves in parallel, or in `seq` the body with the first item and then the rest. The chapter
/// "Steps and costs".
///
/// # Errors
///
/// `Memory` where memory is wanting, or a number of an item isn't one that the source can have.
#[tactic(auto, using(crate::proofs::Spans::fors))]
pub fn for_row(
    alloc: Global,
    order: Order,
    span: Span,
    variable: u32,
    source: &Value,
    body: &Shared<Term>,
) -> Result<Deal, Memory>
    ensures { IfOk result (λ deal. act_of deal
        ≡ generating order span variable source.now body.now) }
{
    let over = items_over(source);
    match spanned(span, over) {
        None => Ok(Deal::Stuck),
        Some(place) => for_items(alloc, order, over, place.0, place.1, variable, source, body),
    }
}

#[tactic(auto, using(crate::proofs::Counts::fors))]
fn for_items(
    alloc: Global,
    order: Order,
    over: Items,
    at: u64,
    count: u64,
    variable: u32,
    source: &Value,
    body: &Shared<Term>,
) -> Result<Deal, Memory>
    ensures { IfOk result (λ deal. act_of deal
        ≡ for_items_of order (items_of over) at count variable source.now body.now) }
{
    if count == 0 {
        let unit = Shared::new(alloc, Term::Value(Value::unit(alloc)?))?;
        return Ok(Deal::becomes(alloc, unit));
    }
    match order {
        Order::Seq => in_turn(alloc, over, at, count, variable, source, body),
        Order::Parallel => {
            if count == 1 {
                by_item(alloc, over, at, Goes::Body(variable, body.share()?))
            } else {
                for_halves(alloc, over, at, count, variable, source, body)
            }
        }
    }
}

#[tactic(auto, using(crate::proofs::Counts::fors))]
fn in_turn(
    alloc: Global,
    over: Items,
    at: u64,
    count: u64,
    variable: u32,
    source: &Value,
    body: &Shared<Term>,
) -> Result<Deal, Memory>
    requires { 0 < count }
    ensures { IfOk result (λ deal. act_of deal
        ≡ for_items_of order_.Seq (items_of over) at count variable source.now body.now) }
{
    let next = match at.checked_add(1) {
        None => return Err(Memory),
        Some(next) => next,
    };
    let rest = part(alloc, Order::Seq, next, count - 1, variable, source, body)?;
    by_item(alloc, over, at, Goes::First(variable, body.share()?, rest))
}

#[tactic(auto, using(crate::proofs::Counts::fors))]
fn for_halves(
    alloc: Global,
    _over: Items,
    at: u64,
    count: u64,
    variable: u32,
    source: &Value,
    body: &Shared<Term>,
) -> Result<Deal, Memory>
    requires { 2 ≤ count }
    ensures { IfOk result (λ deal. act_of deal
        ≡ for_items_of order_.Parallel (items_of _over) at count variable source.now body.now) }
{
    let (first, rest) = halves(count);
    let middle = match at.checked_add(first) {
        None => return Err(Memory),
        Some(middle) => middle,
    };
    let first = part(alloc, Order::Parallel, at, first, variable, source, body)?;
    let rest = part(alloc, Order::Parallel, middle, rest, variable, source, body)?;
    Ok(Deal::becomes(alloc, Shared::new(alloc, Term::ForHalves(first, rest))?))
}

fn part(
    alloc: Global,
    order: Order,
    at: u64,
    count: u64,
    variable: u32,
    source: &Value,
    body: &Shared<Term>,
) -> Result<Shared<Term>, Memory>
    ensures { IfOk result (λ term. term
        ≡ Term.For order (span_.Part at count) variable (Term.Value source.now) body.now) }
{
    let source = Shared::new(alloc, Term::Value(source.share()?))?;
    let body = body.share()?;
    Shared::new(
        alloc,
        Term::For(order, Span::Part(at, count), variable, source, body),
    )
}
