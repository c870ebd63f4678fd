//! Reductions.
ghost use Rattle.std.specs.Prelude.{◌≡◌, ◌≤◌, IfOk};
ghost use Rattle.fort_core.specs.declared.form.Span.TheVariants as span_;
ghost use Rattle.fort_step_deal.specs.Deals.{act_of};
ghost use Rattle.fort_machine.specs.Generators.{reduce_items as reduce_items_of, reduced_halves, reducing};
ghost use Rattle.fort_step_bound.specs.Items.{items_of};

use crate::division::halves;
use crate::items::{Items, by_item, items_over, spanned};
use fort_base::{List, Memory, SetId, Shared};
use fort_core::{Order, Span, Term, Value};
use fort_step_deal::{Deal, Goes};
use std::alloc::Global;

/// A reduction's set, what it gives over no item, its variable and its body.
#[derive(Drop)]
pub(crate) struct Reduction<'a> {
    pub(crate) set: SetId,
    pub(crate) empty: &'a Shared<Term>,
    pub(crate) variable: u32,
    pub(crate) source: &'a Value,
    pub(crate) body: &'a Shared<Term>,
}

/// A reduction whose source is a value: over no item it is what it gives there, over one its body,
/// over more both halves under its operator. The chapter "Steps and costs".
///
/// # Errors
///
/// `Memory` where memory is wanting, or a number of an item isn't one that the source can have.
#[tactic(auto, using(crate::proofs::Spans::reductions))]
pub fn reduce_row(
    alloc: Global,
    order: Order,
    span: Span,
    set: SetId,
    empty: &Shared<Term>,
    variable: u32,
    source: &Value,
    body: &Shared<Term>,
) -> Result<Deal, Memory>
    ensures { IfOk result (λ deal. act_of deal
        ≡ reducing order span set empty.now variable source.now body.now) }
{
    let over = items_over(source);
    let reduction = Reduction {
        set,
        empty,
        variable,
        source,
        body,
    };
    match spanned(span, over) {
        None => Ok(Deal::Stuck),
        Some(place) => reduce_items(alloc, order, over, place.0, place.1, &reduction),
    }
}

#[tactic(auto, using(crate::proofs::Counts::reductions))]
fn reduce_items(
    alloc: Global,
    order: Order,
    over: Items,
    at: u64,
    count: u64,
    it: &Reduction,
) -> Result<Deal, Memory>
    ensures { IfOk result (λ deal. act_of deal
        ≡ reduce_items_of order (items_of over) at count it.now.set it.now.empty.now
        it.now.variable it.now.source.now it.now.body.now) }
{
    if count == 0 {
        Ok(Deal::becomes(alloc, it.empty.share()?))
    } else if count == 1 {
        by_item(alloc, over, at, Goes::Body(it.variable, it.body.share()?))
    } else {
        reduce_halves(alloc, order, over, at, count, it)
    }
}

#[tactic(auto, using(crate::proofs::Counts::reductions))]
fn reduce_halves(
    alloc: Global,
    order: Order,
    _over: Items,
    at: u64,
    count: u64,
    it: &Reduction,
) -> Result<Deal, Memory>
    requires { 2 ≤ count }
    ensures { IfOk result (λ deal. act_of deal
        ≡ reduce_items_of order (items_of _over) at count it.now.set it.now.empty.now
        it.now.variable it.now.source.now it.now.body.now) }
{
    let (first, rest) = halves(count);
    let middle = match at.checked_add(first) {
        None => return Err(Memory),
        Some(middle) => middle,
    };
    let first = part(alloc, order, at, first, it)?;
    let rest = part(alloc, order, middle, rest, it)?;
    Ok(Deal::becomes(alloc, both(alloc, order, it.set, first, rest)?))
}

fn both(
    alloc: Global,
    order: Order,
    set: SetId,
    first: Shared<Term>,
    rest: Shared<Term>,
) -> Result<Shared<Term>, Memory>
    ensures { IfOk result (λ term. term ≡ reduced_halves order set first rest) }
{
    match order {
        Order::Parallel => Shared::new(alloc, Term::ReduceHalves(set, first, rest)),
        Order::Seq => {
            let mut operands = List::new(alloc);
            operands.push(first)?;
            operands.push(rest)?;
            Shared::new(alloc, Term::Operator(set, operands))
        }
    }
}

fn part(
    alloc: Global,
    order: Order,
    at: u64,
    count: u64,
    it: &Reduction,
) -> Result<Shared<Term>, Memory>
    ensures { IfOk result (λ term. term
        ≡ Term.Reduce order (span_.Part at count) it.now.set it.now.empty.now it.now.variable
        (Term.Value it.now.source.now) it.now.body.now) }
{
    let source = Shared::new(alloc, Term::Value(it.source.share()?))?;
    let empty = it.empty.share()?;
    let body = it.body.share()?;
    let span = Span::Part(at, count);
    Shared::new(
        alloc,
        Term::Reduce(order, span, it.set, empty, it.variable, source, body),
    )
}
