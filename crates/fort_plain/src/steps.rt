//! A step of a thread, as a pick takes it.
ghost use Rattle.std.specs.Prelude.{◌≡◌, ◌≢◌, ◌↔◌, ◌+◌, ◌<◌, ◌≤◌, ◌^◌, [], IfOk, IsTrue, None};
ghost use Rattle.fort_step_deal.specs.Deals.{making_cost, made_by as term_of, new_values as values_of};
ghost use Rattle.fort_step_deal.specs.Deals.{next_by as next_value};
ghost use Rattle.fort_step_deal.specs.declared.deal.Deal.TheVariants as deals;
ghost use Rattle.fort_machine.specs.Acts as acts;
ghost use Rattle.fort_machine.specs.Written.{WrittenProgram};
ghost use Rattle.fort_frames_moves.specs.Turns.{ready_term};
ghost use Rattle.fort_step_acting.specs.Only.{IsDealt};
ghost use Rattle.fort_store_effects.specs.Calls.{AreFree};
ghost use Rattle.fort_walk_law_course.specs.Course.{NothingFrom};
ghost use Rattle.fort_store_effects.specs.Levels.{levels_of, seen};
ghost use Rattle.fort_plain.specs.Takes.{DoesOnly, IsCost, IsThreadAt, IsTurn, StepsOn, TouchesStore, TurnsOnly};

use crate::act::{Acted, Turn};
use fort_base::{Bytes, List, Loc, Memory, Shared};
use fort_core::{Program, Term, Value};
use fort_frames::{At, Place, State};
use fort_frames_moves::Ready;
use fort_step_acting::{acting, made_by, makes_count, new_values, next_by};
use fort_step_deal::{Deal, Goes, Makes};
use fort_walk_course::{Execution, Going, single};
use std::alloc::Global;

/// A thread takes its step, with the location that the pick names.
///
/// # Errors
///
/// `Memory` where memory is wanting.
pub fn step(
    alloc: Global,
    program: &Program,
    course: Execution,
    turn: Turn,
    place: Place,
    ready: Ready,
    loc: Loc,
) -> Result<Acted, Memory>
    requires written { WrittenProgram program.now }
    requires thread { IsThreadAt program.now course place (ready_term ready) }
    requires turn { IsTurn turn }
    ensures { IfOk result (StepsOn program.now course place (ready_term ready) turn loc.0) }
{
    let deal = acting(alloc, program, &ready)?;
    dealt(alloc, program, course, turn, place, ready, loc, deal)
}

// What its form does is done.
fn dealt(
    alloc: Global,
    program: &Program,
    course: Execution,
    turn: Turn,
    place: Place,
    ready: Ready,
    loc: Loc,
    deal: Deal,
) -> Result<Acted, Memory>
    requires written { WrittenProgram program.now }
    requires thread { IsThreadAt program.now course place (ready_term ready) }
    requires turn { IsTurn turn }
    requires dealt { IsDealt program.now (ready_term ready) deal }
    ensures { IfOk result (StepsOn program.now course place (ready_term ready) turn loc.0) }
{
    if is_stuck(&deal) {
        return Ok(Acted::Illegal);
    }
    goes_on(alloc, program, course, turn, place, &ready, loc, deal)
}

fn is_stuck(deal: &Deal) -> bool
    ensures { IsTrue result ↔ (deal.now ≡ deals.Stuck) }
{
    match deal {
        Deal::Stuck => true,
        _ => false,
    }
}

// It goes on as a term, or touches the store.
fn goes_on(
    alloc: Global,
    program: &Program,
    course: Execution,
    turn: Turn,
    place: Place,
    ready: &Ready,
    loc: Loc,
    deal: Deal,
) -> Result<Acted, Memory>
    requires written { WrittenProgram program.now }
    requires thread { IsThreadAt program.now course place (ready_term ready.now) }
    requires turn { IsTurn turn }
    requires dealt { IsDealt program.now (ready_term ready.now) deal }
    requires moves { deal ≢ deals.Stuck }
    ensures { IfOk result (StepsOn program.now course place (ready_term ready.now) turn loc.0) }
{
    match deal {
        Deal::Turns(next, output, cost) => {
            turns(
                alloc, program, course, turn, place, ready, loc, next, output, cost,
            )
        }
        Deal::Enters(_, next) => {
            let output = List::new(alloc);
            turns(
                alloc, program, course, turn, place, ready, loc, next, output, 1,
            )
        }
        other => touches(alloc, program, course, turn, place, ready, loc, other),
    }
}

// It looks at the store, or ends its machine.
fn touches(
    alloc: Global,
    program: &Program,
    course: Execution,
    turn: Turn,
    place: Place,
    ready: &Ready,
    loc: Loc,
    deal: Deal,
) -> Result<Acted, Memory>
    requires thread { IsThreadAt program.now course place (ready_term ready.now) }
    requires turn { IsTurn turn }
    requires dealt { IsDealt program.now (ready_term ready.now) deal }
    requires store { TouchesStore deal }
    ensures { IfOk result (StepsOn program.now course place (ready_term ready.now) turn loc.0) }
{
    match deal {
        Deal::Asks(from, goes) => {
            asks(alloc, program, course, turn, place, ready, loc, from, goes)
        }
        Deal::Sets(to, value) => sets(alloc, program, course, turn, place, ready, loc, to, value),
        Deal::Makes(makes) => makes_some(alloc, program, course, turn, place, ready, loc, makes),
        Deal::Ends => aborts(alloc, program, course, turn, place, ready, loc),
        _ => unreachable!(),
    }
}

// It goes on as a term, with a text that it prints, at a cost.
fn turns(
    alloc: Global,
    program: &Program,
    course: Execution,
    turn: Turn,
    place: Place,
    ready: &Ready,
    loc: Loc,
    next: Shared<Term>,
    output: Bytes,
    cost: u64,
) -> Result<Acted, Memory>
    requires only { TurnsOnly program.now course place (ready_term ready.now) next output cost }
    requires turn { IsTurn turn }
    ensures { IfOk result (StepsOn program.now course place (ready_term ready.now) turn loc.0) }
{
    let _ready = ready;
    if names_one(loc) {
        return Ok(Acted::Illegal);
    }
    if turn.is_end {
        let all = cost_with(&course, cost);
        return Ok(Acted::Last(course, all));
    }
    if !course.affords(cost) {
        return Ok(Acted::Passes);
    }
    let course = course.print(alloc, program, &place, &next, output, cost)?;
    let at = At::Form(next);
    let state = State { place, at };
    Ok(Acted::Goes(Going { course, state }))
}

// Whether a pick names a location.
fn names_one(loc: Loc) -> bool
    ensures { IsTrue result ↔ (loc.0 ≢ 0) }
{
    loc.0 != 0
}

// What all costs with this; nothing where that is above each fuel.
fn cost_with(course: &Execution, cost: u64) -> Option<u64>
    ensures { IsCost (course.now.spent + cost) result }
{
    course.spent().checked_add(cost)
}

fn asks(
    alloc: Global,
    program: &Program,
    course: Execution,
    turn: Turn,
    place: Place,
    ready: &Ready,
    loc: Loc,
    from: Loc,
    goes_by: Goes,
) -> Result<Acted, Memory>
    requires only { DoesOnly program.now course place (ready_term ready.now)
        (acts.asks from.0 (λ v. next_value goes_by v)) }
    requires turn { IsTurn turn }
    ensures { IfOk result (StepsOn program.now course place (ready_term ready.now) turn loc.0) }
{
    let _ready = ready;
    let value = match course.look(from) {
        None => return Ok(Acted::Illegal),
        Some(value) => value.share()?,
    };
    if names_one(loc) {
        return Ok(Acted::Illegal);
    }
    if turn.is_end {
        let all = cost_with(&course, 1);
        return Ok(Acted::Last(course, all));
    }
    if !course.affords(1) {
        return Ok(Acted::Passes);
    }
    let next = next_by(alloc, goes_by, &value)?;
    let course = course.read(alloc, program, &place, &next, from, &value)?;
    let at = At::Form(next);
    let state = State { place, at };
    Ok(Acted::Goes(Going { course, state }))
}

fn sets(
    alloc: Global,
    program: &Program,
    course: Execution,
    turn: Turn,
    place: Place,
    ready: &Ready,
    loc: Loc,
    to: Loc,
    value: Value,
) -> Result<Acted, Memory>
    requires only { DoesOnly program.now course place (ready_term ready.now)
        (acts.sets to.0 value) }
    requires turn { IsTurn turn }
    ensures { IfOk result (StepsOn program.now course place (ready_term ready.now) turn loc.0) }
{
    let _ready = ready;
    if names_one(loc) {
        return Ok(Acted::Illegal);
    }
    if course.look(to).is_none() {
        return Ok(Acted::Illegal);
    }
    if turn.is_end {
        let all = cost_with(&course, 1);
        return Ok(Acted::Last(course, all));
    }
    if !course.affords(1) {
        return Ok(Acted::Passes);
    }
    let next = Shared::new(alloc, Term::Value(Value::unit(alloc)?))?;
    let course = course.write(alloc, program, &place, &next, to, value)?;
    let at = At::Form(next);
    let state = State { place, at };
    Ok(Acted::Goes(Going { course, state }))
}

fn makes_some(
    alloc: Global,
    program: &Program,
    course: Execution,
    turn: Turn,
    place: Place,
    ready: &Ready,
    loc: Loc,
    makes: Makes,
) -> Result<Acted, Memory>
    requires only { DoesOnly program.now course place (ready_term ready.now)
        (acts.makes (values_of makes) (λ l. term_of makes l) (making_cost makes)) }
    requires turn { IsTurn turn }
    ensures { IfOk result (StepsOn program.now course place (ready_term ready.now) turn loc.0) }
{
    let _ready = ready;
    let cost = makes.cost();
    if !are_free(&course, loc, makes_count(&makes)) {
        return Ok(Acted::Illegal);
    }
    if turn.is_end {
        let all = cost_with(&course, cost);
        return Ok(Acted::Last(course, all));
    }
    if !course.affords(cost) {
        return Ok(Acted::Passes);
    }
    let values = new_values(alloc, &makes)?;
    let next = made_by(alloc, makes, loc)?;
    let course = course.make_at(alloc, program, &place, &next, &values, loc, cost)?;
    let at = At::Form(next);
    let state = State { place, at };
    Ok(Acted::Goes(Going { course, state }))
}

// Whether so many locations from one on are below 2 to the 64, and none of them is there. Behind
// all that are there none is looked for.
fn are_free(course: &Execution, loc: Loc, count: u64) -> bool
    requires { NothingFrom course.now.fresh (seen (levels_of course.now.layers)) }
    ensures { IsTrue result
        ↔ ((loc.0 + count ≤ 2 ^ 64) × AreFree loc.0 count (seen (levels_of course.now.layers))) }
{
    for at in 0..count {
        if is_behind(course, loc, at) {
            return have_numbers(loc, count);
        }
        if !is_free(course, loc, at) {
            return false;
        }
    }
    true
}

// Whether the location so far behind one is behind all that are there.
fn is_behind(course: &Execution, loc: Loc, at: u64) -> bool
    ensures { IsTrue result ↔ (course.now.fresh ≤ loc.0 + «at») }
{
    course.fresh() <= loc.0 as u128 + at as u128
}

// Whether so many locations from one on, one at least, are below 2 to the 64.
fn have_numbers(loc: Loc, count: u64) -> bool
    requires { 0 < count }
    ensures { IsTrue result ↔ (loc.0 + count ≤ 2 ^ 64) }
{
    match loc.0.checked_add(count - 1) {
        None => false,
        Some(_last) => true,
    }
}

// Whether the location so far behind one is below 2 to the 64, and isn't there.
fn is_free(course: &Execution, loc: Loc, at: u64) -> bool
    ensures { IsTrue result
        ↔ ((loc.0 + «at» < 2 ^ 64) × (seen (levels_of course.now.layers) (loc.0 + «at») ≡ None)) }
{
    match loc.0.checked_add(at) {
        None => false,
        Some(here) => course.look(Loc(here)).is_none(),
    }
}

// A step of `abort()`: it ends an attempt's machine, and is a throw in the root's.
fn aborts(
    alloc: Global,
    program: &Program,
    course: Execution,
    turn: Turn,
    place: Place,
    ready: &Ready,
    loc: Loc,
) -> Result<Acted, Memory>
    requires only { DoesOnly program.now course place (ready_term ready.now) acts.ends }
    requires turn { IsTurn turn }
    ensures { IfOk result (StepsOn program.now course place (ready_term ready.now) turn loc.0) }
{
    match course.turn() {
        Some(_taken) => abort_attempt(alloc, program, course, turn, place, ready, loc),
        None => match single(program, program.built_in.abort_outside) {
            None => Ok(Acted::Illegal),
            Some(value) => {
                let value = Shared::new(alloc, Term::Value(value))?;
                let next = Shared::new(alloc, Term::Throw(value))?;
                let output = List::new(alloc);
                turns(
                    alloc, program, course, turn, place, ready, loc, next, output, 1,
                )
            }
        },
    }
}

fn abort_attempt(
    alloc: Global,
    program: &Program,
    course: Execution,
    turn: Turn,
    place: Place,
    ready: &Ready,
    loc: Loc,
) -> Result<Acted, Memory>
    requires inside { course.outer ≢ [] }
    requires only { DoesOnly program.now course place (ready_term ready.now) acts.ends }
    requires turn { IsTurn turn }
    ensures { IfOk result (StepsOn program.now course place (ready_term ready.now) turn loc.0) }
{
    let _ready = ready;
    if names_one(loc) {
        return Ok(Acted::Illegal);
    }
    if !turn.is_last {
        return Ok(Acted::Illegal);
    }
    if turn.is_end {
        let all = cost_with(&course, 1);
        return Ok(Acted::Last(course, all));
    }
    if !course.affords(1) {
        return Ok(Acted::Passes);
    }
    match course.abort(alloc, program, &place)? {
        None => Ok(Acted::Unclosed),
        Some(going) => Ok(Acted::Leaves(going)),
    }
}
