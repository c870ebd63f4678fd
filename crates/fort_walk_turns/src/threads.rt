//! A thread that has its step.
ghost use Rattle.std.specs.Prelude.{◌≡◌, ◌≢◌, ◌↔◌, ◌+◌, ◌<◌, ◌^◌, IfOk, IsSome, IsTrue, Some};
ghost use Rattle.fort_core.specs.declared.term.Term as a_term;
ghost use Rattle.fort_step_deal.specs.declared.deal.Deal.TheVariants as deals;
ghost use Rattle.fort_step_deal.specs.Deals.{making_cost, made_by as term_of, new_values as values_of};
ghost use Rattle.fort_step_deal.specs.Deals.{next_by as next_value};
ghost use Rattle.fort_machine.specs.Acts as acts;
ghost use Rattle.fort_machine.specs.Effects.{printed, reading, writing};
ghost use Rattle.fort_store_effects.specs.Levels.{levels_of, seen};
ghost use Rattle.fort_machine.specs.Steps.{Acts};
ghost use Rattle.fort_machine.specs.Written.{WrittenProgram};
ghost use Rattle.fort_frames_moves.specs.Turns.{IsMade, ready_term};
ghost use Rattle.fort_walk_course.specs.Calls.{MayStep, PassesAt};
ghost use Rattle.fort_step_acting.specs.Only.{IsDealt, OnlyDoes};
ghost use Rattle.fort_disp.specs.Rows.{MayPick};
ghost use Rattle.fort_walk_turns.specs.Defined.{AlwaysOne};
ghost use Rattle.fort_walk_turns.specs.Grows.{Onward};
ghost use Rattle.fort_walk_turns.specs.Idles.{Follows, IsAtThread, TouchesStore};

use crate::attempts::abort;
use crate::next::{Next, left, picked};
use crate::sweep::Sweep;
use crate::walked::Walked;
use fort_base::{Bytes, List, Loc, Memory, Shared};
use fort_core::{Program, Term, Value};
use fort_disp::Tables;
use fort_frames::Place;
use fort_frames_moves::Ready;
use fort_step_acting::{acting_by, made_by, makes_count, new_values, next_by};
use fort_step_deal::{Deal, Goes, Makes};
use fort_walk_course::Execution;
use std::alloc::Global;

/// A thread takes its step, or its turn is over, or it has no step. A call's declaration is found
/// by the program's tables.
pub fn at_thread(
    alloc: Global,
    tables: &Tables,
    course: Execution,
    sweep: Sweep,
    place: Place,
    ready: Ready,
) -> Result<Next, Memory>
    requires written { WrittenProgram tables.now.program.now }
    requires tables { MayPick tables.now }
    requires one { AlwaysOne tables.now.program.now }
    requires thread { IsAtThread tables.now.program.now course sweep place (ready_term ready) }
    requires made { IsMade ready }
    ensures follows { IfOk result (Follows tables.now.program.now course.fuel) }
    ensures grows { IfOk result (Onward course) }
{
    let program = tables.program;
    if sweep.is_over(&place) {
        return Ok(left(program, course, sweep.passed(), place, ready.term(alloc)?));
    }
    let deal = acting_by(alloc, tables, &ready)?;
    dealt(alloc, program, course, sweep, place, ready, deal)
}

// What its form does is done.
fn dealt(
    alloc: Global,
    program: &Program,
    course: Execution,
    sweep: Sweep,
    place: Place,
    ready: Ready,
    deal: Deal,
) -> Result<Next, Memory>
    requires written { WrittenProgram program.now }
    requires thread { IsAtThread program.now course sweep place (ready_term ready) }
    requires made { IsMade ready }
    requires dealt { IsDealt program.now (ready_term ready) deal }
    ensures follows { IfOk result (Follows program.now course.fuel) }
    ensures grows { IfOk result (Onward course) }
{
    if is_stuck(&deal) {
        return stays(alloc, program, course, sweep, place, ready);
    }
    goes_on(alloc, program, course, sweep, place, ready, deal)
}

fn is_stuck(deal: &Deal) -> bool
    ensures { IsTrue result ↔ (deal.now ≡ deals.Stuck) }
{
    match deal {
        Deal::Stuck => true,
        _ => false,
    }
}

// It has no step.
#[inline(never)]
fn stays(
    alloc: Global,
    program: &Program,
    course: Execution,
    sweep: Sweep,
    place: Place,
    ready: Ready,
) -> Result<Next, Memory>
    requires thread { IsAtThread program.now course sweep place (ready_term ready) }
    requires made { IsMade ready }
    requires stuck { OnlyDoes program.now (ready_term ready) acts.stuck }
    ensures follows { IfOk result (Follows program.now course.fuel) }
    ensures grows { IfOk result (Onward course) }
{
    Ok(left(
        program,
        course,
        sweep.met_stuck(),
        place,
        ready.term(alloc)?,
    ))
}

// It goes on as a term, or touches the store.
fn goes_on(
    alloc: Global,
    program: &Program,
    course: Execution,
    sweep: Sweep,
    place: Place,
    ready: Ready,
    deal: Deal,
) -> Result<Next, Memory>
    requires written { WrittenProgram program.now }
    requires thread { IsAtThread program.now course sweep place (ready_term ready) }
    requires made { IsMade ready }
    requires dealt { IsDealt program.now (ready_term ready) deal }
    requires moves { deal ≢ deals.Stuck }
    ensures follows { IfOk result (Follows program.now course.fuel) }
    ensures grows { IfOk result (Onward course) }
{
    match deal {
        Deal::Turns(next, output, cost) => {
            turns(alloc, program, course, sweep, place, next, output, cost)
        }
        Deal::Enters(_, next) => {
            turns(
                alloc,
                program,
                course,
                sweep,
                place,
                next,
                List::new(alloc),
                1,
            )
        }
        other => touches(alloc, program, course, sweep, place, ready, other),
    }
}

// It looks at the store, or ends its machine.
fn touches(
    alloc: Global,
    program: &Program,
    course: Execution,
    sweep: Sweep,
    place: Place,
    ready: Ready,
    deal: Deal,
) -> Result<Next, Memory>
    requires thread { IsAtThread program.now course sweep place (ready_term ready) }
    requires made { IsMade ready }
    requires dealt { IsDealt program.now (ready_term ready) deal }
    requires store { TouchesStore deal }
    ensures follows { IfOk result (Follows program.now course.fuel) }
    ensures grows { IfOk result (Onward course) }
{
    match deal {
        Deal::Asks(loc, goes) => asks(alloc, program, course, sweep, place, ready, loc, goes),
        Deal::Sets(loc, value) => sets(alloc, program, course, sweep, place, ready, loc, value),
        Deal::Makes(makes) => makes_some(alloc, program, course, sweep, place, ready, makes),
        Deal::Ends => abort(alloc, program, course, sweep, place, ready),
        _ => unreachable!(),
    }
}

/// It goes on as a term, with a text that it prints, at a cost.
#[inline(never)]
pub fn turns(
    alloc: Global,
    program: &Program,
    course: Execution,
    sweep: Sweep,
    place: Place,
    next: Shared<Term>,
    output: Bytes,
    cost: u64,
) -> Result<Next, Memory>
    requires may { MayStep program.now course place 0 next (printed output cost) }
    ensures follows { IfOk result (Follows program.now course.fuel) }
    ensures grows { IfOk result (Onward course) }
{
    if !course.affords(cost) {
        return out_at(alloc, program, course, &place, Loc(0));
    }
    let course = course.print(alloc, program, &place, &next, output, cost)?;
    Ok(picked(program, course, sweep, place, next))
}

// The fuel is out at a step.
#[inline(never)]
fn out_at(
    alloc: Global,
    program: &Program,
    course: Execution,
    place: &Place,
    loc: Loc,
) -> Result<Next, Memory>
    requires { PassesAt program.now course place.now loc.0 }
    ensures follows { IfOk result (Follows program.now course.fuel) }
    ensures grows { IfOk result (Onward course) }
{
    let ran = course.end_at_step(alloc, program, place, loc)?;
    Ok(Next::Ends(Walked::Ran(ran)))
}

#[inline(never)]
fn asks(
    alloc: Global,
    program: &Program,
    course: Execution,
    sweep: Sweep,
    place: Place,
    ready: Ready,
    loc: Loc,
    goes: Goes,
) -> Result<Next, Memory>
    requires thread { IsAtThread program.now course sweep place (ready_term ready) }
    requires made { IsMade ready }
    requires acts { Acts program.now (ready_term ready) (acts.asks loc.0 (λ v. next_value goes v)) }
    requires only { OnlyDoes program.now (ready_term ready)
        (acts.asks loc.0 (λ v. next_value goes v)) }
    ensures follows { IfOk result (Follows program.now course.fuel) }
    ensures grows { IfOk result (Onward course) }
{
    let value = match course.look(loc) {
        None => return Ok(left(
            program,
            course,
            sweep.met_stuck(),
            place,
            ready.term(alloc)?,
        )),
        Some(value) => value.share()?,
    };
    reads(alloc, program, course, sweep, place, loc, goes, value)
}

// The value at a location is read, or the fuel is out.
fn reads(
    alloc: Global,
    program: &Program,
    course: Execution,
    sweep: Sweep,
    place: Place,
    loc: Loc,
    goes: Goes,
    value: Value,
) -> Result<Next, Memory>
    requires may { (next : a_term.Term) → next ≡ next_value goes value
        → MayStep program.now course place 0 next (reading loc.0 value) }
    requires there { seen (levels_of course.layers) loc.0 ≡ Some value }
    ensures follows { IfOk result (Follows program.now course.fuel) }
    ensures grows { IfOk result (Onward course) }
{
    if !course.affords(1) {
        return out_at(alloc, program, course, &place, Loc(0));
    }
    let next = next_by(alloc, goes, &value)?;
    let course = course.read(alloc, program, &place, &next, loc, &value)?;
    Ok(picked(program, course, sweep, place, next))
}

#[inline(never)]
fn sets(
    alloc: Global,
    program: &Program,
    course: Execution,
    sweep: Sweep,
    place: Place,
    ready: Ready,
    loc: Loc,
    value: Value,
) -> Result<Next, Memory>
    requires thread { IsAtThread program.now course sweep place (ready_term ready) }
    requires made { IsMade ready }
    requires acts { Acts program.now (ready_term ready) (acts.sets loc.0 value) }
    requires only { OnlyDoes program.now (ready_term ready) (acts.sets loc.0 value) }
    ensures follows { IfOk result (Follows program.now course.fuel) }
    ensures grows { IfOk result (Onward course) }
{
    if course.look(loc).is_none() {
        return Ok(left(
            program,
            course,
            sweep.met_stuck(),
            place,
            ready.term(alloc)?,
        ));
    }
    writes(alloc, program, course, sweep, place, loc, value)
}

// A location that is there is written, or the fuel is out.
fn writes(
    alloc: Global,
    program: &Program,
    course: Execution,
    sweep: Sweep,
    place: Place,
    loc: Loc,
    value: Value,
) -> Result<Next, Memory>
    requires may { (next : a_term.Term) → next ≡ a_term.Value acts.unit
        → MayStep program.now course place 0 next (writing loc.0 value) }
    requires there { IsSome (seen (levels_of course.layers) loc.0) }
    ensures follows { IfOk result (Follows program.now course.fuel) }
    ensures grows { IfOk result (Onward course) }
{
    if !course.affords(1) {
        return out_at(alloc, program, course, &place, Loc(0));
    }
    let next = Shared::new(alloc, Term::Value(Value::unit(alloc)?))?;
    let course = course.write(alloc, program, &place, &next, loc, value)?;
    Ok(picked(program, course, sweep, place, next))
}

// Locations are made behind all others.
#[inline(never)]
fn makes_some(
    alloc: Global,
    program: &Program,
    course: Execution,
    sweep: Sweep,
    place: Place,
    ready: Ready,
    makes: Makes,
) -> Result<Next, Memory>
    requires thread { IsAtThread program.now course sweep place (ready_term ready) }
    requires acts { Acts program.now (ready_term ready)
        (acts.makes (values_of makes) (λ l. term_of makes l) (making_cost makes)) }
    ensures follows { IfOk result (Follows program.now course.fuel) }
    ensures grows { IfOk result (Onward course) }
{
    let _ready = ready;
    let cost = makes.cost();
    let fresh = course.fresh();
    let count = makes_count(&makes);
    if !has_room(fresh, count) {
        return Err(Memory);
    }
    let loc = Loc(fresh as u64);
    if !course.affords(cost) {
        return out_at(alloc, program, course, &place, loc);
    }
    let values = new_values(alloc, &makes)?;
    let next = made_by(alloc, makes, loc)?;
    let course = course.make(alloc, program, &place, &next, &values, cost)?;
    Ok(picked(program, course, sweep, place, next))
}

// Whether so many locations from one on have numbers.
fn has_room(first: u128, count: u64) -> bool
    ensures { IsTrue result → first + count < 2 ^ 64 }
{
    match u64::try_from(first) {
        Err(_) => false,
        Ok(first) => match first.checked_add(count) {
            None => false,
            Some(_) => true,
        },
    }
}
