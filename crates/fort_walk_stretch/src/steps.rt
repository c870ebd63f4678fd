//! The step of a thread.
ghost use Rattle.std.specs.Prelude.{◌≡◌, ◌+◌, ◌<◌, ◌≤◌, ◌^◌, false, length, IfOk, IsSome, IsTrue, None, Some};
ghost use Rattle.std.specs.Option.{option_copied};
ghost use Rattle.fort_core.specs.declared.term.Term as a_term;
ghost use Rattle.fort_step_deal.specs.Deals.{making_cost, made_by as term_of, new_values as values_of};
ghost use Rattle.fort_step_deal.specs.Deals.{next_by as next_value};
ghost use Rattle.fort_machine.specs.Acts as acts;
ghost use Rattle.fort_machine.specs.Attempts.{Ready as IsReady};
ghost use Rattle.fort_machine.specs.Effects.{afterwards, making, printed, reading, writing};
ghost use Rattle.fort_machine.specs.Steps.{Acts, or_unit};
ghost use Rattle.fort_machine.specs.Written.{WrittenProgram};
ghost use Rattle.fort_store_effects.specs.Calls.{AreFree};
ghost use Rattle.fort_store_effects.specs.Levels.{effect_of, levels_of, seen};
ghost use Rattle.fort_frames_moves.specs.Turns.{IsMade, ready_term};
ghost use Rattle.fort_step_acting.specs.Only.{IsDealt};
ghost use Rattle.fort_walk_stretch.specs.Stretches.{AreLeft, Follows, HasRoom, IsOn, MayTake, price};

use crate::in_turn::left_out;
use crate::leg::Room;
use crate::stretch::{Stretch, Turned};
use fort_base::{Bytes, List, Loc, Memory, Shared};
use fort_core::{Program, Term, Value};
use fort_frames::{At, Place, State};
use fort_frames_moves::Ready;
use fort_step_acting::{made_by, makes_count, new_values, next_by};
use fort_step_deal::{Deal, Goes, Makes};
use fort_store_effects::Layers;
use std::alloc::Global;

/// Whether there is no room for what a deal costs, or makes behind what was done so far.
pub(crate) fn wants_room(deal: &Deal, stretch: &Stretch, view: &Layers, room: Room) -> bool
    ensures { (result ≡ false)
        → HasRoom (seen (levels_of view.now)) room stretch.now deal.now }
{
    if !stretch.affords(room, price_of(deal)) {
        return true;
    }
    match deal {
        Deal::Makes(makes) => !has_numbers(stretch, view, makes_count(makes), room.until),
        _ => false,
    }
}

// What a deal costs, where it is a step.
fn price_of(deal: &Deal) -> u64
    ensures { result ≡ price deal.now }
{
    match deal {
        Deal::Turns(_, _, cost) => *cost,
        Deal::Makes(makes) => makes.cost(),
        _ => 1,
    }
}

// Whether so many numbers are left, and no location has one of them.
fn has_numbers(stretch: &Stretch, view: &Layers, count: u64, until: u64) -> bool
    ensures { IsTrue result
        → AreLeft (afterwards (effect_of stretch.now.done) (seen (levels_of view.now)))
        stretch.now.fresh count until }
{
    match stretch.fresh.checked_add(count) {
        None => false,
        Some(behind) => behind <= until && are_free(stretch, view, count),
    }
}

// Whether no location has one of so many numbers.
fn are_free(stretch: &Stretch, view: &Layers, count: u64) -> bool
    requires { stretch.now.fresh + count < 2 ^ 64 }
    ensures { IsTrue result
        → AreFree stretch.now.fresh count
        (afterwards (effect_of stretch.now.done) (seen (levels_of view.now))) }
{
    for next in 0..count {
        if is_there(stretch, view, stretch.fresh + next) {
            return false;
        }
    }
    true
}

// Whether there is a location of a number.
fn is_there(stretch: &Stretch, view: &Layers, number: u64) -> bool
    ensures { (result ≡ false)
        → (afterwards (effect_of stretch.now.done) (seen (levels_of view.now)) number ≡ None) }
{
    stretch.done.look(view, Loc(number)).is_some()
}

/// What a thread's form does is done; what can't be done beside the run isn't.
pub(crate) fn take(
    alloc: Global,
    program: &Program,
    view: &Layers,
    inner: bool,
    room: Room,
    stretch: Stretch,
    place: Place,
    ready: Ready,
    deal: Deal,
) -> Result<Turned, Memory>
    requires written { WrittenProgram program.now }
    requires on { IsOn program.now inner (seen (levels_of view.now)) room stretch place
        (ready_term ready) }
    requires thread { IsReady (ready_term ready) }
    requires made { IsMade ready }
    requires dealt { IsDealt program.now (ready_term ready) deal }
    requires room { HasRoom (seen (levels_of view.now)) room stretch deal }
    ensures { IfOk result
        (Follows program.now inner (seen (levels_of view.now)) stretch.first room) }
{
    match deal {
        Deal::Turns(next, output, cost) => {
            prints(
                alloc, program, view, inner, room, stretch, place, next, output, cost,
            )
        }
        Deal::Enters(_, next) => {
            let text = List::new(alloc);
            prints(
                alloc, program, view, inner, room, stretch, place, next, text, 1,
            )
        }
        other => touches(
            alloc, program, view, inner, room, stretch, place, ready, other,
        ),
    }
}

// It looks at the store, or can't be done beside the run.
fn touches(
    alloc: Global,
    program: &Program,
    view: &Layers,
    inner: bool,
    room: Room,
    stretch: Stretch,
    place: Place,
    ready: Ready,
    deal: Deal,
) -> Result<Turned, Memory>
    requires on { IsOn program.now inner (seen (levels_of view.now)) room stretch place
        (ready_term ready) }
    requires made { IsMade ready }
    requires dealt { IsDealt program.now (ready_term ready) deal }
    requires room { HasRoom (seen (levels_of view.now)) room stretch deal }
    ensures { IfOk result
        (Follows program.now inner (seen (levels_of view.now)) stretch.first room) }
{
    match deal {
        Deal::Asks(loc, goes) => {
            asks(
                alloc, program, view, inner, room, stretch, place, ready, loc, goes,
            )
        }
        Deal::Sets(loc, value) => {
            sets(
                alloc, program, view, inner, room, stretch, place, ready, loc, value,
            )
        }
        Deal::Makes(makes) => makes_some(alloc, program, view, inner, room, stretch, place, makes),
        _ => goes_past(alloc, program, view, inner, room, stretch, place, ready),
    }
}

// It takes no step here.
fn goes_past(
    alloc: Global,
    program: &Program,
    view: &Layers,
    inner: bool,
    room: Room,
    stretch: Stretch,
    place: Place,
    ready: Ready,
) -> Result<Turned, Memory>
    requires on { IsOn program.now inner (seen (levels_of view.now)) room stretch place
        (ready_term ready) }
    requires made { IsMade ready }
    ensures { IfOk result
        (Follows program.now inner (seen (levels_of view.now)) stretch.first room) }
{
    let form = ready.term(alloc)?;
    Ok(left_out(program, view, inner, room, stretch, place, form))
}

// It goes on as a term, with a text that it prints.
fn prints(
    alloc: Global,
    program: &Program,
    view: &Layers,
    inner: bool,
    room: Room,
    stretch: Stretch,
    place: Place,
    next: Shared<Term>,
    text: Bytes,
    cost: u64,
) -> Result<Turned, Memory>
    requires may { MayTake program.now inner (seen (levels_of view.now)) room stretch place 0 next
        (printed text cost) }
    requires affords { (effect_of stretch.done).cost + cost ≤ room.cost }
    ensures { IfOk result
        (Follows program.now inner (seen (levels_of view.now)) stretch.first room) }
{
    let _program = program;
    let _view = view;
    let _inner = inner;
    let _room = room;
    let mut stretch = stretch;
    stretch.done.print(text, cost)?;
    let stretch = stretch.picked(alloc, &place, Loc(0))?;
    let at = At::Form(next);
    Ok(Turned::Goes(stretch, State { place, at }))
}

// It reads a location, or none is there.
fn asks(
    alloc: Global,
    program: &Program,
    view: &Layers,
    inner: bool,
    room: Room,
    stretch: Stretch,
    place: Place,
    ready: Ready,
    loc: Loc,
    goes: Goes,
) -> Result<Turned, Memory>
    requires on { IsOn program.now inner (seen (levels_of view.now)) room stretch place
        (ready_term ready) }
    requires made { IsMade ready }
    requires acts { Acts program.now (ready_term ready)
        (acts.asks loc.0 (λ v. next_value goes v)) }
    requires affords { (effect_of stretch.done).cost + 1 ≤ room.cost }
    ensures { IfOk result
        (Follows program.now inner (seen (levels_of view.now)) stretch.first room) }
{
    let value = match stretch.done.look(view, loc) {
        None => return goes_past(alloc, program, view, inner, room, stretch, place, ready),
        Some(value) => value.share()?,
    };
    reads_by(
        alloc, program, view, inner, room, stretch, place, loc, goes, value,
    )
}

// It goes on by a value that is there.
fn reads_by(
    alloc: Global,
    program: &Program,
    view: &Layers,
    inner: bool,
    room: Room,
    stretch: Stretch,
    place: Place,
    loc: Loc,
    goes: Goes,
    value: Value,
) -> Result<Turned, Memory>
    requires may { (next : a_term.Term) → next ≡ next_value goes value
        → MayTake program.now inner (seen (levels_of view.now)) room stretch place 0 next
        (reading loc.0 value) }
    requires there { afterwards (effect_of stretch.done) (seen (levels_of view.now)) loc.0
        ≡ Some value }
    requires affords { (effect_of stretch.done).cost + 1 ≤ room.cost }
    ensures { IfOk result
        (Follows program.now inner (seen (levels_of view.now)) stretch.first room) }
{
    let next = next_by(alloc, goes, &value)?;
    reads(
        alloc, program, view, inner, room, stretch, place, next, loc, value,
    )
}

// It reads a value that is there.
fn reads(
    alloc: Global,
    program: &Program,
    view: &Layers,
    inner: bool,
    room: Room,
    stretch: Stretch,
    place: Place,
    next: Shared<Term>,
    loc: Loc,
    value: Value,
) -> Result<Turned, Memory>
    requires may { MayTake program.now inner (seen (levels_of view.now)) room stretch place 0 next
        (reading loc.0 value) }
    requires there { afterwards (effect_of stretch.done) (seen (levels_of view.now)) loc.0
        ≡ Some value }
    requires affords { (effect_of stretch.done).cost + 1 ≤ room.cost }
    ensures { IfOk result
        (Follows program.now inner (seen (levels_of view.now)) stretch.first room) }
{
    let _program = program;
    let _view = view;
    let _inner = inner;
    let _room = room;
    let mut stretch = stretch;
    stretch.done.read(loc, &value)?;
    let stretch = stretch.picked(alloc, &place, Loc(0))?;
    let at = At::Form(next);
    Ok(Turned::Goes(stretch, State { place, at }))
}

// It writes a location, or none is there.
fn sets(
    alloc: Global,
    program: &Program,
    view: &Layers,
    inner: bool,
    room: Room,
    stretch: Stretch,
    place: Place,
    ready: Ready,
    loc: Loc,
    value: Value,
) -> Result<Turned, Memory>
    requires on { IsOn program.now inner (seen (levels_of view.now)) room stretch place
        (ready_term ready) }
    requires made { IsMade ready }
    requires acts { Acts program.now (ready_term ready) (acts.sets loc.0 value) }
    requires affords { (effect_of stretch.done).cost + 1 ≤ room.cost }
    ensures { IfOk result
        (Follows program.now inner (seen (levels_of view.now)) stretch.first room) }
{
    if stretch.done.look(view, loc).is_none() {
        return goes_past(alloc, program, view, inner, room, stretch, place, ready);
    }
    let next = unit_term(alloc)?;
    writes(
        alloc, program, view, inner, room, stretch, place, next, loc, value,
    )
}

// `()`, as a term.
fn unit_term(alloc: Global) -> Result<Shared<Term>, Memory>
    ensures { IfOk result (λ term. term ≡ a_term.Value acts.unit) }
{
    Shared::new(alloc, Term::Value(Value::unit(alloc)?))
}

// It writes a location that is there.
fn writes(
    alloc: Global,
    program: &Program,
    view: &Layers,
    inner: bool,
    room: Room,
    stretch: Stretch,
    place: Place,
    next: Shared<Term>,
    loc: Loc,
    value: Value,
) -> Result<Turned, Memory>
    requires may { MayTake program.now inner (seen (levels_of view.now)) room stretch place 0 next
        (writing loc.0 value) }
    requires there { IsSome
        (afterwards (effect_of stretch.done) (seen (levels_of view.now)) loc.0) }
    requires affords { (effect_of stretch.done).cost + 1 ≤ room.cost }
    ensures { IfOk result
        (Follows program.now inner (seen (levels_of view.now)) stretch.first room) }
{
    let _program = program;
    let _view = view;
    let _inner = inner;
    let _room = room;
    let mut stretch = stretch;
    stretch.done.write(loc, value)?;
    let stretch = stretch.picked(alloc, &place, Loc(0))?;
    let at = At::Form(next);
    Ok(Turned::Goes(stretch, State { place, at }))
}

// It makes locations, with the numbers that are next in the room.
fn makes_some(
    alloc: Global,
    program: &Program,
    view: &Layers,
    inner: bool,
    room: Room,
    stretch: Stretch,
    place: Place,
    makes: Makes,
) -> Result<Turned, Memory>
    requires on { MayTake program.now inner (seen (levels_of view.now)) room stretch place
        stretch.fresh (term_of makes stretch.fresh)
        (making stretch.fresh (or_unit (values_of makes)) (making_cost makes)) }
    requires affords { (effect_of stretch.done).cost + making_cost makes ≤ room.cost }
    requires numbers { stretch.fresh + length (or_unit (values_of makes)) ≤ room.until }
    requires free { AreFree stretch.fresh (length (or_unit (values_of makes)))
        (afterwards (effect_of stretch.done) (seen (levels_of view.now))) }
    ensures { IfOk result
        (Follows program.now inner (seen (levels_of view.now)) stretch.first room) }
{
    let _program = program;
    let _view = view;
    let _inner = inner;
    let _room = room;
    let cost = makes.cost();
    let count = makes_count(&makes);
    let first = Loc(stretch.fresh);
    let values = new_values(alloc, &makes)?;
    let next = made_by(alloc, makes, first)?;
    let mut stretch = stretch;
    stretch.done.make(first, &values, cost)?;
    stretch.fresh += count;
    let stretch = stretch.picked(alloc, &place, first)?;
    let at = At::Form(next);
    Ok(Turned::Goes(stretch, State { place, at }))
}
