//! One pick of the root's machine, with all picks within.
ghost use Rattle.std.specs.Prelude.{◌≡◌, ◌&&◌, ◌++◌, ◌∷◌, ◌<◌, length, slice_get, Some, [], IfOk};
ghost use Rattle.fort_machine.specs.Written.{WrittenProgram};
ghost use Rattle.fort_walk_course.specs.Courses.{IsGoing};
ghost use Rattle.fort_plain.specs.Within.{GoesWithin, IsAttempt, IsHere, IsLeft, IsSourceOf, IsWithin, LeavesLess, Takes, TakesOn};

use crate::act::{Acted, Turn, act};
use crate::attempts::close;
use fort_base::{List, Memory};
use fort_core::{Pick, Program};
use fort_walk_course::{Execution, Going};
use std::alloc::Global;

/// What a pick of the root's machine comes to.
#[derive(Drop)]
pub enum Taken {
    /// The root's machine goes on.
    Out(Going),
    /// It isn't legal, or makes a location of 2 to the 64 or more.
    Illegal,
    /// It costs more than what is left of the fuel.
    Passes,
    /// The last of all is legal, or begun, and isn't carried out to its end: the run with the
    /// attempts that are open, and what all costs with it; `None` where that is 2 to the 64 or
    /// more, which is above each fuel.
    Last(Execution, Option<u64>),
}

/// The picks of an attempt.
#[derive(Drop)]
pub struct Source<'a> {
    pub picks: &'a [Pick],
    /// Whether the attempt may be left unfinished: it is the last pick of all, and passes the fuel.
    pub ajar: bool,
}

/// A run within attempts: the innermost one's picks, and those of the attempts round it, the
/// outermost one's first.
#[derive(Drop)]
pub struct Within<'a> {
    pub going: Going,
    pub source: Source<'a>,
    pub outer: List<Source<'a>>,
}

/// After one pick within.
#[derive(Drop)]
pub enum Next<'a> {
    Goes(Within<'a>),
    Ends(Taken),
}

/// Takes a pick of the root's machine. Where it may be left unfinished (`ajar`) it is the last of
/// all: then it isn't carried out to its end.
///
/// # Errors
///
/// `Memory` where memory is wanting.
pub fn take(
    alloc: Global,
    program: &Program,
    going: Going,
    pick: &Pick,
    ajar: bool,
) -> Result<Taken, Memory>
    requires written { WrittenProgram program.now }
    requires going { IsGoing program.now going }
    requires outside { going.course.outer ≡ [] }
    ensures { IfOk result (Takes program.now going.course.fuel ajar going.course.picks pick.now) }
{
    let mut next = first(alloc, program, going, pick, ajar)?;
    'turns: loop {
        match next {
            Next::Goes(within) => next = go(alloc, program, within)?,
            Next::Ends(taken) => return Ok(taken),
        }
    }
}

// The pick itself: a step, or an attempt that begins.
fn first<'a>(
    alloc: Global,
    program: &Program,
    going: Going,
    pick: &'a Pick,
    ajar: bool,
) -> Result<Next<'a>, Memory>
    requires written { WrittenProgram program.now }
    requires going { IsGoing program.now going }
    requires outside { going.course.outer ≡ [] }
    ensures { IfOk result (TakesOn program.now going.course.fuel ajar going.course.picks pick.now) }
{
    let turn = Turn {
        is_last: true,
        is_end: ajar,
    };
    match act(alloc, program, going, turn, pick)? {
        Acted::Goes(going) => Ok(Next::Ends(Taken::Out(going))),
        Acted::Opens(going) => {
            let source = within_of(pick, ajar);
            let outer = List::new(alloc);
            Ok(Next::Goes(Within {
                going,
                source,
                outer,
            }))
        }
        Acted::Leaves(_going) => unreachable!(),
        Acted::Unclosed => unreachable!(),
        Acted::Illegal => Ok(Next::Ends(Taken::Illegal)),
        Acted::Passes => Ok(Next::Ends(Taken::Passes)),
        Acted::Last(course, cost) => Ok(Next::Ends(Taken::Last(course, cost))),
    }
}

// The picks of an attempt.
fn within_of<'a>(pick: &'a Pick, ajar: bool) -> Source<'a>
    requires { IsAttempt pick.now }
    ensures { IsSourceOf pick.now ajar result }
{
    match pick {
        Pick::Step(_, _) => unreachable!(),
        Pick::Attempt(_, within) => Source {
            picks: within.as_slice(),
            ajar,
        },
    }
}

// One pick within, or the end of the innermost attempt.
fn go<'a>(alloc: Global, program: &Program, within: Within<'a>) -> Result<Next<'a>, Memory>
    requires written { WrittenProgram program.now }
    requires within { IsWithin program.now within }
    ensures goes { IfOk result (GoesWithin program.now within.entry) }
    ensures less { IfOk result (LeavesLess within.entry) }
{
    let at = within.going.course.get().picks.len();
    let picks = within.source.picks;
    match picks.get(at) {
        Some(pick) => one(alloc, program, within, pick, picks.len() - at == 1),
        None => end(alloc, program, within),
    }
}

// One pick within.
fn one<'a>(
    alloc: Global,
    program: &Program,
    within: Within<'a>,
    pick: &'a Pick,
    is_last: bool,
) -> Result<Next<'a>, Memory>
    requires written { WrittenProgram program.now }
    requires within { IsWithin program.now within }
    requires here { IsHere within pick.now is_last }
    ensures goes { IfOk result (GoesWithin program.now within.entry) }
    ensures less { IfOk result (LeavesLess within.entry) }
{
    let Within {
        going,
        source,
        outer,
    } = within;
    let is_end = ends_all(source.ajar, is_last);
    let turn = Turn { is_last, is_end };
    match act(alloc, program, going, turn, pick)? {
        Acted::Goes(going) => Ok(Next::Goes(Within {
            going,
            source,
            outer,
        })),
        Acted::Opens(going) => {
            let inner = within_of(pick, is_end);
            let mut outer = outer;
            outer.push(source)?;
            Ok(Next::Goes(Within {
                going,
                source: inner,
                outer,
            }))
        }
        Acted::Leaves(going) => Ok(leave(going, outer)),
        Acted::Unclosed => Ok(Next::Ends(Taken::Illegal)),
        Acted::Illegal => Ok(Next::Ends(Taken::Illegal)),
        Acted::Passes => Ok(Next::Ends(Taken::Passes)),
        Acted::Last(course, cost) => Ok(Next::Ends(Taken::Last(course, cost))),
    }
}

// Whether the last pick of a machine is the last of all.
fn ends_all(ajar: bool, is_last: bool) -> bool
    ensures { result ≡ (ajar && is_last) }
{
    ajar && is_last
}

// Out of the innermost attempt, which ended: to the machine round it.
fn leave<'a>(going: Going, outer: List<Source<'a>>) -> Next<'a>
    ensures { IsLeft going outer.entry result }
{
    let mut outer = outer;
    match outer.pop() {
        None => Next::Ends(Taken::Out(going)),
        Some(source) => Next::Goes(Within {
            going,
            source,
            outer,
        }),
    }
}

// The end of the innermost attempt, which has no more picks.
fn end<'a>(alloc: Global, program: &Program, within: Within<'a>) -> Result<Next<'a>, Memory>
    requires within { IsWithin program.now within }
    requires over { within.source.picks.now ≡ within.going.course.picks }
    ensures goes { IfOk result (GoesWithin program.now within.entry) }
    ensures less { IfOk result (LeavesLess within.entry) }
{
    let Within {
        going,
        source,
        outer,
    } = within;
    if source.ajar {
        let Going {
            course,
            state: _state,
        } = going;
        let cost = course.spent();
        return Ok(Next::Ends(Taken::Last(course, Some(cost))));
    }
    match close(alloc, program, going)? {
        None => Ok(Next::Ends(Taken::Illegal)),
        Some(going) => Ok(leave(going, outer)),
    }
}
