//! How terms and values are let go.
//!
//! A term is let go by a loop that takes no memory, whatever its depth. What waits stands in the
//! box of the part that goes first: the other parts of a form, with what waits behind them, are put
//! there as one term, and the loop goes on with what stood in the box. A part that somebody else
//! has too isn't gone into. Values, functions, clauses and marks go by calls, as deep as they stand
//! in one another, which the language bounds. Each part is gone into once, and what waits comes
//! after the others, so that the time is linear in what is in the term.
ghost use Rattle.std.specs.Prelude.{◌≡◌, ◌+◌, ◌<◌, IfSome, IsPermutation, length};
ghost use Rattle.fort_core.specs.Weights.{Sheds, each, spent_weight, waits, weight};

use crate::term::Term;
use crate::value::Value;
use fort_base::{List, Shared};

/// A term that goes next, and what waits meanwhile.
pub struct Left {
    pub hand: Term,
    pub waiting: Option<Shared<Term>>,
}

/// What goes by a call.
pub enum Spent {
    Nothing,
    Part(Shared<Term>),
    Held(Value),
}

/// What is left once a form was taken apart, and what goes at once.
pub struct Shed {
    pub left: Option<Left>,
    pub spent: Spent,
}

// What waits goes next.
fn next(waiting: Option<Shared<Term>>) -> Option<Left>
    ensures { IfSome result (λ left. (waiting ≡ Some left.hand) × (left.waiting ≡ None)) }
{
    match waiting?.last() {
        None => None,
        Some(hand) => Some(Left {
            hand,
            waiting: None,
        }),
    }
}

/// A form without parts goes, and then what waits.
pub fn spend(spent: Spent, waiting: Option<Shared<Term>>) -> Shed
    ensures { Sheds (spent_weight spent + waits waiting) (spent_weight spent) result }
{
    Shed {
        left: next(waiting),
        spent,
    }
}

/// The only part of a term goes next.
pub fn one(part: Shared<Term>, waiting: Option<Shared<Term>>) -> Shed
    ensures { Sheds (weight part + 1 + waits waiting) (weight part + 1) result }
{
    let left = match part.last() {
        None => next(waiting),
        Some(hand) => Some(Left { hand, waiting }),
    };
    Shed {
        left,
        spent: Spent::Nothing,
    }
}

/// The first of two parts goes next.
pub fn two(first: Shared<Term>, second: Shared<Term>, waiting: Option<Shared<Term>>) -> Shed
    ensures { Sheds (weight first + 1 + (weight second + 1) + waits waiting)
        (weight first + 1 + (weight second + 1)) result }
{
    match waiting {
        None => one(first, Some(second)),
        Some(waiting) => put(first, Term::Then(second, waiting)),
    }
}

/// The first of three parts goes next.
pub fn three(
    first: Shared<Term>,
    second: Shared<Term>,
    third: Shared<Term>,
    waiting: Option<Shared<Term>>,
) -> Shed
    ensures { Sheds (weight first + 1 + (weight second + 1) + (weight third + 1) + waits waiting)
        (weight first + 1 + (weight second + 1) + (weight third + 1)) result }
{
    match waiting {
        None => put(first, Term::Then(second, third)),
        Some(waiting) => put(first, Term::If(second, third, waiting)),
    }
}

/// The last of a list of parts goes next; what waits takes its room, and goes behind the others.
pub fn many(mut parts: List<Shared<Term>>, waiting: Option<Shared<Term>>) -> Shed
    ensures { Sheds (each weight parts + waits waiting) (each weight parts) result }
{
    if parts.is_empty() {
        parts.destroy_empty();
        return spend(Spent::Nothing, waiting);
    }
    match waiting {
        None => last_of(parts),
        Some(waiting) => {
            let last = parts.replace_last(waiting);
            put(last, Term::Group(last_to_front(parts)))
        }
    }
}

// What waits stands at the front of such a list, so that it is gone into once, and at the end.
fn last_of(mut parts: List<Shared<Term>>) -> Shed
    ensures { Sheds (each weight parts) (each weight parts) result }
{
    match parts.pop() {
        None => {
            parts.destroy_empty();
            spend(Spent::Nothing, None)
        }
        Some(last) => {
            if parts.is_empty() {
                parts.destroy_empty();
                one(last, None)
            } else {
                put(last, Term::Group(parts))
            }
        }
    }
}

/// The last item and the first one change places.
pub fn last_to_front<T>(list: List<T>) -> List<T>
    requires { 0 < length list }
    ensures { IsPermutation list result }
{
    let mut items = list.into_vec();
    let last = items.len() - 1;
    items.swap(0, last);
    List::from_vec(items)
}

// A part goes next, and the others wait in its box where nobody else has it; else they go next. The
// part goes by a call then, since somebody else may have let it go meanwhile.
fn put(mut part: Shared<Term>, others: Term) -> Shed
    ensures { Sheds (weight part + 1 + weight others) (weight part + 1) result }
{
    match part.replace(others) {
        Ok(hand) => Shed {
            left: Some(Left {
                hand,
                waiting: Some(part),
            }),
            spent: Spent::Nothing,
        },
        Err(others) => Shed {
            left: Some(Left {
                hand: others,
                waiting: None,
            }),
            spent: Spent::Part(part),
        },
    }
}

#[cycle(core)]
pub fn drop_spent(spent: Spent) {
    match spent {
        Spent::Nothing => {}
        Spent::Part(part) => {
            let _term = part.last();
        }
        Spent::Held(_value) => {}
    }
}

#[cycle(core)]
pub fn drop_values(mut values: List<Value>) {
    while let Some(_value) = values.pop() {}
    values.destroy_empty();
}

#[cycle(core)]
pub fn drop_held(mut held: List<(u32, Value)>) {
    while let Some((_variable, _value)) = held.pop() {}
    held.destroy_empty();
}
