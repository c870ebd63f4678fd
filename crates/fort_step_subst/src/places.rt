//! A value or a location in the place of a variable.
ghost use Rattle.std.specs.Prelude.{map, IfOk, IsTrue};
ghost use Rattle.fort_step_subst.specs.Changes.{Changes, ChangesAll, ChangesClauses, ChangesLast};
ghost use Rattle.fort_step_subst.specs.Places.{function_placed, has_more_parts, has_one_part, has_two_parts, placed as placed_of};

use crate::functions::{holding, same_function, with_body};
use crate::groups::{group, same_group};
use crate::parts::{Clauses, choice, guarded, three, tried, two};
use crate::put::Put;
use crate::slots::{in_part, in_read, in_variable, in_write, shared_marks};
use fort_base::{List, Memory, Shared};
use fort_core::{Closure, Term};
use std::alloc::Global;

/// A term with a value or a location in the place of a variable, or `None` where that changes
/// nothing; what doesn't change is shared with the old term. It goes down the term by calls, into
/// the bodies of functions with a location. The chapter "Substitution".
///
/// # Errors
///
/// `Memory` where memory is wanting.
#[cycle(placed)]
#[tactic(auto, using(crate::proofs::Equations::substitution))]
pub fn placed(alloc: Global, term: &Term, put: &Put) -> Result<Option<Shared<Term>>, Memory>
    ensures { IfOk result (λ found. Changes (placed_of put.now) term.now found) }
{
    match term {
        Term::Value(_) => Ok(None),
        Term::Variable(other) => in_variable(alloc, *other, put),
        Term::Read(slot) => in_read(alloc, *slot, put),
        Term::Group(parts) => match in_all(alloc, parts, put)? {
            None => same_group(alloc, parts),
            Some(parts) => Ok(Some(Shared::new(alloc, group(alloc, parts)?)?)),
        },
        Term::Fn(closure) => in_function(alloc, closure, put),
        Term::Call(set, arguments) => match in_all(alloc, arguments, put)? {
            None => Ok(None),
            Some(arguments) => Ok(Some(Shared::new(alloc, Term::Call(*set, arguments))?)),
        },
        Term::Operator(set, operands) => match in_all(alloc, operands, put)? {
            None => Ok(None),
            Some(operands) => Ok(Some(Shared::new(alloc, Term::Operator(*set, operands))?)),
        },
        Term::Also(blocks) => match in_all(alloc, blocks, put)? {
            None => Ok(None),
            Some(blocks) => Ok(Some(Shared::new(alloc, Term::Also(blocks))?)),
        },
        Term::Throw(_)
        | Term::Write(_, _)
        | Term::ReadField(_, _)
        | Term::Size(_)
        | Term::Atomic(_, _)
        | Term::Asleep(_, _)
        | Term::Stepped(_) => in_one(alloc, term, put),
        Term::Apply(_, _)
        | Term::Fill(_, _, _)
        | Term::Let(_, _, _)
        | Term::Mutable(_, _, _, _)
        | Term::WriteField(_, _, _)
        | Term::ReadElement(_, _)
        | Term::Then(_, _)
        | Term::While(_, _)
        | Term::For(_, _, _, _, _)
        | Term::ForHalves(_, _)
        | Term::ReduceHalves(_, _, _) => in_two(alloc, term, put),
        Term::WriteElement(_, _, _)
        | Term::If(_, _, _)
        | Term::Reduce(_, _, _, _, _, _, _)
        | Term::Typecase(_, _, _, _)
        | Term::Try(_, _, _, _) => in_more(alloc, term, put),
    }
}

// A form with one part.
#[cycle(placed)]
#[tactic(auto, using(crate::proofs::Equations::substitution))]
fn in_one(alloc: Global, term: &Term, put: &Put) -> Result<Option<Shared<Term>>, Memory>
    requires { IsTrue (has_one_part term.now) }
    ensures { IfOk result (λ found. Changes (placed_of put.now) term.now found) }
{
    match term {
        Term::Throw(part) => match placed(alloc, part.get(), put)? {
            None => Ok(None),
            Some(part) => Ok(Some(Shared::new(alloc, Term::Throw(part))?)),
        },
        Term::Write(slot, part) => {
            let found = placed(alloc, part.get(), put)?;
            in_write(alloc, *slot, part, found, put)
        }
        Term::ReadField(part, field) => match placed(alloc, part.get(), put)? {
            None => Ok(None),
            Some(part) => Ok(Some(Shared::new(alloc, Term::ReadField(part, *field))?)),
        },
        Term::Size(part) => match placed(alloc, part.get(), put)? {
            None => Ok(None),
            Some(part) => Ok(Some(Shared::new(alloc, Term::Size(part))?)),
        },
        Term::Atomic(mode, part) => match placed(alloc, part.get(), put)? {
            None => Ok(None),
            Some(part) => Ok(Some(Shared::new(alloc, Term::Atomic(*mode, part))?)),
        },
        Term::Asleep(marks, part) => match placed(alloc, part.get(), put)? {
            None => Ok(None),
            Some(part) => {
                let marks = shared_marks(alloc, marks)?;
                Ok(Some(Shared::new(alloc, Term::Asleep(marks, part))?))
            }
        },
        Term::Stepped(part) => match placed(alloc, part.get(), put)? {
            None => Ok(None),
            Some(part) => Ok(Some(Shared::new(alloc, Term::Stepped(part))?)),
        },
        _ => unreachable!(),
    }
}

// A form with two parts.
#[cycle(placed)]
#[tactic(auto, using(crate::proofs::Equations::substitution))]
fn in_two(alloc: Global, term: &Term, put: &Put) -> Result<Option<Shared<Term>>, Memory>
    requires { IsTrue (has_two_parts term.now) }
    ensures { IfOk result (λ found. Changes (placed_of put.now) term.now found) }
{
    match term {
        Term::Apply(function, argument) => {
            let one = placed(alloc, function.get(), put)?;
            let other = placed(alloc, argument.get(), put)?;
            match two(function, one, argument, other, put)? {
                None => Ok(None),
                Some((function, argument)) => Ok(Some(Shared::new(
                    alloc,
                    Term::Apply(function, argument),
                )?)),
            }
        }
        Term::Fill(ty, size, value) => {
            let one = placed(alloc, size.get(), put)?;
            let other = placed(alloc, value.get(), put)?;
            match two(size, one, value, other, put)? {
                None => Ok(None),
                Some((size, value)) => Ok(Some(Shared::new(
                    alloc,
                    Term::Fill(ty.share()?, size, value),
                )?)),
            }
        }
        Term::Let(variables, first, rest) => {
            let one = placed(alloc, first.get(), put)?;
            let other = placed(alloc, rest.get(), put)?;
            match two(first, one, rest, other, put)? {
                None => Ok(None),
                Some((first, rest)) => Ok(Some(Shared::new(
                    alloc,
                    Term::Let(variables.share()?, first, rest),
                )?)),
            }
        }
        Term::Mutable(variable, ty, first, rest) => {
            let one = placed(alloc, first.get(), put)?;
            let other = placed(alloc, rest.get(), put)?;
            match two(first, one, rest, other, put)? {
                None => Ok(None),
                Some((first, rest)) => Ok(Some(Shared::new(
                    alloc,
                    Term::Mutable(*variable, ty.share()?, first, rest),
                )?)),
            }
        }
        Term::WriteField(object, field, value) => {
            let one = placed(alloc, object.get(), put)?;
            let other = placed(alloc, value.get(), put)?;
            match two(object, one, value, other, put)? {
                None => Ok(None),
                Some((object, value)) => Ok(Some(Shared::new(
                    alloc,
                    Term::WriteField(object, *field, value),
                )?)),
            }
        }
        Term::ReadElement(array, index) => {
            let one = placed(alloc, array.get(), put)?;
            let other = placed(alloc, index.get(), put)?;
            match two(array, one, index, other, put)? {
                None => Ok(None),
                Some((array, index)) => Ok(Some(Shared::new(
                    alloc,
                    Term::ReadElement(array, index),
                )?)),
            }
        }
        Term::Then(first, rest) => {
            let one = placed(alloc, first.get(), put)?;
            let other = placed(alloc, rest.get(), put)?;
            match two(first, one, rest, other, put)? {
                None => Ok(None),
                Some((first, rest)) => Ok(Some(Shared::new(alloc, Term::Then(first, rest))?)),
            }
        }
        Term::While(test, body) => {
            let one = placed(alloc, test.get(), put)?;
            let other = placed(alloc, body.get(), put)?;
            match two(test, one, body, other, put)? {
                None => Ok(None),
                Some((test, body)) => Ok(Some(Shared::new(alloc, Term::While(test, body))?)),
            }
        }
        Term::For(order, span, variable, source, body) => {
            let one = placed(alloc, source.get(), put)?;
            let other = placed(alloc, body.get(), put)?;
            match two(source, one, body, other, put)? {
                None => Ok(None),
                Some((source, body)) => Ok(Some(Shared::new(
                    alloc,
                    Term::For(*order, *span, *variable, source, body),
                )?)),
            }
        }
        Term::ForHalves(first, second) => {
            let one = placed(alloc, first.get(), put)?;
            let other = placed(alloc, second.get(), put)?;
            match two(first, one, second, other, put)? {
                None => Ok(None),
                Some((first, second)) => Ok(Some(Shared::new(
                    alloc,
                    Term::ForHalves(first, second),
                )?)),
            }
        }
        Term::ReduceHalves(set, first, second) => {
            let one = placed(alloc, first.get(), put)?;
            let other = placed(alloc, second.get(), put)?;
            match two(first, one, second, other, put)? {
                None => Ok(None),
                Some((first, second)) => Ok(Some(Shared::new(
                    alloc,
                    Term::ReduceHalves(*set, first, second),
                )?)),
            }
        }
        _ => unreachable!(),
    }
}

// A form with three parts, or with clauses.
#[cycle(placed)]
#[tactic(auto, using(crate::proofs::Equations::substitution))]
fn in_more(alloc: Global, term: &Term, put: &Put) -> Result<Option<Shared<Term>>, Memory>
    requires { IsTrue (has_more_parts term.now) }
    ensures { IfOk result (λ found. Changes (placed_of put.now) term.now found) }
{
    match term {
        Term::WriteElement(array, index, value) => {
            let one = placed(alloc, array.get(), put)?;
            let other = placed(alloc, index.get(), put)?;
            let last = placed(alloc, value.get(), put)?;
            let both = two(array, one, index, other, put)?;
            match three(array, index, both, value, last, put)? {
                None => Ok(None),
                Some((array, index, value)) => Ok(Some(Shared::new(
                    alloc,
                    Term::WriteElement(array, index, value),
                )?)),
            }
        }
        Term::If(test, yes, no) => {
            let one = placed(alloc, test.get(), put)?;
            let other = placed(alloc, yes.get(), put)?;
            let last = placed(alloc, no.get(), put)?;
            let both = two(test, one, yes, other, put)?;
            match three(test, yes, both, no, last, put)? {
                None => Ok(None),
                Some((test, yes, no)) => Ok(Some(Shared::new(alloc, Term::If(test, yes, no))?)),
            }
        }
        Term::Reduce(order, span, set, empty, variable, source, body) => {
            let one = placed(alloc, empty.get(), put)?;
            let other = placed(alloc, source.get(), put)?;
            let last = placed(alloc, body.get(), put)?;
            let both = two(empty, one, source, other, put)?;
            match three(empty, source, both, body, last, put)? {
                None => Ok(None),
                Some((empty, source, body)) => Ok(Some(Shared::new(
                    alloc,
                    Term::Reduce(*order, *span, *set, empty, *variable, source, body),
                )?)),
            }
        }
        Term::Typecase(variable, subject, clauses, other) => {
            let one = placed(alloc, subject.get(), put)?;
            let more = placed(alloc, other.get(), put)?;
            let found = in_clauses(alloc, clauses, put)?;
            let both = two(subject, one, other, more, put)?;
            match choice(alloc, subject, other, both, clauses, found, put)? {
                None => Ok(None),
                Some((subject, other, clauses)) => {
                    let made = Term::Typecase(*variable, subject, clauses, other);
                    Ok(Some(Shared::new(alloc, made)?))
                }
            }
        }
        Term::Try(body, variable, clauses, last) => {
            let one = placed(alloc, body.get(), put)?;
            let found = in_clauses(alloc, clauses, put)?;
            let other = in_last(alloc, last, put)?;
            let made = guarded(alloc, body, one, clauses, found, last, other, put)?;
            tried(alloc, body, *variable, clauses, last, made, put)
        }
        _ => unreachable!(),
    }
}

#[cycle(placed)]
#[tactic(auto, using(crate::proofs::SameBody::body_placed))]
fn in_function(
    alloc: Global,
    closure: &Shared<Closure>,
    put: &Put,
) -> Result<Option<Shared<Term>>, Memory>
    ensures { IfOk result
        (λ found. Changes (λ _. function_placed put.now closure.now) (Term.Fn closure.now) found) }
{
    match put {
        Put::Given(variable, value) => holding(alloc, closure, *variable, value),
        Put::Located(_, _) => match placed(alloc, closure.get().body.get(), put)? {
            None => same_function(alloc, closure),
            Some(body) => with_body(alloc, closure.get(), body),
        },
    }
}

#[cycle(placed)]
fn in_all(
    alloc: Global,
    terms: &List<Shared<Term>>,
    put: &Put,
) -> Result<Option<List<Shared<Term>>>, Memory>
    ensures { IfOk result (λ found. ChangesAll (placed_of put.now) terms.now found) }
{
    let mut made = List::new(alloc);
    let mut changed = false;
    for term in terms.as_slice() {
        let found = placed(alloc, term.get(), put)?;
        let (part, other) = in_part(term, found, put)?;
        made.push(part)?;
        changed = changed || other;
    }
    if changed { Ok(Some(made)) } else { Ok(None) }
}

#[cycle(placed)]
fn in_clauses(alloc: Global, clauses: &Clauses, put: &Put) -> Result<Option<Clauses>, Memory>
    ensures { IfOk result (λ found. ChangesClauses (placed_of put.now) clauses.now found) }
{
    let mut made = List::new(alloc);
    let mut changed = false;
    for clause in clauses.as_slice() {
        let found = placed(alloc, clause.0.get(), put)?;
        let (part, other) = in_part(&clause.0, found, put)?;
        made.push((part, clause.1.share()?))?;
        changed = changed || other;
    }
    if changed { Ok(Some(made)) } else { Ok(None) }
}

#[cycle(placed)]
fn in_last(
    alloc: Global,
    last: &Option<Shared<Term>>,
    put: &Put,
) -> Result<Option<Option<Shared<Term>>>, Memory>
    ensures { IfOk result (λ found. ChangesLast (placed_of put.now) last.now found) }
{
    match last {
        None => Ok(None),
        Some(term) => match placed(alloc, term.get(), put)? {
            None => Ok(None),
            Some(term) => Ok(Some(Some(term))),
        },
    }
}
