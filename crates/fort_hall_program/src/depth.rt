//! How deep a part is.

use fort_base::{List, Memory, Shared};
use fort_core::Term;
use std::alloc::Global;

/// How many forms may stand in one another in the part of a task, each at work on the next one.
/// Where a leg is submitted, parts are compared by a call within a call for each of them.
const DEEP: u32 = 32_768;

/// How many forms of a part are looked at.
const FORMS: u32 = 16_777_216;

/// Forms that are still to be looked at, and how many stand round each.
type Left = Vec<(Shared<Term>, u32)>;

/// Whether a part is deeper than a hall takes it on, or larger than can be seen.
///
/// # Errors
///
/// `Memory` where memory is wanting.
pub(crate) fn is_deep(alloc: Global, part: &Shared<Term>) -> Result<bool, Memory> {
    let mut left = Vec::new(alloc);
    put(&mut left, part, 0)?;
    for _form in 0..FORMS {
        let Some((form, depth)) = left.pop() else {
            return Ok(false);
        };
        if depth >= DEEP {
            return Ok(true);
        }
        put_parts(&mut left, form.get(), depth.saturating_add(1))?;
    }
    Ok(true)
}

fn put(left: &mut Left, form: &Shared<Term>, depth: u32) -> Result<(), Memory> {
    left.push((form.share()?, depth))?;
    Ok(())
}

fn put_all(left: &mut Left, forms: &List<Shared<Term>>, depth: u32) -> Result<(), Memory> {
    for form in forms.as_slice() {
        put(left, form, depth)?;
    }
    Ok(())
}

// The parts on which a form is at work.
fn put_parts(left: &mut Left, form: &Term, depth: u32) -> Result<(), Memory> {
    match form {
        Term::Group(parts) => put_all(left, parts, depth),
        Term::Call(_, parts) => put_all(left, parts, depth),
        Term::Operator(_, parts) => put_all(left, parts, depth),
        Term::Also(parts) => put_all(left, parts, depth),
        Term::WriteElement(array, index, value) => {
            put(left, array, depth)?;
            put(left, index, depth)?;
            put(left, value, depth)
        }
        other => put_few(left, other, depth),
    }
}

// Those of a form that has two of them at most.
fn put_few(left: &mut Left, form: &Term, depth: u32) -> Result<(), Memory> {
    match form {
        Term::Apply(first, second) => put_two(left, first, second, depth),
        Term::ForHalves(first, second) => put_two(left, first, second, depth),
        Term::ReduceHalves(_, first, second) => put_two(left, first, second, depth),
        Term::Fill(_, first, second) => put_two(left, first, second, depth),
        Term::WriteField(first, _, second) => put_two(left, first, second, depth),
        Term::ReadElement(first, second) => put_two(left, first, second, depth),
        other => match only_part(other) {
            Some(part) => put(left, part, depth),
            None => Ok(()),
        },
    }
}

fn put_two(
    left: &mut Left,
    first: &Shared<Term>,
    second: &Shared<Term>,
    depth: u32,
) -> Result<(), Memory> {
    put(left, first, depth)?;
    put(left, second, depth)
}

// The only part on which a form is at work, if it has one.
fn only_part(form: &Term) -> Option<&Shared<Term>> {
    match form {
        Term::Stepped(part) => Some(part),
        Term::Throw(part) => Some(part),
        Term::Then(part, _) => Some(part),
        Term::Let(_, part, _) => Some(part),
        Term::Mutable(_, _, part, _) => Some(part),
        Term::Write(_, part) => Some(part),
        Term::ReadField(part, _) => Some(part),
        Term::Size(part) => Some(part),
        Term::If(part, _, _) => Some(part),
        Term::Typecase(_, part, _, _) => Some(part),
        Term::For(_, _, _, part, _) => Some(part),
        Term::Reduce(_, _, _, _, _, part, _) => Some(part),
        Term::Try(part, _, _, _) => Some(part),
        _ => None,
    }
}
