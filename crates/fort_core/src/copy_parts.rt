//! Copies of values and closures, and of what terms are made of: one owner more for each part.
ghost use Rattle.std.specs.Prelude.{◌≡◌, IfOk, Ok};

use crate::term::Term;
use crate::value::{Closure, Value};
use fort_base::{List, Loc, Memory, Shared, Ty};
use std::alloc::Global;

/// Both, where both were made.
pub fn both<A: Drop, B: Drop>(
    first: Result<A, Memory>,
    second: Result<B, Memory>,
) -> Result<(A, B), Memory>
    ensures { IfOk result (λ both. (first ≡ Ok both.0) × (second ≡ Ok both.1)) }
{
    let first = first?;
    Ok((first, second?))
}

pub fn copy_finally(last: &Option<Shared<Term>>) -> Result<Option<Shared<Term>>, Memory>
    ensures { IfOk result (λ copy. copy ≡ last.now) }
{
    match last {
        None => Ok(None),
        Some(term) => Ok(Some(term.share()?)),
    }
}

pub fn copy_clauses(
    alloc: Global,
    clauses: &List<(Shared<Term>, Shared<Ty>)>,
) -> Result<List<(Shared<Term>, Shared<Ty>)>, Memory>
    ensures { IfOk result (λ copy. copy ≡ clauses.now) }
{
    let mut all = List::new(alloc);
    for clause in clauses.as_slice() {
        all.push((clause.0.share()?, clause.1.share()?))?;
    }
    Ok(all)
}

pub fn copy_marks(alloc: Global, marks: &List<(Loc, Value)>) -> Result<List<(Loc, Value)>, Memory>
    ensures { IfOk result (λ copy. copy ≡ marks.now) }
{
    let mut all = List::new(alloc);
    for mark in marks.as_slice() {
        all.push((mark.0, mark.1.share()?))?;
    }
    Ok(all)
}

impl Value {
    /// The same value with one owner more; it takes no memory, and fails where there are 2^63
    /// owners.
    pub fn share(&self) -> Result<Value, Memory>
        ensures { IfOk result (λ value. value ≡ self.now) }
    {
        match self {
            Value::Small(number) => Ok(Value::Small(*number)),
            Value::Large(number) => Ok(Value::Large(*number)),
            Value::Truth(truth) => Ok(Value::Truth(*truth)),
            Value::Text(text) => Ok(Value::Text(text.share()?)),
            Value::Tuple(parts) => Ok(Value::Tuple(parts.share()?)),
            Value::Range(first, count) => Ok(Value::Range(*first, *count)),
            Value::Object(ty, base) => Ok(Value::Object(*ty, *base)),
            Value::Array(element, base, size) => Ok(Value::Array(element.share()?, *base, *size)),
            Value::Function(closure) => Ok(Value::Function(closure.share()?)),
        }
    }

    /// An equal value, as `share` makes it.
    pub fn copy(&self, _alloc: Global) -> Result<Value, Memory>
        ensures { IfOk result (λ copy. copy ≡ self.now) }
    {
        self.share()
    }
}

impl Closure {
    /// An equal closure, whose parts have one owner more each, or want of memory.
    pub fn copy(&self, alloc: Global) -> Result<Closure, Memory>
        ensures { IfOk result (λ copy. copy ≡ self.now) }
    {
        let domain = both(self.parameters.share(), self.result.share());
        let inside = both(self.body.share(), copy_held(alloc, &self.held));
        let ((parameters, result), (body, held)) = both(domain, inside)?;
        Ok(Closure {
            number: self.number,
            parameters,
            result,
            body,
            held,
        })
    }
}

fn copy_held(alloc: Global, held: &List<(u32, Value)>) -> Result<List<(u32, Value)>, Memory>
    ensures { IfOk result (λ copy. copy ≡ held.now) }
{
    let mut all = List::new(alloc);
    for pair in held.as_slice() {
        all.push((pair.0, pair.1.share()?))?;
    }
    Ok(all)
}
