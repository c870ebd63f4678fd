//! Whether the parts of two terms or values are the same.
ghost use Rattle.std.specs.Prelude.{◌≡◌, ◌↔◌, IsTrue};

use crate::term::Term;
use crate::value::{Closure, Value};
use fort_base::{List, Loc, NameId, SetId, Shared, Ty};

pub fn same_parameters(left: &List<(u32, Ty)>, right: &List<(u32, Ty)>) -> bool
    ensures { IsTrue result ↔ (left.now ≡ right.now) }
{
    let a = left.as_slice();
    let b = right.as_slice();
    if a.len() != b.len() {
        return false;
    }
    for i in 0..a.len() {
        if !(a[i].0 == b[i].0 && a[i].1.same(&b[i].1)) {
            return false;
        }
    }
    true
}

pub fn same_set(left: SetId, right: SetId) -> bool
    ensures { IsTrue result ↔ (left ≡ right) }
{
    left.0 == right.0
}

pub fn same_name(left: NameId, right: NameId) -> bool
    ensures { IsTrue result ↔ (left ≡ right) }
{
    left.0 == right.0
}

#[cycle(same)]
pub fn same_part(a: &Shared<Term>, b: &Shared<Term>) -> bool
    ensures { IsTrue result ↔ (a.now ≡ b.now) }
{
    a.get().same(b.get())
}

#[cycle(same)]
pub fn same_finally(left: &Option<Shared<Term>>, right: &Option<Shared<Term>>) -> bool
    ensures { IsTrue result ↔ (left.now ≡ right.now) }
{
    match (left, right) {
        (None, None) => true,
        (Some(a), Some(b)) => a.get().same(b.get()),
        _ => false,
    }
}

#[cycle(same)]
pub fn same_terms(left: &List<Shared<Term>>, right: &List<Shared<Term>>) -> bool
    ensures { IsTrue result ↔ (left.now ≡ right.now) }
{
    let a = left.as_slice();
    let b = right.as_slice();
    if a.len() != b.len() {
        return false;
    }
    for i in 0..a.len() {
        if !(a[i].get().same(b[i].get())) {
            return false;
        }
    }
    true
}

#[cycle(same)]
pub fn same_clauses(
    left: &List<(Shared<Term>, Shared<Ty>)>,
    right: &List<(Shared<Term>, Shared<Ty>)>,
) -> bool
    ensures { IsTrue result ↔ (left.now ≡ right.now) }
{
    let a = left.as_slice();
    let b = right.as_slice();
    if a.len() != b.len() {
        return false;
    }
    for i in 0..a.len() {
        if !(a[i].0.get().same(b[i].0.get()) && a[i].1.get().same(b[i].1.get())) {
            return false;
        }
    }
    true
}

#[cycle(same)]
pub fn same_marks(left: &List<(Loc, Value)>, right: &List<(Loc, Value)>) -> bool
    ensures { IsTrue result ↔ (left.now ≡ right.now) }
{
    let a = left.as_slice();
    let b = right.as_slice();
    if a.len() != b.len() {
        return false;
    }
    for i in 0..a.len() {
        if !(a[i].0 == b[i].0 && a[i].1.same(&b[i].1)) {
            return false;
        }
    }
    true
}

impl Value {
    /// Whether two values are the same data, functions too; it takes no memory.
    ///
    /// This is how reads and marks are compared. The operator that the language has for it says of
    /// two functions that they never are the same.
    #[cycle(same)]
    pub fn same(&self, other: &Value) -> bool
        ensures { IsTrue result ↔ (self.now ≡ other.now) }
    {
        match (self, other) {
            (Value::Small(a), Value::Small(b)) => *a == *b,
            (Value::Large(a), Value::Large(b)) => *a == *b,
            (Value::Truth(a), Value::Truth(b)) => *a == *b,
            (Value::Text(a), Value::Text(b)) => a.get().as_slice() == b.get().as_slice(),
            (Value::Tuple(a), Value::Tuple(b)) => same_values(a.get(), b.get()),
            (Value::Range(a, m), Value::Range(b, n)) => *a == *b && *m == *n,
            (Value::Object(s, a), Value::Object(t, b)) => *s == *t && *a == *b,
            (Value::Array(s, a, m), Value::Array(t, b, n)) => s.get().same(t.get())
                && *a == *b
                && *m == *n,
            (Value::Function(a), Value::Function(b)) => a.get().same(b.get()),
            _ => false,
        }
    }
}

#[cycle(same)]
fn same_values(left: &List<Value>, right: &List<Value>) -> bool
    ensures { IsTrue result ↔ (left.now ≡ right.now) }
{
    let a = left.as_slice();
    let b = right.as_slice();
    if a.len() != b.len() {
        return false;
    }
    for i in 0..a.len() {
        if !(a[i].same(&b[i])) {
            return false;
        }
    }
    true
}

impl Closure {
    /// Whether two closures are alike in every part; it takes no memory.
    #[cycle(same)]
    pub fn same(&self, other: &Closure) -> bool
        ensures { IsTrue result ↔ (self.now ≡ other.now) }
    {
        self.number == other.number
            && same_parameters(self.parameters.get(), other.parameters.get())
            && self.result.get().same(other.result.get())
            && same_part(&self.body, &other.body)
            && same_held(&self.held, &other.held)
    }
}

#[cycle(same)]
fn same_held(left: &List<(u32, Value)>, right: &List<(u32, Value)>) -> bool
    ensures { IsTrue result ↔ (left.now ≡ right.now) }
{
    let a = left.as_slice();
    let b = right.as_slice();
    if a.len() != b.len() {
        return false;
    }
    for i in 0..a.len() {
        if !(a[i].0 == b[i].0 && a[i].1.same(&b[i].1)) {
            return false;
        }
    }
    true
}
