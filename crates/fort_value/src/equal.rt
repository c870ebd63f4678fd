//! Whether two values are the same, as the operator `===` asks.
ghost use Rattle.std.specs.Prelude.{◌≡◌, map};
ghost use Rattle.fort_machine.specs.Texts.{each_same, same as same_values, same_type};

use fort_base::{List, Ty};
use fort_core::Value;

/// Whether two values are the same: of one kind and made of the same. A function is never the same
/// as anything, itself too, nor is a tuple in which one stands. It takes no memory. The chapter
/// "Values".
#[cycle(same)]
pub fn same(a: &Value, b: &Value) -> bool
    ensures { result ≡ same_values a.now b.now }
{
    match (a, b) {
        (Value::Small(x), Value::Small(y)) => *x == *y,
        (Value::Large(x), Value::Large(y)) => *x == *y,
        (Value::Truth(x), Value::Truth(y)) => *x == *y,
        (Value::Text(x), Value::Text(y)) => x.get().as_slice() == y.get().as_slice(),
        (Value::Tuple(xs), Value::Tuple(ys)) => all_same(xs.get(), ys.get()),
        (Value::Range(x, m), Value::Range(y, n)) => *x == *y && *m == *n,
        (Value::Object(s, x), Value::Object(t, y)) => s.0 == t.0 && x.0 == y.0,
        (Value::Array(s, x, m), Value::Array(t, y, n)) => {
            alike(s.get(), t.get()) && x.0 == y.0 && *m == *n
        }
        _ => false,
    }
}

fn alike(left: &Ty, right: &Ty) -> bool
    ensures { result ≡ same_type left.now right.now }
{
    left.same(right)
}

#[cycle(same)]
fn all_same(xs: &List<Value>, ys: &List<Value>) -> bool
    ensures { result ≡ each_same (λ f v. f v) (map same_values xs.now) ys.now }
{
    let left = xs.as_slice();
    let right = ys.as_slice();
    if left.len() != right.len() {
        return false;
    }
    for i in 0..left.len() {
        if !same(&left[i], &right[i]) {
            return false;
        }
    }
    true
}
