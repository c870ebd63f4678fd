//! Terms and what they are made of may go to other threads, and be read in several at once.
use crate::term::Term;
use crate::value::{Closure, Value};
use fort_base::{List, Shared};

fn crosses<T: Send + Sync>(_value: &T) {}

/// Does nothing; that it is accepted says that each of these may be moved to another thread, and
/// lent to several.
pub fn cross_threads(
    term: &Term,
    parts: &List<Shared<Term>>,
    value: &Value,
    values: &List<Value>,
    closure: &Closure,
) {
    crosses(term);
    crosses(parts);
    crosses(value);
    crosses(values);
    crosses(closure);
}
