//! Whether a value is too deep.
ghost use Rattle.std.specs.Prelude.{◌≡◌, ◌+◌, map, nat_le};
ghost use Rattle.fort_machine.specs.Texts.{closure_depth, deepest, depth, greatest};
ghost use Rattle.fort_step_closed.specs.Closed.{depth_of_held};

use fort_base::List;
use fort_core::{Closure, Value};

const DEEPEST: u32 = 100;

/// Whether the tuple of some values isn't too deep to stand: at most 100 deep. It takes no memory.
/// The chapter "Values".
pub fn may_stand(parts: &List<Value>) -> bool
    ensures { result ≡ nat_le (depth (Value.Tuple parts.now)) deepest }
{
    are_shallow(parts, DEEPEST)
}

/// Whether a function isn't too deep to stand: at most 100 deep. It takes no memory. The chapter
/// "Values".
#[tactic(auto, using(crate::proofs::Shallow::depth_closure))]
pub fn is_shallow_function(closure: &Closure) -> bool
    ensures { result ≡ nat_le (closure_depth closure.now) deepest }
{
    holds_shallow(&closure.held, DEEPEST)
}

// Whether a value is at most so deep.
#[cycle(shallow)]
fn is_shallow(value: &Value, most: u32) -> bool
    ensures { result ≡ nat_le (depth value.now) most }
{
    match value {
        Value::Tuple(parts) => are_shallow(parts.get(), most),
        Value::Function(closure) => holds_shallow(&closure.get().held, most),
        _ => true,
    }
}

// Whether a tuple of these parts is at most so deep.
#[cycle(shallow)]
#[tactic(auto, using(crate::proofs::Shallow::deeper, crate::proofs::Shallow::too_deep, crate::proofs::Shallow::shallow_enough, crate::proofs::Shallow::none_shallow))]
fn are_shallow(parts: &List<Value>, most: u32) -> bool
    ensures { result ≡ nat_le (1 + greatest (map depth parts.now)) most }
{
    if most == 0 {
        return false;
    }
    for part in parts.as_slice() {
        if !is_shallow(part, most - 1) {
            return false;
        }
    }
    true
}

// Whether a function that holds these values is at most so deep.
#[cycle(shallow)]
#[tactic(auto, using(crate::proofs::Shallow::deeper, crate::proofs::Shallow::too_deep, crate::proofs::Shallow::shallow_enough, crate::proofs::Shallow::none_shallow))]
fn holds_shallow(held: &List<(u32, Value)>, most: u32) -> bool
    ensures { result ≡ nat_le (1 + greatest (map depth_of_held held.now)) most }
{
    if most == 0 {
        return false;
    }
    for pair in held.as_slice() {
        if !is_shallow(&pair.1, most - 1) {
            return false;
        }
    }
    true
}
