//! Parts that are taken off a frame.
//!
//! A frame and a typed form are large; they are lent from call to call, and what is taken off goes
//! into a box at once.
ghost use Rattle.std.specs.Prelude.{◌≡◌, [], IfOk, OnOk, None};

use fort_base::{Boxed, List, Memory};
use fort_form_typed::{Chosen, TypedForm};
use fort_typing_meaning::Frame;
use fort_typing_rules::Part;
use std::alloc::Global;
use std::mem;

/// A typed form in a box, where there is one.
pub fn boxed(alloc: Global, typed: Option<TypedForm>) -> Result<Option<Boxed<TypedForm>>, Memory>
    ensures { IfOk result (λ it. it ≡ typed) }
{
    match typed {
        Some(typed) => Ok(Some(Boxed::new(alloc, typed)?)),
        None => Ok(None),
    }
}

/// The one part is taken off.
pub fn take_head(alloc: Global, frame: &mut Frame) -> Result<Option<Boxed<TypedForm>>, Memory>
    ensures taken { IfOk result (λ it. it ≡ frame.old.head) }
    ensures kept { OnOk result (frame.new ≡ record frame.old { head = None }) }
{
    boxed(alloc, mem::replace(&mut frame.head, None))
}

/// The other part is taken off.
pub fn take_last(alloc: Global, frame: &mut Frame) -> Result<Option<Boxed<TypedForm>>, Memory>
    ensures taken { IfOk result (λ it. it ≡ frame.old.last) }
    ensures kept { OnOk result (frame.new ≡ record frame.old { last = None }) }
{
    boxed(alloc, mem::replace(&mut frame.last, None))
}

/// The several parts are taken off.
pub fn take_first(alloc: Global, frame: &mut Frame) -> List<TypedForm>
    ensures taken { result ≡ frame.old.first }
    ensures kept { frame.new ≡ record frame.old { first = [] } }
{
    mem::replace(&mut frame.first, List::new(alloc))
}

/// The several more are taken off.
pub fn take_second(alloc: Global, frame: &mut Frame) -> List<TypedForm>
    ensures taken { result ≡ frame.old.second }
    ensures kept { frame.new ≡ record frame.old { second = [] } }
{
    mem::replace(&mut frame.second, List::new(alloc))
}

/// The comparisons are taken off.
pub fn take_calls(alloc: Global, frame: &mut Frame) -> List<Chosen>
    ensures taken { result ≡ frame.old.calls }
    ensures kept { frame.new ≡ record frame.old { calls = [] } }
{
    mem::replace(&mut frame.calls, List::new(alloc))
}

/// The elements are taken off.
pub fn take_parts(alloc: Global, frame: &mut Frame) -> List<Part>
    ensures taken { result ≡ frame.old.parts }
    ensures kept { frame.new ≡ record frame.old { parts = [] } }
{
    mem::replace(&mut frame.parts, List::new(alloc))
}
