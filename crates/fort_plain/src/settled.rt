//! Whether a machine's term is finished.
ghost use Rattle.std.specs.Prelude.{ℕ, IfOk};
ghost use Rattle.fort_machine.specs.Frames.{plug};
ghost use Rattle.fort_frames.specs.Frames.{frames_of};
ghost use Rattle.fort_frames.specs.States.{term_at};
ghost use Rattle.fort_plain.specs.Paths.{IsSettled, whole};

use fort_base::{Memory, Shared};
use fort_core::{Term, Value};
use fort_frames::{At, Frame, Head, Node, State};
use fort_step_subst::group;
use std::alloc::Global;

/// How a machine's term stands.
#[derive(Drop)]
pub enum Settled {
    Value(Value),
    Throw(Value),
    /// It isn't finished.
    Open,
}

/// How the term stands for which a state stands: it goes out of the frames round what stands
/// there.
///
/// # Errors
///
/// `Memory` where memory is wanting.
pub fn settle(alloc: Global, clock: u64, state: State) -> Result<Settled, Memory>
    ensures { IfOk result (IsSettled (whole clock state)) }
{
    let _clock = clock;
    let State { place, at } = state;
    let mut place = place;
    let mut settled = settled_at(at)?;
    'frames: loop {
        match place.leave(alloc)? {
            None => return Ok(settled),
            Some((frame, below)) => {
                settled = settled_in(alloc, frame, settled)?;
                place = below;
            }
        }
    }
}

// How what stands inside all frames stands.
fn settled_at(at: At) -> Result<Settled, Memory>
    ensures { IfOk result (IsSettled (term_at «at»)) }
{
    match at {
        At::Value(value) => Ok(Settled::Value(value)),
        At::Throw(value) => Ok(Settled::Throw(value)),
        At::Form(term) => settled_term(term.get()),
        At::Left(term) => settled_term(term.get()),
    }
}

fn settled_term(term: &Term) -> Result<Settled, Memory>
    ensures { IfOk result (IsSettled term.now) }
{
    match term {
        Term::Value(value) => Ok(Settled::Value(value.share()?)),
        Term::Throw(thrown) => settled_throw(thrown.get()),
        _ => Ok(Settled::Open),
    }
}

fn settled_throw(thrown: &Term) -> Result<Settled, Memory>
    ensures { IfOk result (IsSettled (Term.Throw thrown.now)) }
{
    match thrown {
        Term::Value(value) => Ok(Settled::Throw(value.share()?)),
        _ => Ok(Settled::Open),
    }
}

// How a form stands, by how its part stands that a frame leaves out.
fn settled_in(alloc: Global, frame: Frame, part: Settled) -> Result<Settled, Memory>
    ensures { IfOk result (λ form. (clock : ℕ) (t : _) → IsSettled t part
        → IsSettled (plug (frames_of clock frame) t) form) }
{
    match part {
        Settled::Value(value) => value_in(alloc, frame, value),
        Settled::Throw(_value) => Ok(Settled::Open),
        Settled::Open => Ok(Settled::Open),
    }
}

// With a value in the place.
fn value_in(alloc: Global, frame: Frame, value: Value) -> Result<Settled, Memory>
    ensures { IfOk result (λ form. (clock : ℕ)
        → IsSettled (plug (frames_of clock frame) (Term.Value value)) form) }
{
    match frame {
        Frame::Throw => Ok(Settled::Throw(value)),
        Frame::Node(node) => value_in_node(alloc, node, value),
        _ => Ok(Settled::Open),
    }
}

fn value_in_node(alloc: Global, node: Node, value: Value) -> Result<Settled, Memory>
    ensures { IfOk result (λ form. (clock : ℕ)
        → IsSettled (plug (frames_of clock (Frame.Node node)) (Term.Value value)) form) }
{
    let Node {
        head,
        mut parts,
        at,
        stepped: _,
        since: _,
    } = node;
    match head {
        Head::Group => {
            parts.set(at, Shared::new(alloc, Term::Value(value))?);
            let form = group(alloc, parts)?;
            settled_term(&form)
        }
        _ => Ok(Settled::Open),
    }
}
