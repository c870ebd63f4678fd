//! Frames, innermost first, in a list whose tails are shared.
ghost use Rattle.std.specs.Prelude.{◌≡◌, [], ◌∷◌, IfOk, MatchOption};
ghost use Rattle.fort_frames.specs.Frames.{frames};

use crate::frame::Frame;
use fort_base::{Memory, Shared};
use std::alloc::Global;

/// Frames, innermost first. A copy shares all of them.
pub enum Stack {
    Empty,
    /// The innermost frame, and the others.
    Over(Shared<(Frame, Stack)>),
}

// By a loop along what no other stack has, so that a deep stack takes no memory to let go.
impl Drop for Stack {
    fn drop(mut self) {
        loop {
            match self {
                Stack::Empty => return,
                Stack::Over(both) => match both.last() {
                    None => return,
                    Some((_frame, below)) => self = below,
                },
            }
        }
    }
}

impl Stack {
    /// A frame inside the others; where memory is wanting all are let go.
    pub fn push(self, alloc: Global, frame: Frame) -> Result<Stack, Memory>
        ensures { IfOk result (λ stack. frames stack ≡ frame ∷ frames self) }
    {
        Ok(Stack::Over(Shared::new(alloc, (frame, self))?))
    }

    /// The innermost frame and the others, or `None` where there is none. Where the frame belongs
    /// to another stack too, it is made anew; else this takes no memory.
    pub fn pop(self, alloc: Global) -> Result<Option<(Frame, Stack)>, Memory>
        ensures { IfOk result
            (λ popped. MatchOption popped (frames self ≡ []) (λ pair. frames self
            ≡ pair.0 ∷ frames pair.1)) }
    {
        match self {
            Stack::Empty => Ok(None),
            Stack::Over(both) => match both.alone() {
                Ok(both) => Ok(Some(both)),
                Err(both) => Ok(Some(copied(alloc, both)?)),
            },
        }
    }

    /// The same stack, with one owner more.
    pub fn share(&self) -> Result<Stack, Memory>
        ensures { IfOk result (λ stack. stack ≡ self.now) }
    {
        match self {
            Stack::Empty => Ok(Stack::Empty),
            Stack::Over(both) => Ok(Stack::Over(both.share()?)),
        }
    }
}

// A frame made anew, and the others with one owner more.
fn copied(alloc: Global, both: Shared<(Frame, Stack)>) -> Result<(Frame, Stack), Memory>
    ensures { IfOk result (λ copy. copy ≡ both) }
{
    let (frame, below) = both.get();
    let frame = frame.share(alloc)?;
    Ok((frame, below.share()?))
}
