//! A place in a term.
ghost use Rattle.std.specs.Prelude.{◌≡◌, [], ◌∷◌, IfOk, MatchOption, option_to_list};
ghost use Rattle.fort_machine.specs.Frames.{part_number};
ghost use Rattle.fort_frames.specs.Frames.{frame_of, frames, numbers};

use crate::frame::Frame;
use crate::stack::Stack;
use fort_base::{List, Memory};
use fort_core::Path;
use std::alloc::Global;

/// A place in a term: the frames round it, innermost first, and the path of the thread that they
/// lead to, which is kept beside them and never made anew.
#[derive(Drop)]
pub struct Place {
    pub stack: Stack,
    pub path: Path,
    pub ghost is_path: { path.0 ≡ numbers (frames stack) },
}

impl Place {
    /// The place of the whole term; it takes no memory.
    pub fn root(alloc: Global) -> Place
        ensures { frames result.stack ≡ [] }
    {
        Place {
            stack: Stack::Empty,
            path: Path(List::new(alloc)),
        }
    }

    /// The place inside one frame more; it takes constant time.
    ///
    /// # Errors
    ///
    /// `Memory` where memory is wanting, or where a part's number is above 4,294,967,295.
    pub fn enter(self, alloc: Global, frame: Frame) -> Result<Place, Memory>
        ensures { IfOk result (λ place. frames place.stack ≡ frame ∷ frames self.stack) }
    {
        let Place { stack, mut path } = self;
        if let Some(number) = frame.number()? {
            path.0.push(number)?;
        }
        Ok(Place {
            stack: stack.push(alloc, frame)?,
            path,
        })
    }

    /// The innermost frame and the place round it, or `None` at the whole term; it takes constant
    /// time, but for a frame that another state shares, which is made anew.
    pub fn leave(self, alloc: Global) -> Result<Option<(Frame, Place)>, Memory>
        ensures { IfOk result
            (λ left. MatchOption left (frames self.stack ≡ []) (λ pair. frames self.stack
            ≡ pair.0 ∷ frames pair.1.stack)) }
    {
        let Place { stack, mut path } = self;
        match stack.pop(alloc)? {
            None => Ok(None),
            Some((frame, stack)) => {
                if frame.number()?.is_some() {
                    path.0.pop();
                }
                Ok(Some((frame, Place { stack, path })))
            }
        }
    }

    /// The same place: the path is made anew, the frames have one owner more.
    pub fn share(&self, alloc: Global) -> Result<Place, Memory>
        ensures { IfOk result (λ place. place ≡ self.now) }
    {
        Ok(Place {
            stack: self.stack.share()?,
            path: self.path.copy(alloc)?,
        })
    }
}

impl Frame {
    // The number of the part that is left out, in a parallel form.
    fn number(&self) -> Result<Option<u32>, Memory>
        ensures { IfOk result (λ number. part_number (frame_of self.now) ≡ option_to_list number) }
    {
        match self {
            Frame::Node(node) => match u32::try_from(node.at) {
                Ok(number) => Ok(Some(number)),
                Err(_) => Err(Memory),
            },
            _ => Ok(None),
        }
    }
}
