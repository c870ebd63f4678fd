//! Copies of picks, by a loop with a stack of its own.
ghost use Rattle.std.specs.Prelude.{◌≡◌, ◌<◌, [], ◌∷◌, ◌++◌, length, slice_get, Some, IfOk};
ghost use Rattle.fort_core.specs.Stack.{Begins, Settles};

use crate::path::Path;
use crate::pick::Pick;
use fort_base::{List, Memory};
use std::alloc::Global;

/// An attempt whose inner picks are copied in part.
#[derive(Drop)]
pub struct Half<'a> {
    path: Path,
    source: &'a [Pick],
    made: List<Pick>,
}

/// A copy, or a part of one.
#[derive(Drop)]
pub enum Made<'a> {
    Whole(Pick),
    Part(Half<'a>),
}

/// What the loop does next: copy a pick, or put a copy into its place.
#[derive(Drop)]
pub enum Turn<'a> {
    Down(&'a Pick),
    Up(Pick),
}

impl<'a> Half<'a> {
    fn next(&self) -> &'a Pick
        requires { length self.now.made < length self.now.source.now }
        ensures { slice_get self.now.source.now (length self.now.made) ≡ Some result.now }
    {
        &self.source[self.made.len()]
    }

    fn settle(self, pick: Pick) -> Result<Made<'a>, Memory>
        ensures { IfOk result (λ made. Settles self.entry pick made) }
    {
        let Half {
            path,
            source,
            made: mut inner,
        } = self;
        inner.push(pick)?;
        if inner.len() < source.len() {
            Ok(Made::Part(Half {
                path,
                source,
                made: inner,
            }))
        } else {
            Ok(Made::Whole(Pick::Attempt(path, inner)))
        }
    }
}

fn begin<'a>(alloc: Global, pick: &'a Pick) -> Result<Made<'a>, Memory>
    ensures { IfOk result (λ made. Begins pick.now made) }
{
    match pick {
        Pick::Step(path, loc) => Ok(Made::Whole(Pick::Step(path.copy(alloc)?, *loc))),
        Pick::Attempt(path, inner) => {
            let source = inner.as_slice();
            if source.is_empty() {
                Ok(Made::Whole(Pick::Attempt(path.copy(alloc)?, List::new(alloc))))
            } else {
                Ok(Made::Part(Half {
                    path: path.copy(alloc)?,
                    source,
                    made: List::new(alloc),
                }))
            }
        }
    }
}

impl Pick {
    /// An equal pick in memory of its own, or want of memory; it takes no stack, however deep the
    /// pick nests.
    pub fn copy(&self, alloc: Global) -> Result<Pick, Memory>
        ensures { IfOk result (λ copy. copy ≡ self.now) }
    {
        let mut waiting: List<Half> = List::new(alloc);
        let mut turn = Turn::Down(self);
        'turns: loop {
            let made = match turn {
                Turn::Down(pick) => begin(alloc, pick)?,
                Turn::Up(pick) => match waiting.pop() {
                    None => return Ok(pick),
                    Some(half) => half.settle(pick)?,
                },
            };
            match made {
                Made::Whole(pick) => turn = Turn::Up(pick),
                Made::Part(half) => {
                    turn = Turn::Down(half.next());
                    waiting.push(half)?;
                }
            }
        }
    }
}
