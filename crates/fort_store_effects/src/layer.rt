//! What one attempt did.
ghost use Rattle.std.specs.Prelude.{◌≡◌, ℕ, ◌+◌, ◌<◌, ◌^◌, [], ◌++◌, IfOk, OnOk, OnErr};
ghost use Rattle.fort_machine.specs.Cells.{joined};
ghost use Rattle.fort_machine.specs.Effects.{idle, only_at};
ghost use Rattle.fort_store_effects.specs.Cells.{cell, IsLeft};
ghost use Rattle.fort_store_effects.specs.Levels.{cells_of, effect_of};

use crate::cell::{Cell, Left};
use fort_base::{Bytes, List, Loc, Memory};
use indexmap::IndexMap;
use std::alloc::Global;

/// What an attempt did so far, over the store that it began from: a cell for each location that it
/// touched, what it printed and what it cost.
///
/// It is as large as the number of locations that the attempt touched.
#[derive(Drop)]
pub struct Layer {
    pub(crate) cells: IndexMap<u64, Cell>,
    pub(crate) output: Bytes,
    pub(crate) cost: u64,
}

impl Layer {
    /// An attempt that did nothing yet; it takes no memory.
    #[tactic(auto, using(crate::proofs::Touched::new_layer))]
    pub fn new(alloc: Global) -> Layer
        ensures { effect_of result ≡ idle }
    {
        Layer {
            cells: IndexMap::new(alloc),
            output: List::new(alloc),
            cost: 0,
        }
    }

    /// What it leaves at a location, whatever was there before.
    pub fn left(&self, loc: Loc) -> Left<'_>
        ensures { IsLeft (cells_of self.now loc.0) result }
    {
        match self.cells.get(&loc.0) {
            None => Left::Below,
            Some(cell) => cell.left(),
        }
    }

    // One thing more at one location. Where memory is wanting the cells are as they were.
    #[tactic(auto, using(crate::proofs::Touched::joins_here))]
    pub(crate) fn join(&mut self, loc: Loc, more: Cell) -> Result<(), Memory>
        ensures ok { OnOk result (cells_of self.new
            ≡ (λ k. joined (cells_of self.old k) (only_at loc.0 (cell more) k))) }
        ensures err { OnErr result (cells_of self.new ≡ cells_of self.old) }
        ensures output { self.new.output ≡ self.old.output }
        ensures cost { self.new.cost ≡ self.old.cost }
    {
        let now = self.now_at(loc, more)?;
        self.cells.insert(loc.0, now)?;
        Ok(())
    }

    // The cell of a location, with one thing more.
    fn now_at(&self, loc: Loc, more: Cell) -> Result<Cell, Memory>
        ensures { IfOk result (λ now. cell now ≡ joined (cells_of self.now loc.0) (cell more)) }
    {
        match self.cells.get(&loc.0) {
            None => Ok(more),
            Some(cell) => cell.joined(more),
        }
    }
}
