//! What was done behind what was done before, in place, and what can be seen of it.
ghost use Rattle.std.specs.Prelude.{◌≡◌, ◌≢◌, ℕ, ◌+◌, ◌-◌, ◌<◌, ◌≤◌, ◌^◌, IfNone, IfSome, OnOk, OnErr};
ghost use Rattle.indexmap.specs.IndexMap.{index_map_len, spare};
ghost use Rattle.fort_machine.specs.Cells.{joined, untouched};
ghost use Rattle.fort_machine.specs.Effects.{both, only_at};
ghost use Rattle.fort_store_effects.specs.Cells.{cell};
ghost use Rattle.fort_store_effects.specs.Levels.{cells_of, effect_of};
ghost use Rattle.fort_store_effects.specs.Closes.{JoinsAll, JoinsLast};
ghost use Rattle.fort_store_effects.specs.declared.cell.Closing.TheVariants.{Completed};

use crate::cell::Cell;
use crate::layer::Layer;
use fort_base::{Loc, Memory};
use indexmap::IndexMap;
use std::mem;

impl Layer {
    /// Something else is done behind what was done here.
    ///
    /// # Errors
    ///
    /// `Memory` where memory is wanting, and then this is as it was; the other one is let go.
    pub fn append(&mut self, next: Layer) -> Result<(), Memory>
        requires { (effect_of self.old).cost + (effect_of next).cost < 2 ^ 64 }
        ensures ok { OnOk result
            (effect_of self.new ≡ both (effect_of self.old) (effect_of next)) }
        ensures err { OnErr result (effect_of self.new ≡ effect_of self.old) }
    {
        let Layer {
            cells,
            output: text,
            cost: paid,
        } = next;
        self.cells.reserve(cells.len())?;
        self.output.append(text)?;
        join_all(self, cells);
        self.cost += paid;
        Ok(())
    }

    /// What was printed, in UTF-8.
    pub fn output(&self) -> &[u8]
        ensures { result.now ≡ (effect_of self.now).output }
    {
        self.output.as_slice()
    }

    /// A number behind that of each location that was touched; `None` where 2^64 - 1 was. It takes
    /// time for each location that was touched.
    #[tactic(auto, using(crate::proofs::Behind::all_below, crate::proofs::Behind::touched_there))]
    pub fn bound(&self) -> Option<u64>
        ensures some { IfSome result
            (λ n. (l : ℕ) → n ≤ l → cells_of self.now l ≡ untouched) }
        ensures none { IfNone result (cells_of self.now (2 ^ 64 - 1) ≢ untouched) }
    {
        let mut bound = 0;
        for i in 0..self.cells.len() {
            let Some((loc, _)) = self.cells.get_index(i) else {
                unreachable!()
            };
            if *loc == u64::MAX {
                return None;
            }
            if bound <= *loc {
                bound = *loc + 1;
            }
        }
        Some(bound)
    }

    // One thing more at one location; there is room for it.
    #[tactic(auto, using(crate::proofs::Touched::joins_here))]
    fn join_now(&mut self, loc: Loc, more: Cell)
        requires { 0 < spare self.old.cells }
        ensures cells { cells_of self.new
            ≡ (λ k. joined (cells_of self.old k) (only_at loc.0 (cell more) k)) }
        ensures output { self.new.output ≡ self.old.output }
        ensures cost { self.new.cost ≡ self.old.cost }
        ensures room { spare self.old.cells ≤ spare self.new.cells + 1 }
    {
        match self.cells.get_mut(&loc.0) {
            Some(place) => {
                let was = mem::replace(place, Cell::Made(None));
                *place = was.then(more);
            }
            None => {
                if self.cells.insert(loc.0, more).is_err() {
                    unreachable!()
                }
            }
        }
    }
}

// Cells are joined to those of a layer that has room for them.
#[tactic(auto, using(crate::proofs::Popped::joined_all))]
fn join_all(whole: &mut Layer, cells: IndexMap<u64, Cell>)
    requires { index_map_len cells ≤ spare whole.old.cells }
    ensures { JoinsAll Completed whole.old cells whole.new }
{
    let mut cells = cells;
    let count = cells.len();
    for at in 0..count {
        let _at = at;
        join_one(whole, &mut cells);
    }
}

// The last cell is joined.
fn join_one(whole: &mut Layer, cells: &mut IndexMap<u64, Cell>)
    requires some { 0 < index_map_len cells.old }
    requires room { index_map_len cells.old ≤ spare whole.old.cells }
    ensures last { JoinsLast Completed whole.old cells.old whole.new cells.new }
    ensures room { index_map_len cells.new ≤ spare whole.new.cells }
{
    match cells.pop() {
        None => unreachable!(),
        Some((loc, cell)) => whole.join_now(Loc(loc), cell),
    }
}
