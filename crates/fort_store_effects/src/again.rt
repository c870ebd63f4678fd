//! A store again for who works beside it, and what was done as a layer of its own.
ghost use Rattle.std.specs.Prelude.{◌≡◌, ℕ, ◌+◌, ◌<◌, ◌^◌, [], Some, cond, nat_eq, IfOk, OnOk};
ghost use Rattle.indexmap.specs.IndexMap.{get};
ghost use Rattle.fort_store_effects.specs.Again.{only_store, silent as silent_of};
ghost use Rattle.fort_store_effects.specs.Levels.{closing as closed_by, effect_of, levels_of, seen};

use crate::cell::{Cell, Closing};
use crate::close::merged;
use crate::layer::Layer;
use crate::layers::Layers;
use fort_base::{List, Memory};
use indexmap::IndexMap;
use std::alloc::Global;

impl Layers {
    /// The store of these layers again, of which no attempt is open; nothing was printed and
    /// nothing paid there. What is done in the one doesn't change the other.
    ///
    /// It takes time for each location that was written since the store was last shared.
    ///
    /// # Errors
    ///
    /// `Memory` where memory is wanting.
    #[tactic(auto, using(crate::proofs::Behind::alone))]
    pub fn again(&self, alloc: Global) -> Result<Layers, Memory>
        requires { (levels_of self.now).attempts ≡ [] }
        ensures { IfOk result (λ copy. levels_of copy ≡ only_store (seen (levels_of self.now))) }
    {
        Ok(Layers {
            store: self.store.again()?,
            output: List::new(alloc),
            cost: 0,
            top: None,
            below: List::new(alloc),
        })
    }

    /// The same as `again`, of layers that may be changed: a location that was written once takes
    /// time in the next call alone, and none in those after it.
    ///
    /// # Errors
    ///
    /// `Memory` where memory is wanting.
    #[tactic(auto, using(crate::proofs::Behind::alone))]
    pub fn share(&mut self, alloc: Global) -> Result<Layers, Memory>
        requires { (levels_of self.old).attempts ≡ [] }
        ensures same { levels_of self.new ≡ levels_of self.old }
        ensures shared { IfOk result
            (λ copy. levels_of copy ≡ only_store (seen (levels_of self.old))) }
    {
        Ok(Layers {
            store: self.store.share()?,
            output: List::new(alloc),
            cost: 0,
            top: None,
            below: List::new(alloc),
        })
    }
}

impl Layer {
    /// What it does to a store, without what it printed and cost.
    ///
    /// # Errors
    ///
    /// `Memory` where memory is wanting.
    #[tactic(auto, using(crate::proofs::Behind::told))]
    pub fn silent(&self, alloc: Global) -> Result<Layer, Memory>
        ensures { IfOk result (λ copy. effect_of copy ≡ silent_of (effect_of self.now)) }
    {
        let mut cells = IndexMap::new(alloc);
        for i in (0..self.cells.len()).rev() {
            let Some((loc, cell)) = self.cells.get_index(i) else {
                unreachable!()
            };
            put(&mut cells, *loc, cell.copy()?)?;
        }
        Ok(Layer {
            cells,
            output: List::new(alloc),
            cost: 0,
        })
    }

    /// What an attempt that did this and ended so is to the machine round it.
    ///
    /// # Errors
    ///
    /// `Memory` where memory is wanting.
    #[tactic(auto, using(crate::proofs::Behind::from_nothing))]
    pub fn closed(self, closing: Closing) -> Result<Layer, Memory>
        requires { (effect_of self).cost + 1 < 2 ^ 64 }
        ensures { IfOk result (λ whole. effect_of whole ≡ closed_by closing (effect_of self)) }
    {
        let alloc = self.output.allocator();
        let whole = merged(Layer::new(alloc), self, closing)?;
        Ok(whole)
    }
}

fn put(cells: &mut IndexMap<u64, Cell>, loc: u64, cell: Cell) -> Result<(), Memory>
    ensures { OnOk result ((k : ℕ) → get nat_eq cells.new k
        ≡ cond (nat_eq loc k) (Some cell) (get nat_eq cells.old k)) }
{
    cells.insert(loc, cell)?;
    Ok(())
}
