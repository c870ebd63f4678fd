//! The end of an attempt.
ghost use Rattle.std.specs.Prelude.{◌≡◌, ℕ, ◌+◌, ◌<◌, ◌^◌, [], IfOk};
ghost use Rattle.indexmap.specs.IndexMap.{index_map_len};
ghost use Rattle.fort_machine.specs.Effects.{FitsAll, both};
ghost use Rattle.fort_store.specs.Held.{held};
ghost use Rattle.fort_store_effects.specs.Levels.{HasAttempt, IsOpen, closing as closed_by, effect_of, levels_of, root_closed, spent, text_after, undone};
ghost use Rattle.fort_store_effects.specs.Closes.{Closes, JoinsAll, JoinsLast, SettlesAll, SettlesLast, SuitsAll};

use crate::cell::{Cell, Closing};
use crate::layer::Layer;
use crate::layers::{Layers, settle};
use fort_base::{Bytes, List, Loc, Memory};
use fort_store::Store;
use indexmap::IndexMap;

// What an attempt did, done by the attempt round it.
#[tactic(auto, using(crate::proofs::Closed::merges))]
pub(crate) fn merged(parent: Layer, layer: Layer, closing: Closing) -> Result<Layer, Memory>
    requires { parent.cost + 1 + layer.cost < 2 ^ 64 }
    ensures { IfOk result (λ whole. effect_of whole
        ≡ both (effect_of parent) (closed_by closing (effect_of layer))) }
{
    let Layer {
        cells,
        output: text,
        cost: paid,
    } = layer;
    let Layer {
        cells: whole,
        output,
        cost,
    } = joined(parent, cells, closing)?;
    Ok(Layer {
        cells: whole,
        output: printed(output, text, closing)?,
        cost: cost + 1 + paid,
    })
}

// The text of an attempt that ended so goes behind what was printed before.
pub(crate) fn printed(output: Bytes, text: Bytes, closing: Closing) -> Result<Bytes, Memory>
    ensures { IfOk result (λ whole. whole ≡ text_after closing output text) }
{
    match closing {
        Closing::Completed => {
            let mut whole = output;
            whole.append(text)?;
            Ok(whole)
        }
        Closing::Failed => Ok(output),
        Closing::Aborted => Ok(output),
    }
}

// The cells of an attempt that ended so, joined to those of the attempt round it.
#[tactic(auto, using(crate::proofs::Popped::joined_all))]
pub(crate) fn joined(
    parent: Layer,
    cells: IndexMap<u64, Cell>,
    closing: Closing,
) -> Result<Layer, Memory>
    ensures { IfOk result (JoinsAll closing parent cells) }
{
    let mut whole = parent;
    let mut cells = cells;
    let count = cells.len();
    for at in 0..count {
        let _at = at;
        join_last(&mut whole, &mut cells, closing)?;
    }
    Ok(whole)
}

// The last cell is joined to those of the attempt round it.
#[tactic(auto, using(crate::proofs::Popped::join_last))]
fn join_last(
    whole: &mut Layer,
    cells: &mut IndexMap<u64, Cell>,
    closing: Closing,
) -> Result<(), Memory>
    requires { 0 < index_map_len cells.old }
    ensures { IfOk result (λ _. JoinsLast closing whole.old cells.old whole.new cells.new) }
{
    match cells.pop() {
        None => unreachable!(),
        Some((loc, cell)) => {
            let closed = cell.closed(closing);
            whole.join(Loc(loc), closed)?;
            Ok(())
        }
    }
}

// The cells of an attempt that ended so, done to the root's store.
#[tactic(auto, using(crate::proofs::Popped::settled_all))]
pub(crate) fn settled(
    store: Store,
    cells: IndexMap<u64, Cell>,
    closing: Closing,
) -> Result<Store, Memory>
    requires { SuitsAll closing store cells }
    ensures { IfOk result (SettlesAll closing store cells) }
{
    let mut store = store;
    let mut cells = cells;
    let count = cells.len();
    for at in 0..count {
        let _at = at;
        settle_last(&mut store, &mut cells, closing)?;
    }
    Ok(store)
}

// The last cell is done to the root's store.
#[tactic(auto, using(crate::proofs::Popped::settle_last, crate::proofs::Popped::suits_here))]
fn settle_last(
    store: &mut Store,
    cells: &mut IndexMap<u64, Cell>,
    closing: Closing,
) -> Result<(), Memory>
    requires some { 0 < index_map_len cells.old }
    requires suits { SuitsAll closing store.old cells.old }
    ensures { IfOk result (λ _. SettlesLast closing store.old cells.old store.new cells.new) }
{
    match cells.pop() {
        None => unreachable!(),
        Some((loc, cell)) => {
            let closed = cell.closed(closing);
            settle(store, Loc(loc), closed)?;
            Ok(())
        }
    }
}

impl Layers {
    /// Ends the innermost attempt: what it did, by how it ended, is done by the machine round it,
    /// and 1 is paid for the attempt itself. It takes time for each location that the attempt
    /// touched, and for no other one.
    ///
    /// # Errors
    ///
    /// `Memory` where memory is wanting; the layers are let go.
    #[tactic(auto, using(crate::proofs::Closed::closes_parent, crate::proofs::Closed::closes_last, crate::proofs::Closed::room_parent, crate::proofs::Closed::room_root, crate::proofs::Closed::open_root))]
    pub fn close(self, closing: Closing) -> Result<Layers, Memory>
        requires open { IsOpen (levels_of self).store (levels_of self).attempts }
        requires room { spent (levels_of self) < 2 ^ 64 }
        ensures { IfOk result (λ layers. Closes closing (levels_of self) (levels_of layers)) }
    {
        let Layers {
            store,
            output,
            cost,
            top,
            mut below,
        } = self;
        let layer = match top {
            None => unreachable!(),
            Some(layer) => layer,
        };
        match below.pop() {
            None => close_root(store, output, cost, layer, closing),
            Some(parent) => {
                let whole = merged(parent, layer, closing)?;
                Ok(Layers {
                    store,
                    output,
                    cost,
                    top: Some(whole),
                    below,
                })
            }
        }
    }

    /// Undoes the innermost attempt, as if it had never begun: what it did and what it printed is
    /// let go, and nothing is paid. It answers what the attempt had cost, without the 1 for itself;
    /// it takes no memory.
    pub fn undo(&mut self) -> u64
        requires { HasAttempt (levels_of self.old).attempts }
        ensures undone { levels_of self.new ≡ undone (levels_of self.old) }
        ensures cost { spent (levels_of self.new) + 1 + result ≡ spent (levels_of self.old) }
    {
        let cost = match &self.top {
            None => unreachable!(),
            Some(top) => top.cost,
        };
        self.top = self.below.pop();
        cost
    }
}

// The outermost attempt ends.
#[tactic(auto, using(crate::proofs::Closed::closes_root, crate::proofs::Closed::suits_closed))]
fn close_root(
    store: Store,
    output: Bytes,
    cost: u64,
    layer: Layer,
    closing: Closing,
) -> Result<Layers, Memory>
    requires fits { FitsAll (effect_of layer) (held store) }
    requires room { cost + 1 + layer.cost < 2 ^ 64 }
    ensures { IfOk result (λ layers. levels_of layers
        ≡ root_closed closing (held store) output cost (effect_of layer)) }
{
    let below = List::new(layer.output.allocator());
    let Layer {
        cells,
        output: text,
        cost: paid,
    } = layer;
    Ok(Layers {
        store: settled(store, cells, closing)?,
        output: printed(output, text, closing)?,
        cost: cost + 1 + paid,
        top: None,
        below,
    })
}
