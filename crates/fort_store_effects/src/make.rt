//! New locations.
ghost use Rattle.std.specs.Prelude.{◌≡◌, ◌+◌, ◌<◌, ◌≤◌, ◌^◌, IfOk, OnOk, length, slice_get};
ghost use Rattle.fort_machine.specs.Cells.{joined, left_at};
ghost use Rattle.fort_machine.specs.Effects.{made_from, making};
ghost use Rattle.fort_store.specs.Held.{held};
ghost use Rattle.fort_store_effects.specs.Levels.{cells_of, levels_of, seen, spent};
ghost use Rattle.fort_store_effects.specs.Calls.{Adds, AreFree, MadeAt, PutAt};

use crate::cell::Cell;
use crate::layer::Layer;
use crate::layers::Layers;
use fort_base::{List, Loc, Memory};
use fort_core::Value;
use fort_store::Store;

impl Layers {
    /// Puts values into consecutive locations that aren't there yet, the first of a number, for the
    /// innermost machine, at a cost.
    ///
    /// # Errors
    ///
    /// `Memory` where memory is wanting; then some of the locations may be made.
    #[tactic(auto, using(crate::proofs::Made::puts_top, crate::proofs::Made::puts_root))]
    pub fn make(&mut self, first: Loc, values: &List<Value>, cost: u64) -> Result<(), Memory>
        requires free { AreFree first.0 (length values.now) (seen (levels_of self.old)) }
        requires bounded { first.0 + length values.now ≤ 2 ^ 64 }
        requires room { spent (levels_of self.old) + cost < 2 ^ 64 }
        ensures { OnOk result
            (Adds (making first.0 values.now cost) (levels_of self.old) (levels_of self.new)) }
    {
        match &mut self.top {
            None => {
                make_in_store(&mut self.store, first.0, values)?;
                self.cost += cost;
                Ok(())
            }
            Some(top) => {
                make_in_layer(top, first.0, values)?;
                top.cost += cost;
                Ok(())
            }
        }
    }
}

// New locations of an attempt.
pub(crate) fn make_in_layer(layer: &mut Layer, at: u64, values: &List<Value>) -> Result<(), Memory>
    requires { at + length values.now ≤ 2 ^ 64 }
    ensures cells { OnOk result (cells_of layer.new
        ≡ (λ k. joined (cells_of layer.old k) (made_from at values.now k))) }
    ensures output { layer.new.output ≡ layer.old.output }
    ensures cost { layer.new.cost ≡ layer.old.cost }
{
    for i in 0..values.len() {
        make_value(layer, at, values, i)?;
    }
    Ok(())
}

// The value of a number is made at its location.
#[tactic(auto, using(crate::proofs::Made::make_nothing, crate::proofs::Made::make_something))]
fn make_value(layer: &mut Layer, at: u64, values: &List<Value>, i: usize) -> Result<(), Memory>
    requires { at + length values.now ≤ 2 ^ 64 }
    ensures cells { IfOk result
        (λ _. MadeAt (at + i) (slice_get values.now i) (cells_of layer.old) (cells_of layer.new)) }
    ensures output { layer.new.output ≡ layer.old.output }
    ensures cost { layer.new.cost ≡ layer.old.cost }
{
    match values.get(i) {
        None => Ok(()),
        Some(value) => {
            let value = value.share()?;
            layer.join(Loc(at + i as u64), Cell::Made(Some(value)))?;
            Ok(())
        }
    }
}

// New locations of the root.
fn make_in_store(store: &mut Store, at: u64, values: &List<Value>) -> Result<(), Memory>
    requires { at + length values.now ≤ 2 ^ 64 }
    ensures { OnOk result (held store.new
        ≡ (λ k. left_at (made_from at values.now k) (held store.old k))) }
{
    for i in 0..values.len() {
        put_value(store, at, values, i)?;
    }
    Ok(())
}

// The value of a number is put at its location.
#[tactic(auto, using(crate::proofs::Made::put_nothing, crate::proofs::Made::put_something))]
fn put_value(store: &mut Store, at: u64, values: &List<Value>, i: usize) -> Result<(), Memory>
    requires { at + length values.now ≤ 2 ^ 64 }
    ensures { IfOk result
        (λ _. PutAt (at + i) (slice_get values.now i) (held store.old) (held store.new)) }
{
    match values.get(i) {
        None => Ok(()),
        Some(value) => {
            let value = value.share()?;
            store.put(Loc(at + i as u64), value)?;
            Ok(())
        }
    }
}
