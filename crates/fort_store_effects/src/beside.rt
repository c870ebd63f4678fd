//! What is done beside a run: a layer of its own, over layers that stay as they are, which the
//! innermost machine takes in afterwards.
ghost use Rattle.std.specs.Prelude.{◌≡◌, ◌↔◌, ◌+◌, ◌<◌, ◌≤◌, ◌^◌, length, slice_get, IfOk, OnOk, IsTrue};
ghost use Rattle.std.specs.Option.{option_copied};
ghost use Rattle.fort_machine.specs.Cells.{Fits};
ghost use Rattle.fort_machine.specs.Effects.{FitsAll, afterwards, both, making, printed, reading, writing};
ghost use Rattle.fort_store_effects.specs.Cells.{cell};
ghost use Rattle.fort_store_effects.specs.Levels.{effect_of, levels_of, seen, spent};
ghost use Rattle.fort_store_effects.specs.Calls.{Adds, SuitsAt};

use crate::cell::{Cell, Closing, Left};
use crate::close::{joined, settled};
use crate::layer::Layer;
use crate::layers::Layers;
use crate::make::make_in_layer;
use fort_base::{Bytes, List, Loc, Memory};
use fort_core::Value;

impl Layer {
    /// What it cost so far.
    pub fn cost(&self) -> u64
        ensures { result ≡ (effect_of self.now).cost }
    {
        self.cost
    }

    /// The value at a location as it stands after what was done here over other layers, or `None`
    /// where the location isn't there; it takes no memory.
    pub fn look<'a>(&'a self, below: &'a Layers, loc: Loc) -> Option<&'a Value>
        ensures { option_copied result
            ≡ afterwards (effect_of self.now) (seen (levels_of below.now)) loc.0 }
    {
        match self.left(loc) {
            Left::Here(value) => Some(value),
            Left::Gone => None,
            Left::Below => below.look(loc),
        }
    }

    /// A value is read at a location, at the cost of 1.
    ///
    /// # Errors
    ///
    /// `Memory` where memory is wanting.
    pub fn read(&mut self, loc: Loc, value: &Value) -> Result<(), Memory>
        requires { (effect_of self.old).cost + 1 < 2 ^ 64 }
        ensures { OnOk result
            (effect_of self.new ≡ both (effect_of self.old) (reading loc.0 value.now)) }
    {
        let read = value.share()?;
        self.join(loc, Cell::Found(Some(read), None))?;
        self.cost += 1;
        Ok(())
    }

    /// A value is written to a location that is there, at the cost of 1.
    ///
    /// # Errors
    ///
    /// `Memory` where memory is wanting.
    pub fn write(&mut self, loc: Loc, value: Value) -> Result<(), Memory>
        requires { (effect_of self.old).cost + 1 < 2 ^ 64 }
        ensures { OnOk result
            (effect_of self.new ≡ both (effect_of self.old) (writing loc.0 value)) }
    {
        self.join(loc, Cell::Found(None, Some(value)))?;
        self.cost += 1;
        Ok(())
    }

    /// A text is printed, at a cost.
    ///
    /// # Errors
    ///
    /// `Memory` where memory is wanting.
    pub fn print(&mut self, text: Bytes, cost: u64) -> Result<(), Memory>
        requires { (effect_of self.old).cost + cost < 2 ^ 64 }
        ensures { OnOk result
            (effect_of self.new ≡ both (effect_of self.old) (printed text cost)) }
    {
        self.output.append(text)?;
        self.cost += cost;
        Ok(())
    }

    /// Values are put into consecutive new locations, the first of a number, at a cost.
    ///
    /// # Errors
    ///
    /// `Memory` where memory is wanting.
    pub fn make(&mut self, first: Loc, values: &List<Value>, cost: u64) -> Result<(), Memory>
        requires bounded { first.0 + length values.now ≤ 2 ^ 64 }
        requires room { (effect_of self.old).cost + cost < 2 ^ 64 }
        ensures { OnOk result
            (effect_of self.new ≡ both (effect_of self.old) (making first.0 values.now cost)) }
    {
        make_in_layer(self, first.0, values)?;
        self.cost += cost;
        Ok(())
    }

    /// Whether something else that was done over the same layers may follow what was done here: at
    /// each location that it touched stands what it found there.
    pub fn admits(&self, below: &Layers, next: &Layer) -> bool
        ensures { IsTrue result
            ↔ FitsAll (effect_of next.now)
            (afterwards (effect_of self.now) (seen (levels_of below.now))) }
    {
        for i in 0..next.cells.len() {
            if !self.admits_at(below, next, i) {
                return false;
            }
        }
        true
    }

    // Whether the cell of a number among those of something else suits what stands at its location.
    fn admits_at(&self, below: &Layers, next: &Layer, i: usize) -> bool
        ensures { IsTrue result
            ↔ SuitsAt (slice_get next.now.cells.entries i)
            (afterwards (effect_of self.now) (seen (levels_of below.now))) }
    {
        match next.cells.get_index(i) {
            None => true,
            Some((loc, change)) => suits(change, self.look(below, Loc(*loc))),
        }
    }

    /// What was done here, and then something else.
    ///
    /// # Errors
    ///
    /// `Memory` where memory is wanting; both are let go.
    pub fn then(self, next: Layer) -> Result<Layer, Memory>
        requires { (effect_of self).cost + (effect_of next).cost < 2 ^ 64 }
        ensures { IfOk result (λ all. effect_of all ≡ both (effect_of self) (effect_of next)) }
    {
        let Layer {
            cells,
            output: text,
            cost: paid,
        } = next;
        let mut all = joined(self, cells, Closing::Completed)?;
        all.output.append(text)?;
        all.cost += paid;
        Ok(all)
    }
}

impl Layers {
    /// What was done beside is done by the innermost machine. It takes time for each location that
    /// was touched there, and for no other one.
    ///
    /// # Errors
    ///
    /// `Memory` where memory is wanting; the layers are let go.
    pub fn take(self, next: Layer) -> Result<Layers, Memory>
        requires fits { FitsAll (effect_of next) (seen (levels_of self)) }
        requires room { spent (levels_of self) + (effect_of next).cost < 2 ^ 64 }
        ensures { IfOk result
            (λ layers. Adds (effect_of next) (levels_of self) (levels_of layers)) }
    {
        let Layers {
            store,
            mut output,
            cost,
            top,
            below,
        } = self;
        match top {
            None => {
                let Layer {
                    cells,
                    output: text,
                    cost: paid,
                } = next;
                output.append(text)?;
                Ok(Layers {
                    store: settled(store, cells, Closing::Completed)?,
                    output,
                    cost: cost + paid,
                    top: None,
                    below,
                })
            }
            Some(top) => Ok(Layers {
                store,
                output,
                cost,
                top: Some(top.then(next)?),
                below,
            }),
        }
    }
}

// Whether a cell suits the value that stands at its location, or that there is none.
fn suits(change: &Cell, value: Option<&Value>) -> bool
    ensures { IsTrue result ↔ Fits (cell change.now) (option_copied value.entry) }
{
    match (change, value) {
        (Cell::Found(_, _), None) => false,
        (Cell::Found(None, _), Some(_)) => true,
        (Cell::Found(Some(read), _), Some(value)) => value.same(read),
        (Cell::Made(_), None) => true,
        (Cell::Made(_), Some(_)) => false,
    }
}
