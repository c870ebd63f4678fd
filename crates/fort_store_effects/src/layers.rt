//! The attempts that are open, over the root's store.
ghost use Rattle.std.specs.Prelude.{◌≡◌, ℕ, ◌+◌, ◌<◌, ◌^◌, [], ◌++◌, IfOk, IsSome, OnOk, OnErr, Some};
ghost use Rattle.std.specs.Option.{option_copied};
ghost use Rattle.fort_machine.specs.Cells.{Fits, left_at};
ghost use Rattle.fort_machine.specs.Effects.{only_at, printed, reading};
ghost use Rattle.fort_store.specs.Held.{held};
ghost use Rattle.fort_store_effects.specs.Cells.{cell};
ghost use Rattle.fort_store_effects.specs.Levels.{attempts_of, inward, put_some, through, levels_of, first_levels, seen, added, opened, touching, spent};
ghost use Rattle.fort_store_effects.specs.Calls.{Adds, Reads, Writes};

use crate::cell::{Cell, Left};
use crate::layer::Layer;
use fort_base::{Bytes, List, Loc, Memory};
use fort_core::{Program, Value};
use fort_store::Store;
use std::alloc::Global;

/// What a run did so far, and the attempts that are open in it: the root's store with what the
/// root's run printed and cost, and a layer for each attempt that isn't finished, in which is what
/// it did over the store below.
#[derive(Drop)]
pub struct Layers {
    pub(crate) store: Store,
    pub(crate) output: Bytes,
    pub(crate) cost: u64,
    // The innermost attempt, and those round it, the outermost one first; without the innermost one
    // they don't count.
    pub(crate) top: Option<Layer>,
    pub(crate) below: List<Layer>,
}

/// What the root's run printed, in UTF-8, and what it cost.
#[derive(Drop)]
pub struct Account {
    pub output: Bytes,
    pub cost: u64,
}

impl Layers {
    /// A program before its run: no attempt is open, and the store is the opening store.
    ///
    /// # Errors
    ///
    /// `Memory` where memory is wanting.
    pub fn of(alloc: Global, program: &Program) -> Result<Layers, Memory>
        ensures { IfOk result (λ layers. levels_of layers ≡ first_levels program.now) }
    {
        Ok(Layers {
            store: Store::of(program)?,
            output: List::new(alloc),
            cost: 0,
            top: None,
            below: List::new(alloc),
        })
    }

    /// What the root's run printed so far, in UTF-8; what open attempts printed isn't in it.
    pub fn output(&self) -> &[u8]
        ensures { result.now ≡ (levels_of self.now).output }
    {
        self.output.as_slice()
    }

    /// The value at a location as the innermost machine sees it, or `None` where the location isn't
    /// there; it takes no memory, and constant time for each open attempt on average.
    pub fn look(&self, loc: Loc) -> Option<&Value>
        ensures { option_copied result ≡ seen (levels_of self.now) loc.0 }
    {
        match &self.top {
            None => self.store.look(loc),
            Some(top) => match top.left(loc) {
                Left::Here(value) => Some(value),
                Left::Gone => None,
                Left::Below => look_below(self.below.as_slice(), &self.store, loc),
            },
        }
    }

    /// Reads a location for the innermost machine, at the cost of 1: its value, or `None` where it
    /// isn't there, and then nothing is done.
    ///
    /// # Errors
    ///
    /// `Memory` where memory is wanting, and then nothing is done.
    pub fn read(&mut self, loc: Loc) -> Result<Option<Value>, Memory>
        requires room { spent (levels_of self.old) + 1 < 2 ^ 64 }
        ensures ok { IfOk result (Reads loc.0 (levels_of self.old) (levels_of self.new)) }
        ensures err { OnErr result (levels_of self.new ≡ levels_of self.old) }
    {
        let value = match self.look(loc) {
            None => return Ok(None),
            Some(value) => value.share()?,
        };
        self.note_read(loc, &value)?;
        Ok(Some(value))
    }

    /// Writes a location for the innermost machine, at the cost of 1; or it answers `false` where
    /// the location isn't there, and then nothing is done.
    ///
    /// # Errors
    ///
    /// `Memory` where memory is wanting, and then nothing is done.
    pub fn write(&mut self, loc: Loc, value: Value) -> Result<bool, Memory>
        requires room { spent (levels_of self.old) + 1 < 2 ^ 64 }
        ensures ok { IfOk result (Writes loc.0 value (levels_of self.old) (levels_of self.new)) }
        ensures err { OnErr result (levels_of self.new ≡ levels_of self.old) }
    {
        match self.look(loc) {
            None => Ok(false),
            Some(_) => self.write_there(loc, value),
        }
    }

    /// The innermost machine prints a text, at a cost.
    ///
    /// # Errors
    ///
    /// `Memory` where memory is wanting, and then nothing is done.
    #[tactic(auto, using(crate::proofs::Touched::printed_root, crate::proofs::Touched::printed_top))]
    pub fn print(&mut self, text: Bytes, cost: u64) -> Result<(), Memory>
        requires room { spent (levels_of self.old) + cost < 2 ^ 64 }
        ensures ok { OnOk result
            (Adds (printed text cost) (levels_of self.old) (levels_of self.new)) }
        ensures err { OnErr result (levels_of self.new ≡ levels_of self.old) }
    {
        match &mut self.top {
            None => {
                self.output.append(text)?;
                self.cost += cost;
            }
            Some(top) => {
                top.output.append(text)?;
                top.cost += cost;
            }
        }
        Ok(())
    }

    /// Begins an attempt within the innermost one.
    ///
    /// # Errors
    ///
    /// `Memory` where memory is wanting; the layers are let go.
    #[tactic(auto, using(crate::proofs::Touched::opened_layers))]
    pub fn open(self, alloc: Global) -> Result<Layers, Memory>
        ensures { IfOk result (λ layers. levels_of layers ≡ opened (levels_of self)) }
    {
        let Layers {
            store,
            output,
            cost,
            top,
            below,
        } = self;
        Ok(Layers {
            store,
            output,
            cost,
            top: Some(Layer::new(alloc)),
            below: put_below(alloc, top, below)?,
        })
    }

    /// What the root's run printed and cost, without the attempts that are open; it takes no
    /// memory.
    pub fn account(self) -> Account
        ensures output { result.output ≡ (levels_of self).output }
        ensures cost { result.cost ≡ (levels_of self).cost }
    {
        let Layers {
            store: _store,
            output,
            cost,
            top: _top,
            below: _below,
        } = self;
        Account { output, cost }
    }

    // A value that stands at a location was read.
    #[tactic(auto, using(crate::proofs::Touched::read_fits, crate::proofs::Touched::reads_there))]
    fn note_read(&mut self, loc: Loc, value: &Value) -> Result<(), Memory>
        requires there { seen (levels_of self.old) loc.0 ≡ Some value.now }
        requires room { spent (levels_of self.old) + 1 < 2 ^ 64 }
        ensures ok { OnOk result
            (Adds (reading loc.0 value.now) (levels_of self.old) (levels_of self.new)) }
        ensures err { OnErr result (levels_of self.new ≡ levels_of self.old) }
    {
        let read = value.share()?;
        self.touch(loc, Cell::Found(Some(read), None), 1)?;
        Ok(())
    }

    // A location that is there is written.
    #[tactic(auto, using(crate::proofs::Touched::write_fits, crate::proofs::Touched::writes_there))]
    fn write_there(&mut self, loc: Loc, value: Value) -> Result<bool, Memory>
        requires there { IsSome (seen (levels_of self.old) loc.0) }
        requires room { spent (levels_of self.old) + 1 < 2 ^ 64 }
        ensures ok { IfOk result (Writes loc.0 value (levels_of self.old) (levels_of self.new)) }
        ensures err { OnErr result (levels_of self.new ≡ levels_of self.old) }
    {
        self.touch(loc, Cell::Found(None, Some(value)), 1)?;
        Ok(true)
    }

    // The innermost machine touches a location, at a cost.
    pub(crate) fn touch(&mut self, loc: Loc, change: Cell, cost: u64) -> Result<(), Memory>
        requires fits { Fits (cell change) (seen (levels_of self.old) loc.0) }
        requires room { spent (levels_of self.old) + cost < 2 ^ 64 }
        ensures ok { OnOk result (levels_of self.new
            ≡ added (touching loc.0 (cell change) cost) (levels_of self.old)) }
        ensures err { OnErr result (levels_of self.new ≡ levels_of self.old) }
    {
        match &mut self.top {
            None => {
                settle(&mut self.store, loc, change)?;
                self.cost += cost;
            }
            Some(top) => {
                top.join(loc, change)?;
                top.cost += cost;
            }
        }
        Ok(())
    }
}

// The innermost layer on the others; without it they don't count.
#[tactic(auto, using(crate::proofs::Seen::inward_last))]
fn put_below(alloc: Global, top: Option<Layer>, below: List<Layer>) -> Result<List<Layer>, Memory>
    ensures { IfOk result (λ all. inward all [] ≡ attempts_of top below) }
{
    match top {
        None => Ok(List::new(alloc)),
        Some(top) => {
            let mut all = below;
            all.push(top)?;
            Ok(all)
        }
    }
}

// The value at a location as attempts leave it, the outermost one first.
fn look_below<'a>(below: &'a [Layer], store: &'a Store, loc: Loc) -> Option<&'a Value>
    ensures { option_copied result ≡ through (held store.now) (inward below.now []) loc.0 }
{
    for i in (0..below.len()).rev() {
        match below[i].left(loc) {
            Left::Here(value) => return Some(value),
            Left::Gone => return None,
            Left::Below => {}
        }
    }
    store.look(loc)
}

// What was done at a location is done to a store.
pub(crate) fn settle(store: &mut Store, loc: Loc, change: Cell) -> Result<(), Memory>
    requires { Fits (cell change) (held store.old loc.0) }
    ensures ok { OnOk result (held store.new
        ≡ (λ k. left_at (only_at loc.0 (cell change) k) (held store.old k))) }
    ensures err { OnErr result (held store.new ≡ held store.old) }
{
    match change {
        Cell::Found(_, now) => settle_now(store, loc, now),
        Cell::Made(now) => settle_now(store, loc, now),
    }
}

// A value is put at a location, where there is one.
fn settle_now(store: &mut Store, loc: Loc, now: Option<Value>) -> Result<(), Memory>
    ensures ok { OnOk result (held store.new ≡ put_some loc.0 now (held store.old)) }
    ensures err { OnErr result (held store.new ≡ held store.old) }
{
    match now {
        None => Ok(()),
        Some(value) => store.put(loc, value),
    }
}
