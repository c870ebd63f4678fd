//! A map from locations to values, and room for locations more.
ghost use Rattle.std.specs.Prelude.{◌≡◌, ◌+◌, ◌<◌, ◌≤◌, None, IsSome, IsOk, IfOk, OnOk, OnErr, nat_eq};
ghost use Rattle.std.specs.Option.{option_copied};
ghost use Rattle.indexmap.specs.IndexMap.{get, index_map_len, spare};
ghost use Rattle.fort_machine.specs.Journals.{opening_store};
ghost use Rattle.fort_machine.specs.Plain.{put};
ghost use Rattle.fort_store.specs.Held.{held, room, settled, taken_at, written};

use crate::tree::{Tree, get_in_row, put_in_row, share_row};
use fort_base::{Loc, Memory, Shared};
use fort_core::{Program, Value};
use indexmap::IndexMap;
use std::alloc::Global;

// How many locations a range has, each of which has a tree of its own.
const RANGE: u64 = 1 << 50;

/// Which values the locations have, as a finite map: a location has one value, or it isn't there.
///
/// What was put since the store was last shared stands in a hash map, whose numbers don't matter.
/// The rest stands in radix trees, one for each range of 2^50 locations, whose parts belong to
/// every store that was shared off: each is as deep as its largest location needs in base 32.
#[derive(Drop)]
pub struct Store {
    recent: IndexMap<u64, Value>,
    trees: Vec<Option<Shared<Tree>>>,
}

impl Store {
    /// The store of no locations; it takes no memory. The chapter "Store and effects".
    pub fn new(alloc: Global) -> Store
        ensures { held result ≡ (λ l. None) }
    {
        Store {
            recent: IndexMap::new(alloc),
            trees: Vec::new(alloc),
        }
    }

    /// The store that a program begins with: the top-level variables and the fields of the single
    /// objects. The chapter "Runs".
    ///
    /// # Errors
    ///
    /// `Memory` where memory is wanting.
    pub fn of(program: &Program) -> Result<Store, Memory>
        ensures { IfOk result (λ store. held store ≡ opening_store program.now) }
    {
        let alloc = program.opening.allocator();
        let opening = program.opening.as_slice();
        let mut store = Store::new(alloc);
        // Of two values for one location the first one counts, so it is put last.
        for i in (0..opening.len()).rev() {
            let (loc, value) = &opening[i];
            store.put(*loc, value.copy(alloc)?)?;
        }
        Ok(store)
    }

    /// The value at a location, or `None` where the store hasn't the location; it takes no memory.
    /// The chapter "Store and effects".
    ///
    /// It takes constant time on average for what was put since the store was last shared, else
    /// time for each digit of the location in base 32.
    pub fn look(&self, loc: Loc) -> Option<&Value>
        ensures { option_copied result ≡ held self.now loc.0 }
    {
        match self.recent.get(&loc.0) {
            Some(value) => Some(value),
            None => get_in_row(&self.trees, (loc.0 / RANGE) as usize, loc.0 % RANGE),
        }
    }

    /// Puts a value at a location, in the place of the one that is there; every other location
    /// keeps its value. It takes constant time on average. The chapter "Store and effects".
    ///
    /// It takes one place of the room at most, and none where a value was put at the location since
    /// the store was last shared.
    ///
    /// # Errors
    ///
    /// `Memory` where memory is wanting, and then no value was put at the location since the store
    /// was last shared, and there was no room: the store is as it was, and the value is dropped.
    pub fn put(&mut self, loc: Loc, value: Value) -> Result<(), Memory>
        ensures ok { OnOk result (held self.new ≡ put loc.0 value (held self.old)) }
        ensures err { OnErr result (held self.new ≡ held self.old) }
        ensures enough { 0 < room self.old → IsOk result }
        ensures there { IsSome (written self.old loc.0) → IsOk result }
        ensures taken { room self.old ≤ room self.new + taken_at (written self.old loc.0) }
    {
        put_recent(&mut self.recent, loc.0, value)
    }

    /// Makes room for `more` values: the next `more` calls of `put` can't fail, whatever they put,
    /// as long as the store isn't shared. No value changes.
    ///
    /// # Errors
    ///
    /// `Memory` where memory is wanting, and then there was less room: the room is as it was or
    /// larger.
    pub fn room(&mut self, more: u64) -> Result<(), Memory>
        ensures held { held self.new ≡ held self.old }
        ensures ok { OnOk result (more ≤ room self.new) }
        ensures kept { room self.old ≤ room self.new }
        ensures enough { more ≤ room self.old → IsOk result }
    {
        self.recent.reserve(more as usize)?;
        Ok(())
    }

    /// A store with the same values: what is put into one of the two afterwards doesn't change the
    /// other. No value changes. The chapter "Store and effects".
    ///
    /// It takes time for each value that was put since the store was last shared, and for each
    /// range that has locations; none for any other value.
    ///
    /// # Errors
    ///
    /// `Memory` where memory is wanting, or where a value has 2^63 owners.
    pub fn share(&mut self) -> Result<Store, Memory>
        ensures same { IfOk result (λ store. held store ≡ held self.old) }
        ensures held { held self.new ≡ held self.old }
        ensures kept { room self.old ≤ room self.new }
    {
        self.settle()?;
        let alloc = *self.recent.allocator();
        Ok(Store {
            recent: IndexMap::new(alloc),
            trees: share_row(alloc, &self.trees)?,
        })
    }

    /// A store with the same values, beside this one, which stays as it is. What is put into one of
    /// the two afterwards doesn't change the other. The chapter "Store and effects".
    ///
    /// It takes time for each value that was put since the store was last shared, and for each
    /// range that has locations; none for any other value.
    ///
    /// # Errors
    ///
    /// `Memory` where memory is wanting, or where a value has 2^63 owners.
    pub fn again(&self) -> Result<Store, Memory>
        ensures { IfOk result (λ store. held store ≡ held self.now) }
    {
        let alloc = *self.recent.allocator();
        let mut store = Store {
            recent: IndexMap::new(alloc),
            trees: share_row(alloc, &self.trees)?,
        };
        for i in (0..self.recent.len()).rev() {
            let Some((loc, value)) = self.recent.get_index(i) else {
                unreachable!()
            };
            store.put(Loc(*loc), value.share()?)?;
        }
        Ok(store)
    }

    // What was put since the store was last shared goes into the trees.
    fn settle(&mut self) -> Result<(), Memory>
        ensures held { held self.new ≡ held self.old }
        ensures kept { room self.old ≤ room self.new }
        ensures ok { OnOk result (index_map_len self.new.recent ≡ 0) }
    {
        while !self.recent.is_empty() {
            self.settle_last()?;
        }
        Ok(())
    }

    // The value that was put last goes into the trees; it goes out of the map once it is there.
    fn settle_last(&mut self) -> Result<(), Memory>
        requires { 0 < index_map_len self.old.recent }
        ensures held { held self.new ≡ held self.old }
        ensures kept { room self.old ≤ room self.new }
        ensures less { OnOk result
            (index_map_len self.new.recent < index_map_len self.old.recent) }
    {
        let alloc = *self.recent.allocator();
        let loc = match self.recent.get_index(self.recent.len() - 1) {
            None => unreachable!(),
            Some((loc, value)) => {
                put_settled(alloc, &mut self.trees, *loc, value.share()?)?;
                *loc
            }
        };
        self.recent.swap_remove(&loc);
        Ok(())
    }
}

fn put_recent(recent: &mut IndexMap<u64, Value>, loc: u64, value: Value) -> Result<(), Memory>
    ensures ok { OnOk result (get nat_eq recent.new ≡ put loc value (get nat_eq recent.old)) }
    ensures err { OnErr result (get nat_eq recent.new ≡ get nat_eq recent.old) }
    ensures enough { 0 < spare recent.old → IsOk result }
    ensures there { IsSome (get nat_eq recent.old loc) → IsOk result }
    ensures taken { spare recent.old ≤ spare recent.new + taken_at (get nat_eq recent.old loc) }
{
    match recent.get_mut(&loc) {
        Some(place) => *place = value,
        None => {
            recent.insert(loc, value)?;
        }
    }
    Ok(())
}

fn put_settled(
    alloc: Global,
    trees: &mut Vec<Option<Shared<Tree>>>,
    loc: u64,
    value: Value,
) -> Result<(), Memory>
    ensures ok { OnOk result (settled trees.new.items ≡ put loc value (settled trees.old.items)) }
    ensures err { OnErr result (settled trees.new.items ≡ settled trees.old.items) }
{
    put_in_row(alloc, trees, (loc / RANGE) as usize, loc % RANGE, value)
}
