//! Radix trees of values by number, of which several owners can have parts. Who puts a value copies
//! what it shares with others on the way there, and changes in place what is its own.
ghost use Rattle.std.specs.Prelude.{◌≡◌, ◌<◌, None, IfOk, OnOk, OnErr, vec_len};
ghost use Rattle.std.specs.Option.{option_copied};
ghost use Rattle.fort_machine.specs.Plain.{put as put_at};
ghost use Rattle.fort_store.specs.Trees.{branch, branches, kept, placed as placed_at, put_in, rest as rest_of, way as way_of};

use fort_base::{Memory, Shared};
use fort_core::Value;
use std::alloc::Global;

// How many values a tree has itself, and how many branches.
const WAYS: u64 = 32;

/// Values by number: those of the numbers below 32, and branches for the others.
///
/// Neither list is longer than what stands in it asks for, so that a tree without values takes no
/// memory. A tree is as deep as its largest number has digits in base 32.
#[derive(Drop)]
pub(crate) struct Tree {
    own: Vec<Option<Value>>,
    below: Vec<Option<Shared<Tree>>>,
}

fn way(number: u64) -> usize
    ensures { result ≡ way_of number }
{
    (number / WAYS % WAYS) as usize
}

fn rest(number: u64) -> u64
    ensures { result ≡ rest_of number }
{
    number / WAYS / WAYS * WAYS + number % WAYS
}

// What stands at a place of a row, if anything does.
fn placed<X>(row: &[Option<X>], at: usize) -> Option<&X>
    ensures { option_copied result ≡ placed_at row.now at }
{
    match row.get(at) {
        None => None,
        Some(place) => place.as_ref(),
    }
}

// Makes a row so long that it has a place, with nothing at the new ones.
fn reach<X: Drop>(row: &mut Vec<Option<X>>, at: usize) -> Result<(), Memory>
    ensures same { placed_at row.new.items ≡ placed_at row.old.items }
    ensures within { OnOk result (at < vec_len row.new) }
{
    while row.len() <= at {
        row.push(None)?;
    }
    Ok(())
}

impl Tree {
    fn new(alloc: Global) -> Tree
        ensures { kept result ≡ (λ n. None) }
    {
        Tree {
            own: Vec::new(alloc),
            below: Vec::new(alloc),
        }
    }

    fn get(&self, number: u64) -> Option<&Value>
        ensures { option_copied result ≡ kept self.now number }
    {
        let mut tree = self;
        let mut number = number;
        while number >= WAYS {
            tree = placed(&tree.below, way(number))?.get();
            number = rest(number);
        }
        placed(&tree.own, number as usize)
    }

    // A tree of its own with the same values, which shares the branches.
    fn copy(&self, alloc: Global) -> Result<Tree, Memory>
        ensures { IfOk result (λ copy. kept copy ≡ kept self.now) }
    {
        Ok(Tree {
            own: share_values(alloc, &self.own)?,
            below: share_row(alloc, &self.below)?,
        })
    }

    #[cycle(put)]
    fn put(&mut self, alloc: Global, number: u64, value: Value) -> Result<(), Memory>
        ensures ok { OnOk result (kept self.new ≡ put_at number value (kept self.old)) }
        ensures err { OnErr result (kept self.new ≡ kept self.old) }
    {
        if number < WAYS {
            return set(&mut self.own, number as usize, value);
        }
        put_in_row(alloc, &mut self.below, way(number), rest(number), value)
    }
}

fn share_values(alloc: Global, row: &Vec<Option<Value>>) -> Result<Vec<Option<Value>>, Memory>
    ensures { IfOk result (λ copy. copy.items ≡ row.now.items) }
{
    let mut all = Vec::new(alloc);
    for place in row.as_slice() {
        let one = match place {
            None => None,
            Some(value) => Some(value.share()?),
        };
        all.push(one)?;
    }
    Ok(all)
}

fn set(row: &mut Vec<Option<Value>>, at: usize, value: Value) -> Result<(), Memory>
    ensures ok { OnOk result (placed_at row.new.items ≡ put_at at value (placed_at row.old.items)) }
    ensures err { OnErr result (placed_at row.new.items ≡ placed_at row.old.items) }
{
    reach(row, at)?;
    row[at] = Some(value);
    Ok(())
}

/// A row of the same trees, each with one owner more. It takes time for each place of the row, and
/// for nothing in the trees.
pub(crate) fn share_row(
    alloc: Global,
    row: &Vec<Option<Shared<Tree>>>,
) -> Result<Vec<Option<Shared<Tree>>>, Memory>
    ensures { IfOk result (λ copy. copy.items ≡ row.now.items) }
{
    let mut all = Vec::new(alloc);
    for place in row.as_slice() {
        let one = match place {
            None => None,
            Some(tree) => Some(tree.share()?),
        };
        all.push(one)?;
    }
    Ok(all)
}

/// The value of a number in the tree at a place of a row, or `None`. It takes time for each digit
/// of the number.
pub(crate) fn get_in_row(row: &[Option<Shared<Tree>>], way: usize, number: u64) -> Option<&Value>
    ensures { option_copied result ≡ branches row.now way number }
{
    match placed(row, way) {
        None => None,
        Some(tree) => tree.get().get(number),
    }
}

/// Puts a value for a number into the tree at a place of a row.
///
/// # Errors
///
/// `Memory` where memory is wanting, and then no value changes.
#[cycle(put)]
pub(crate) fn put_in_row(
    alloc: Global,
    row: &mut Vec<Option<Shared<Tree>>>,
    way: usize,
    number: u64,
    value: Value,
) -> Result<(), Memory>
    ensures ok { OnOk result (branches row.new.items
        ≡ put_in way number value (branches row.old.items)) }
    ensures err { OnErr result (branches row.new.items ≡ branches row.old.items) }
{
    reach(row, way)?;
    put_in_branch(alloc, &mut row[way], number, value)
}

#[cycle(put)]
fn put_in_branch(
    alloc: Global,
    tree: &mut Option<Shared<Tree>>,
    number: u64,
    value: Value,
) -> Result<(), Memory>
    ensures ok { OnOk result (branch tree.new ≡ put_at number value (branch tree.old)) }
    ensures err { OnErr result (branch tree.new ≡ branch tree.old) }
{
    match tree {
        None => {
            let mut new = Tree::new(alloc);
            new.put(alloc, number, value)?;
            *tree = Some(Shared::new(alloc, new)?);
            Ok(())
        }
        Some(tree) => put_in_shared(alloc, tree, number, value),
    }
}

// A tree that others have too is copied, and they keep theirs.
#[cycle(put)]
fn put_in_shared(
    alloc: Global,
    tree: &mut Shared<Tree>,
    number: u64,
    value: Value,
) -> Result<(), Memory>
    ensures ok { OnOk result (kept tree.new ≡ put_at number value (kept tree.old)) }
    ensures err { OnErr result (kept tree.new ≡ kept tree.old) }
{
    match tree.lent() {
        Some(tree) => tree.put(alloc, number, value),
        None => {
            let mut copy = tree.get().copy(alloc)?;
            copy.put(alloc, number, value)?;
            *tree = Shared::new(alloc, copy)?;
            Ok(())
        }
    }
}
