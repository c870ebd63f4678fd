//! The lists that reading fills.
ghost use Rattle.std.specs.Prelude.{◌≡◌, [], ◌∷◌, ◌++◌, IfOk, OnOk, OnErr};

use fort_base::{List, Memory};
use std::alloc::Global;

/// The list of one item, with room for no other; where memory is wanting the item is dropped.
pub fn single<T: Drop>(alloc: Global, item: T) -> Result<List<T>, Memory>
    ensures { IfOk result (λ list. list ≡ item ∷ []) }
{
    let mut items = Vec::with_capacity(alloc, 1)?;
    items.push_reserved(item);
    Ok(List::from_vec(items))
}

/// Puts an item at the end of a list; where memory is wanting the item is dropped and the list is
/// as before.
///
/// The first item takes room for itself alone, since few lists of a tree have a second one.
pub fn add<T: Drop>(list: &mut List<T>, item: T) -> Result<(), Memory>
    ensures ok { OnOk result (list.new ≡ list.old ++ item ∷ []) }
    ensures err { OnErr result (list.new ≡ list.old) }
{
    if list.is_empty() {
        *list = single(list.allocator(), item)?;
        return Ok(());
    }
    list.push(item)
}
