//! How a turn begins.
ghost use Rattle.std.specs.Prelude.{◌≡◌, [], ◌∷◌, true, IfOk, IfErr};
ghost use Rattle.fort_turn.specs.Passes.{seen_by, number_of, numbers_of, made_by, is_first, IsIdle};

use crate::grows::Grows;
use crate::held::{Pass, Turn};
use atomic_table::{Refused, Table};
use std::alloc::Global;
use std::snapshot::Snapshot;

/// A turn over a book whose history is empty, and its first pass, which has number 0, has seen the
/// book and holds nothing.
///
/// # Errors
///
/// The book itself, where memory is wanting.
pub fn new<B: Grows>(alloc: Global, book: B) -> Result<(Turn<B>, Pass<B>), B>
    requires { B.history book ≡ [] }
    ensures idle { IfOk result (λ r. IsIdle r.0 r.1) }
    ensures first { IfOk result (λ r. (is_first r.1 ≡ true) × (made_by r.1 ≡ 1)) }
    ensures number { IfOk result (λ r. (number_of r.1 ≡ 0) × (numbers_of r.1 ≡ 0 ∷ [])) }
    ensures seen { IfOk result (λ r. seen_by r.1 ≡ Some book) }
    ensures err { IfErr result (λ back. back ≡ book) }
{
    let about = Snapshot::of(&book);
    let Ok(mut slots) = Vec::with_capacity(alloc, 1) else {
        return Err(book);
    };
    slots.push_reserved(Some(book));
    match Table::new(alloc, &[0, 0], slots, &about) {
        Ok((table, seat)) => {
            let pass = Pass {
                seat,
                number: 0,
                made: 1,
                place: 0,
            };
            Ok((Turn { table }, pass))
        }
        Err(refused) => Err(handed_back(refused)),
    }
}

// The book out of the slots that the table didn't take.
fn handed_back<B>(refused: Refused<Option<B>, Global>) -> B
    requires { (book : B) × (refused.slots.items ≡ Some book ∷ []) }
    ensures { refused.slots.items ≡ Some result ∷ [] }
{
    let Refused { mut slots } = refused;
    let Some(Some(book)) = slots.pop() else {
        unreachable!()
    };
    slots.destroy_empty();
    book
}
