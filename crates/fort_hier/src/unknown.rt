//! Names that stand as types and aren't declared.
ghost use Rattle.std.specs.Prelude.{◌↔◌, IsTrue, IfOk, Contains, List as Seq};
ghost use Rattle.fort_base.specs.Places.{IsFirst};
ghost use Rattle.fort_hier.specs.Names.{Spelling, spelling};
ghost use Rattle.fort_hier.specs.Numbers.{HoldsNumbers, IsUnknown};

use crate::numbers::Numbers;
use crate::spellings::spelled;
use fort_base::{Bytes, Place, earlier};
use fort_tree::Name;

/// The earliest place of a name that is no type's, or `None` where each is a type's.
pub fn first_unknown(names: &[Bytes], numbers: &Numbers, mentioned: &[Name]) -> Option<Place>
    ensures { (list : Seq Spelling) → HoldsNumbers list numbers.now
        → IsFirst (IsUnknown list names.now mentioned.now) result }
{
    let mut best = None;
    for name in mentioned {
        if is_known(names, numbers, *name) {
            continue;
        }
        best = earlier(best, name.spot.place);
    }
    best
}

/// Whether a name is a type's.
fn is_known(names: &[Bytes], numbers: &Numbers, name: Name) -> bool
    ensures { (list : Seq Spelling) → HoldsNumbers list numbers.now → IsTrue result
        ↔ Contains list (spelling names.now name) }
{
    match numbers.get(spelled(names, name)) {
        Some(_) => true,
        None => false,
    }
}
