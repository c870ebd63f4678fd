//! Names that stand twice among fields.
ghost use Rattle.std.specs.Prelude.{◌≡◌, ◌++◌, ◌∷◌, [], ◌↔◌, IsTrue, IfOk, OnOk, List as Seq};
ghost use Rattle.fort_base.specs.Places.{IsFirst};
ghost use Rattle.fort_types_sets.specs.declared.field.Field.{Field as AField};
ghost use Rattle.fort_member_fields.specs.Rules.{IsRepeated};
ghost use Rattle.fort_member_fields.specs.Walks.{HasFieldNamed, HoldsNames};

use fort_base::{Memory, NameId, Place, earlier};
use fort_types_sets::Field;
use indexmap::IndexSet;
use std::alloc::Global;

/// The earliest place of a field that has the name of one before it, or `None` where each name
/// stands once.
pub fn first_repeated(alloc: Global, fields: &[Field]) -> Result<Option<Place>, Memory>
    ensures { IfOk result (IsFirst (IsRepeated fields.now)) }
{
    let mut seen = IndexSet::new(alloc);
    let mut best = None;
    for field in fields {
        if !add_name(&mut seen, field.name)? {
            continue;
        }
        best = earlier(best, field.place);
    }
    Ok(best)
}

/// Adds a name to those that stood so far, and says whether it was one of them.
fn add_name(seen: &mut IndexSet<u32>, name: NameId) -> Result<bool, Memory>
    ensures stood { IfOk result (λ stood. (before : Seq AField) → HoldsNames before seen.old
        → IsTrue stood ↔ HasFieldNamed before name) }
    ensures held { OnOk result ((before : Seq AField) (f : AField) → HoldsNames before seen.old
        → f.name ≡ name → HoldsNames (before ++ f ∷ []) seen.new) }
{
    let is_new = seen.insert(name.0)?;
    Ok(!is_new)
}
