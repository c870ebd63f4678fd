//! The names of a local tuple.
ghost use Rattle.std.specs.Prelude.{◌≡◌, IfOk, IfSome, IfNone, None, Some, map};
ghost use Rattle.fort_typing_rules.specs.Typing.{name_and_type, named_parts};
ghost use Rattle.fort_typing_tasks.specs.Tasks.{bindings_of};

use fort_base::{List, Memory, NameId, Place, Ty};
use std::alloc::Global;

/// The types of the names of a local tuple, where its type is a tuple of as many parts.
#[tactic(auto, using(crate::proofs::Named::named))]
pub fn types_for<'a>(names: &'a [(Place, NameId)], ty: &'a Ty) -> Option<&'a [Ty]>
    ensures some { IfSome result (λ types. named_parts names.now ty.now
        ≡ Some (bindings_of names.now types.now)) }
    ensures none { IfNone result (named_parts names.now ty.now ≡ None) }
{
    match ty {
        Ty::Tuple(types) => {
            if types.len() == names.len() {
                Some(types.as_slice())
            } else {
                None
            }
        }
        _ => None,
    }
}

/// Names, each with the type at its place.
pub fn with_types(
    alloc: Global,
    names: &[(Place, NameId)],
    types: &[Ty],
) -> Result<List<(NameId, Ty)>, Memory>
    ensures { IfOk result (λ list. list ≡ map name_and_type (bindings_of names.now types.now)) }
{
    let mut list = List::new(alloc);
    let mut rest = types;
    for name in names {
        match rest.split_first() {
            None => return Ok(list),
            Some((ty, more)) => {
                list.push((name.1, ty.copy(alloc)?))?;
                rest = more;
            }
        }
    }
    Ok(list)
}
