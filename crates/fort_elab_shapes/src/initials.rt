//! The initials of variables at the top and of fields. The chapter "Programs" of
//! docs/TRANSLATION.md.
ghost use Rattle.std.specs.Prelude.{◌≡◌, IfOk};
ghost use Rattle.fort_elab_meaning.specs.Shapes.{initial, same_owner};

use fort_base::{Bytes, Memory, NameId, Ty, TypeId};
use fort_core::Value;
use fort_elab_constants::constant;
use fort_form_typed::TypedForm;
use std::alloc::Global;

/// The initial of a variable at the top or of a field: the field's object, the name, the written
/// type, and the constant.
pub type Initial = (Option<TypeId>, NameId, Ty, TypedForm);

/// Whether two initials are both at the top, or of fields of one object.
fn same_owner(left: Option<TypeId>, right: Option<TypeId>) -> bool
    ensures { result ≡ same_owner left right }
{
    match (left, right) {
        (None, None) => true,
        (Some(t), Some(u)) => t.0 == u.0,
        _ => false,
    }
}

/// The value of the initial of a name, of an object's field or at the top, or `None` where it has
/// none.
pub(crate) fn initial_value(
    alloc: Global,
    texts: &[Bytes],
    initials: &[Initial],
    owner: Option<TypeId>,
    name: NameId,
) -> Result<Option<Value>, Memory>
    ensures { IfOk result (λ value. value ≡ initial texts.now initials.now owner name) }
{
    for one in initials {
        if same_owner(one.0, owner) && one.1.0 == name.0 {
            return Ok(Some(constant(alloc, texts, &one.3)?));
        }
    }
    Ok(None)
}
