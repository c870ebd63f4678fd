//! How a part is kept in the frame of the form that is open.
ghost use Rattle.std.specs.Prelude.{◌≡◌, IfOk, OnOk, map};
ghost use Rattle.fort_typing_meaning.specs.Parts.{declares, declares_all, kept_if, opened};
ghost use Rattle.fort_form_typed.specs.declared.typed_form.TypedForm.TheVariants as a_typed;
ghost use Rattle.fort_typing_rules.specs.Types.{unit as unit_type};
ghost use Rattle.fort_typing_rules.specs.Typing.{name_and_type};
ghost use Rattle.fort_typing_tasks.specs.Tasks.{bindings_of};

use crate::names::with_types;
use fort_base::{Boxed, List, Memory, NameId, Place, Ty};
use fort_form_typed::TypedForm;
use fort_typing_meaning::{Frame, Slot};
use fort_typing_parts::unit;
use std::alloc::Global;

/// The frame of a form none of whose parts has been asked; it takes no memory.
pub fn opened(alloc: Global) -> Frame
    ensures { result ≡ opened }
{
    Frame {
        broken: false,
        lost: false,
        head: None,
        first: List::new(alloc),
        second: List::new(alloc),
        last: None,
        calls: List::new(alloc),
        side: None,
        parts: List::new(alloc),
    }
}

/// A part is kept, or the form is broken where there is none.
pub fn keep(frame: &mut Frame, slot: Slot, node: Option<TypedForm>) -> Result<(), Memory>
    ensures { OnOk result (frame.new ≡ kept_if slot node frame.old) }
{
    match node {
        None => {
            frame.broken = true;
            Ok(())
        }
        Some(typed) => match slot {
            Slot::Head => {
                frame.head = Some(typed);
                Ok(())
            }
            Slot::First => frame.first.push(typed),
            Slot::Second => frame.second.push(typed),
            Slot::Last => {
                frame.last = Some(typed);
                Ok(())
            }
        },
    }
}

/// The declaration of a local variable.
fn declaration(
    alloc: Global,
    name: NameId,
    mutable: bool,
    ty: &Ty,
    typed: TypedForm,
) -> Result<TypedForm, Memory>
    ensures { IfOk result (λ it. it ≡ a_typed.Bind unit_type name mutable ty.now typed) }
{
    let initial = Boxed::new(alloc, typed)?;
    let own = ty.copy(alloc)?;
    Ok(TypedForm::Bind(unit(alloc), name, mutable, own, initial))
}

/// The declaration of a local variable is kept, where its initial has a type.
pub fn declare(
    alloc: Global,
    frame: &mut Frame,
    name: NameId,
    mutable: bool,
    ty: &Ty,
    node: Option<TypedForm>,
) -> Result<(), Memory>
    ensures { OnOk result (frame.new ≡ declares name mutable ty.now node frame.old) }
{
    match node {
        None => {
            frame.broken = true;
            Ok(())
        }
        Some(typed) => frame
            .first
            .push(declaration(alloc, name, mutable, ty, typed)?),
    }
}

/// The declaration of several local variables, each with the type at its place.
fn declarations(
    alloc: Global,
    names: &[(Place, NameId)],
    types: &[Ty],
    typed: TypedForm,
) -> Result<TypedForm, Memory>
    ensures { IfOk result (λ it. it
        ≡ a_typed.Binds unit_type (map name_and_type (bindings_of names.now types.now)) typed) }
{
    let initial = Boxed::new(alloc, typed)?;
    let named = with_types(alloc, names, types)?;
    Ok(TypedForm::Binds(unit(alloc), named, initial))
}

/// The declaration of several local variables is kept, where their initial has a type.
pub fn declare_all(
    alloc: Global,
    frame: &mut Frame,
    names: &[(Place, NameId)],
    types: &[Ty],
    node: Option<TypedForm>,
) -> Result<(), Memory>
    ensures { OnOk result (frame.new
        ≡ declares_all (map name_and_type (bindings_of names.now types.now)) node frame.old) }
{
    match node {
        None => {
            frame.broken = true;
            Ok(())
        }
        Some(typed) => frame.first.push(declarations(alloc, names, types, typed)?),
    }
}
