//! What an element has become: a typed form, the name of a function set, arguments.
ghost use Rattle.std.specs.Prelude.{◌≡◌, ◌∷◌, [], cond, IfOk};
ghost use Rattle.fort_form_typed.specs.declared.typed_form.TypedForm.{out-TypedForm};
ghost use Rattle.fort_typing_rules.specs.Elements.{parts_at};
ghost use Rattle.fort_typing_joined.specs.Values.{arguments_in, name_in, value_in};

use fort_base::{Boxed, List, Memory, NameId};
use fort_form_typed::TypedForm;
use fort_typing_rules::{Meaning, Part};
use std::alloc::Global;

/// The typed form that an element is, where it is one.
pub fn value_of(alloc: Global, part: Boxed<Part>) -> Result<Option<Boxed<TypedForm>>, Memory>
    ensures { IfOk result (λ it. it ≡ value_in part.meaning) }
{
    match part.into_inner().meaning {
        Meaning::Value(typed) => Ok(Some(Boxed::new(alloc, typed)?)),
        _ => Ok(None),
    }
}

/// The name of the function set that an element is, where it is one.
pub fn name_of(meaning: &Meaning) -> Option<NameId>
    ensures { result ≡ name_in meaning.now }
{
    match meaning {
        Meaning::Functions(name) => Some(*name),
        _ => None,
    }
}

/// A list of one.
fn alone(alloc: Global, typed: TypedForm) -> Result<List<TypedForm>, Memory>
    ensures { IfOk result (λ list. list ≡ typed ∷ []) }
{
    let mut list = List::new(alloc);
    list.push(typed)?;
    Ok(list)
}

/// The parts of a tuple; what is none is its one part.
fn tuple_parts(alloc: Global, typed: TypedForm) -> Result<List<TypedForm>, Memory>
    ensures { IfOk result (λ list. list ≡ parts_at typed (out-TypedForm typed)) }
{
    match typed {
        TypedForm::Tuple(_, parts) => Ok(parts),
        other => alone(alloc, other),
    }
}

/// The parts of a list in parentheses, and else one.
fn parts_of(alloc: Global, listed: bool, typed: TypedForm) -> Result<List<TypedForm>, Memory>
    ensures { IfOk result (λ list. list
        ≡ cond listed (parts_at typed (out-TypedForm typed)) (typed ∷ [])) }
{
    if listed {
        return tuple_parts(alloc, typed);
    }
    alone(alloc, typed)
}

/// The arguments of a function set that an element is, where it is a typed form.
#[tactic(auto, using(crate::proofs::Meanings::arguments_are, crate::proofs::Meanings::no_arguments))]
pub fn arguments_of(alloc: Global, part: Boxed<Part>) -> Result<Option<List<TypedForm>>, Memory>
    ensures { IfOk result (λ it. it ≡ arguments_in part) }
{
    let listed = part.get().listed;
    let Some(typed) = value_of(alloc, part)? else {
        return Ok(None);
    };
    Ok(Some(parts_of(alloc, listed, typed.into_inner())?))
}
