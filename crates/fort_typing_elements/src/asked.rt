//! What grouping asks about an element.
ghost use Rattle.std.specs.Prelude.{◌≡◌, IfOk};
ghost use Rattle.fort_base.specs.declared.ty.Ty.{out-Ty};
ghost use Rattle.fort_typing_rules.specs.Elements.{element as element_of, elements as elements_of, is_arrow_at, is_function_by, is_name_by};

use fort_base::{List, Memory, Ty};
use fort_juxt::Element;
use fort_typing_parts::type_of;
use fort_typing_rules::{Meaning, Part};
use std::alloc::Global;

/// Whether it is the type of functions.
fn is_arrow(ty: &Ty) -> bool
    ensures { result ≡ is_arrow_at (out-Ty ty.now) }
{
    match ty {
        Ty::Arrow(..) => true,
        _ => false,
    }
}

/// Whether an element is the name of a function set, or has an arrow type.
fn is_function(meaning: &Meaning) -> bool
    ensures { result ≡ is_function_by meaning.now }
{
    match meaning {
        Meaning::Functions(_) => true,
        Meaning::Value(typed) => is_arrow(type_of(typed)),
        _ => false,
    }
}

/// Whether an element is the name of a function set.
fn is_name(meaning: &Meaning) -> bool
    ensures { result ≡ is_name_by meaning.now }
{
    match meaning {
        Meaning::Functions(_) => true,
        _ => false,
    }
}

/// What grouping asks about an element.
fn element(part: &Part) -> Element
    ensures { result ≡ element_of part.now }
{
    Element {
        place: part.place,
        function: is_function(&part.meaning),
        named: is_name(&part.meaning),
        parens: part.parens,
        postfix: part.postfix,
    }
}

/// What grouping asks about elements. The chapter "Typing", runs and juxtapositions.
pub fn elements(alloc: Global, parts: &[Part]) -> Result<List<Element>, Memory>
    ensures { IfOk result (λ es. es ≡ elements_of parts.now) }
{
    let mut all = List::new(alloc);
    for part in parts {
        all.push(element(part))?;
    }
    Ok(all)
}
