//! The grouping of elements that stand side by side.
ghost use Rattle.std.specs.Prelude.{◌≡◌, ◌<◌, length, map, IfOk};
ghost use Rattle.fort_typing_elements.specs.Groupings.{atom as as_atom, IsGrouping};

use fort_base::{CheckFault, List, Memory};
use fort_juxt::{Element, Grouping, loose};
use std::alloc::Global;

/// An element that counts as an atom.
fn atom(element: &Element) -> Element
    ensures { result ≡ as_atom element.now }
{
    Element {
        place: element.place,
        function: element.function,
        named: element.named,
        parens: element.parens,
        postfix: false,
    }
}

/// Elements that count as atoms.
fn atoms(alloc: Global, elements: &[Element]) -> Result<List<Element>, Memory>
    ensures { IfOk result (λ es. es ≡ map as_atom elements.now) }
{
    let mut all = List::new(alloc);
    for element in elements {
        all.push(atom(element))?;
    }
    Ok(all)
}

/// The grouping of elements that stand side by side, at least one.
///
/// It refuses 606 as `loose` of fort_juxt does. A postfix, which no juxtaposition of a component
/// has, counts as an atom. It answers `Memory` where memory is wanting. The chapter
/// "Juxtaposition".
#[tactic(auto, using(crate::proofs::Atoms::are_atoms, crate::proofs::Atoms::as_many, crate::proofs::Atoms::grouping_is))]
pub fn grouping(alloc: Global, elements: &[Element]) -> Result<Grouping, CheckFault>
    requires { 0 < length elements.now }
    ensures { IsGrouping elements.now result }
{
    let atoms = atoms(alloc, elements)?;
    loose(alloc, atoms.as_slice())
}
