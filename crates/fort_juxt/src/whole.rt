//! The grouping of the units of a flat expression.
ghost use Rattle.std.specs.Prelude.{◌≡◌, ◌<◌, false, length};
ghost use Rattle.fort_juxt.specs.Loose.{AreAtoms, Answers};

use crate::chunks::grouped;
use crate::elements::{Element, Grouping};
use crate::places::first_name_end;
use fort_base::CheckFault;
use fort_base::rules::FUNCTION_AS_VALUE;
use std::alloc::Global;

/// The grouping of elements that stand side by side, at least one and none a postfix.
///
/// It refuses 606 at the first function set's name that ends its chunk, so that nothing stands
/// behind it there to be its argument. It answers `Memory` where memory is wanting. The chapter
/// "Juxtaposition".
pub fn loose(alloc: Global, elements: &[Element]) -> Result<Grouping, CheckFault>
    requires some { 0 < length elements.now }
    requires atoms { AreAtoms elements.now }
    ensures { Answers elements.now result }
{
    if let Some(at) = first_name_end(elements) {
        return Err(CheckFault::Refused(FUNCTION_AS_VALUE, elements[at].place));
    }
    Ok(grouped(alloc, elements)?)
}
