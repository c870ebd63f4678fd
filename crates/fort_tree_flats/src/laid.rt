ghost use Rattle.std.specs.Prelude.{◌≡◌, IfOk, map};
ghost use Rattle.fort_tree.specs.Measuring.{measured_flat_part, row_of};

use crate::spots::unit_spot;
use fort_base::{List, Memory};
use fort_tree::{Flat, FlatPart, Joint, Row};
use std::alloc::Global;

/// How a further unit of a flat expression stands to the one before it.
fn joint(part: &FlatPart) -> Joint
    ensures { result ≡ (measured_flat_part part.now).joint }
{
    match part {
        FlatPart::Run(_) => Joint::Beside,
        FlatPart::Infix(sign, unit) => Joint::Behind(*sign, unit_spot(unit).gap),
    }
}

/// How the further units of a flat expression stand, each to the one before it.
fn joints(alloc: Global, parts: &[FlatPart]) -> Result<List<Joint>, Memory>
    ensures { IfOk result (λ joints. joints
        ≡ map (λ part. part.joint) (map measured_flat_part parts.now)) }
{
    let mut joints = List::new(alloc);
    for part in parts {
        joints.push(joint(part))?;
    }
    Ok(joints)
}

/// What the grouping of a flat expression depends on: the place of its first token, and how each
/// unit but the first stands to the one before it. The chapter "Operators".
pub fn row(alloc: Global, flat: &Flat) -> Result<Row, Memory>
    ensures { IfOk result (λ row. row ≡ row_of flat.now) }
{
    let joints = joints(alloc, flat.rest.as_slice())?;
    Ok(Row {
        place: unit_spot(&flat.first).place,
        joints,
    })
}
