ghost use Rattle.std.specs.Prelude.{◌≡◌};
ghost use Rattle.fort_ops.specs.Senses.{sense_of};

use crate::op::{Op, Sense};

/// The sense of an operator: `Other` exactly where it is not relational.
pub fn sense(op: Op) -> Sense
    ensures { result ≡ sense_of op }
{
    match op {
        Op::Eq | Op::Same => Sense::Equal,
        Op::Ne => Sense::Unequal,
        Op::Lt | Op::Le => Sense::Rising,
        Op::Gt | Op::Ge => Sense::Falling,
        _ => Sense::Other,
    }
}
