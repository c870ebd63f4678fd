ghost use Rattle.std.specs.Prelude.{◌≡◌, IsTrue, ◌↔◌};
ghost use Rattle.fort_group.specs.Grouping.{SameSide};
ghost use Rattle.fort_group.specs.Numbers.{number};

use fort_ops::Op;

/// Each operator's own number.
fn own_number(op: Op) -> u64
    ensures { result ≡ number op }
{
    match op {
        Op::Juxt => 0,
        Op::Times => 1,
        Op::Dot => 2,
        Op::Div => 3,
        Op::Rem => 4,
        Op::Mod => 5,
        Op::Max => 6,
        Op::Min => 7,
        Op::Gcd => 8,
        Op::Lcm => 9,
        Op::Plus => 10,
        Op::Minus => 11,
        Op::BitAnd => 12,
        Op::BitOr => 13,
        Op::BitXor => 14,
        Op::LShift => 15,
        Op::RShift => 16,
        Op::Range => 17,
        Op::Count => 18,
        Op::Eq => 19,
        Op::Ne => 20,
        Op::Lt => 21,
        Op::Le => 22,
        Op::Gt => 23,
        Op::Ge => 24,
        Op::Same => 25,
        Op::And => 26,
        Op::Or => 27,
        Op::Not => 28,
        Op::Power => 29,
        Op::Word(name) => name as u64 + 30,
    }
}

/// Whether a node of the one may be the left child of a node of the other, as two that group to the
/// left.
#[tactic(auto, using(crate::proofs::Numbers::number_once))]
pub fn same_side(other: Op, op: Op) -> bool
    ensures { IsTrue result ↔ SameSide other op }
{
    if own_number(other) == own_number(op) {
        return true;
    }
    matches!((other, op), (Op::Plus | Op::Minus, Op::Plus | Op::Minus))
}
