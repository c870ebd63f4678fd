ghost use Rattle.std.specs.Prelude.{◌≡◌, ◌<◌, length, Some};
ghost use Rattle.fort_ops.specs.Precedence.{group_of, rank};
ghost use Rattle.fort_group.specs.Joints.{operator_of, between, strength};

use fort_ops::Op;
use fort_tree::Joint;

/// The operator of a joint.
fn operator(joint: &Joint) -> Op
    ensures { result ≡ operator_of joint.now }
{
    match joint {
        Joint::Beside => Op::Juxt,
        Joint::Behind(sign, _) => sign.op,
    }
}

/// The operator between the unit at a place and the next one.
pub fn operator_at(joints: &[Joint], at: usize) -> Op
    requires { at < length joints.now }
    ensures { between joints.now at ≡ Some result }
{
    operator(&joints[at])
}

/// The rank of the operator between the unit at a place and the next one.
pub fn strength_at(joints: &[Joint], at: usize) -> u8
    requires { at < length joints.now }
    ensures { result ≡ strength joints.now at }
{
    own_rank(operator_at(joints, at))
}

/// A number that is larger at an operator than at each that it stands over.
fn own_rank(op: Op) -> u8
    ensures { result ≡ rank (group_of op) }
{
    match op {
        Op::Juxt => 6,
        Op::Times | Op::Dot | Op::Div | Op::Rem | Op::Mod | Op::Max | Op::Min | Op::Gcd | Op::Lcm =>
            5,
        Op::Plus | Op::Minus => 4,
        Op::BitAnd | Op::BitOr | Op::BitXor | Op::LShift | Op::RShift => 3,
        Op::Range | Op::Count | Op::Not | Op::Power | Op::Word(_) => 3,
        Op::Eq | Op::Ne | Op::Lt | Op::Le | Op::Gt | Op::Ge | Op::Same => 2,
        Op::And => 1,
        Op::Or => 0,
    }
}
