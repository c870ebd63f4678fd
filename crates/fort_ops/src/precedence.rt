ghost use Rattle.std.specs.Prelude.{◌↔◌, IsTrue, ◌≡◌};
ghost use Rattle.fort_ops.specs.Precedence.{group_of, IsOver, RankFalls, HasNoCycle};

use crate::op::Op;

/// A group of operators that have the same precedence.
#[derive(Clone, Copy)]
pub enum Group {
    /// Juxtaposition.
    Adjacent,
    /// `TIMES DOT DIV REM MOD MAX MIN GCD LCM`
    Product,
    /// `+ -`
    Sum,
    /// `BITAND BITOR BITXOR LSHIFT RSHIFT`
    Bits,
    /// `: #`
    Span,
    /// `= =/= < <= > >= ===`
    Relation,
    /// `AND`
    Conjunction,
    /// `OR`
    Disjunction,
    /// `NOT`, `^` and operator words, which stand over nothing and under nothing.
    Own,
}

/// Whether the operator of a child node may stand under the operator of its parent.
///
/// The pairs are those of `specs/Precedence.antt`; they are not closed under transitivity.
pub fn over(child: Op, parent: Op) -> bool
    ensures { IsTrue result ↔ IsOver child parent }
{
    match (group_at(child), group_at(parent)) {
        (Group::Adjacent | Group::Product, Group::Sum | Group::Span | Group::Relation) => true,
        (Group::Sum, Group::Span | Group::Relation) => true,
        (Group::Bits, Group::Relation) => true,
        (Group::Relation, Group::Conjunction | Group::Disjunction) => true,
        (Group::Conjunction, Group::Disjunction) => true,
        _ => false,
    }
}

/// The group that an operator belongs to.
fn group_at(op: Op) -> Group
    ensures { result ≡ group_of op }
{
    match op {
        Op::Juxt => Group::Adjacent,
        Op::Times | Op::Dot | Op::Div | Op::Rem | Op::Mod | Op::Max | Op::Min | Op::Gcd | Op::Lcm =>
            Group::Product,
        Op::Plus | Op::Minus => Group::Sum,
        Op::BitAnd | Op::BitOr | Op::BitXor | Op::LShift | Op::RShift => Group::Bits,
        Op::Range | Op::Count => Group::Span,
        Op::Eq | Op::Ne | Op::Lt | Op::Le | Op::Gt | Op::Ge | Op::Same => Group::Relation,
        Op::And => Group::Conjunction,
        Op::Or => Group::Disjunction,
        Op::Not | Op::Power | Op::Word(_) => Group::Own,
    }
}

/// A law of the pairs: there is a number to each group that falls along each pair, so no way along
/// the pairs leads from a group back to itself.
pub fn pairs_have_no_cycle()
    ensures falls { RankFalls }
    ensures no_cycle { HasNoCycle }
{}
