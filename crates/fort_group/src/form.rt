ghost use Rattle.std.specs.Prelude.{◌≡◌};
ghost use Rattle.fort_group.specs.Grouping.{form_of};

use fort_ops::Op;

/// The form of a node.
#[derive(Clone, Copy)]
pub enum Form {
    /// Units side by side.
    Juxt,
    /// Relational operators.
    Chain,
    /// Any other operator.
    Binary,
}

/// The form of the node that an operator makes.
pub fn node_form(op: Op) -> Form
    ensures { result ≡ form_of op }
{
    match op {
        Op::Juxt => Form::Juxt,
        Op::Eq | Op::Ne | Op::Lt | Op::Le | Op::Gt | Op::Ge | Op::Same => Form::Chain,
        _ => Form::Binary,
    }
}
