//! How a term stands.
ghost use Rattle.std.specs.Prelude.{◌≡◌};
ghost use Rattle.fort_machine.specs.Ends.{has_stepped, of_thrown, standing};
ghost use Rattle.fort_core.specs.declared.term.Term.{out-Term};
ghost use Rattle.fort_step_parts.specs.Gathering.{as_standing};

use fort_core::{Term, Value};

/// How a term stands: at a value, at a throw of one, or open.
#[derive(Drop)]
pub enum Stand<'a> {
    Value(&'a Value),
    Throw(&'a Value),
    Open,
}

/// How a term stands. The chapter "Terms and threads".
pub fn standing_of<'a>(term: &'a Term) -> Stand<'a>
    ensures { standing term.now ≡ as_standing result }
{
    match term {
        Term::Value(value) => Stand::Value(value),
        Term::Throw(thrown) => of_throw(thrown.get()),
        _ => Stand::Open,
    }
}

fn of_throw<'a>(thrown: &'a Term) -> Stand<'a>
    ensures { of_thrown (out-Term thrown.now) ≡ as_standing result }
{
    match thrown {
        Term::Value(value) => Stand::Throw(value),
        _ => Stand::Open,
    }
}

// Whether a term is a part in which a step was taken.
pub(crate) fn is_marked(term: &Term) -> bool
    ensures { result ≡ has_stepped term.now }
{
    match term {
        Term::Stepped(_) => true,
        _ => false,
    }
}
