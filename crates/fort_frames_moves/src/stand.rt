//! How a term stands.
ghost use Rattle.fort_machine.specs.Ends.{standing, of_thrown};
ghost use Rattle.fort_frames_moves.specs.Stands.{IsStand, IsThrownStand};

use fort_core::Term;

/// How a term stands: at a value, at a throw of one, or open.
#[derive(Clone, Copy, Debug, PartialEq, Eq)]
pub enum Stand {
    Value,
    Throw,
    Open,
}

/// How a term stands; it takes constant time. The chapter "Terms and threads".
#[tactic(auto, using(crate::proofs::Parts::thrown_stand))]
pub fn standing_of(term: &Term) -> Stand
    ensures { IsStand term.now result }
{
    match term {
        Term::Value(_) => Stand::Value,
        Term::Throw(thrown) => standing_of_thrown(thrown.get()),
        _ => Stand::Open,
    }
}

fn standing_of_thrown(thrown: &Term) -> Stand
    ensures { IsThrownStand thrown.now result }
{
    match thrown {
        Term::Value(_) => Stand::Throw,
        _ => Stand::Open,
    }
}
