//! What a function holds.
ghost use Rattle.std.specs.Prelude.{◌≡◌, [], ◌++◌, ◌∷◌, IfOk};
ghost use Rattle.fort_machine.specs.Substitution.{put_held as put_held_of};
ghost use Rattle.fort_step_subst.specs.Places.{held_behind};

use fort_base::{List, Memory};
use fort_core::Value;
use std::alloc::Global;

// Pairs that were gone over, and whether the new pair is among them.
#[derive(Drop)]
struct Pairs {
    pairs: List<(u32, Value)>,
    done: bool,
}

impl Pairs {
    // One pair more, the new one before it where it comes first.
    #[tactic(auto, using(crate::proofs::HeldSteps::steps))]
    fn with(self, variable: u32, value: &Value, next: &(u32, Value)) -> Result<Pairs, Memory>
        ensures { IfOk result (λ put. (rest : _)
            → put.pairs ++ held_behind variable value.now put.done rest
            ≡ self.pairs ++ held_behind variable value.now self.done (next.now ∷ rest)) }
    {
        let Pairs { mut pairs, done } = self;
        if done {
            pairs.push((next.0, next.1.share()?))?;
            Ok(Pairs { pairs, done: true })
        } else if next.0 <= variable {
            pairs.push((next.0, next.1.share()?))?;
            Ok(Pairs { pairs, done: false })
        } else {
            pairs.push((variable, value.share()?))?;
            pairs.push((next.0, next.1.share()?))?;
            Ok(Pairs { pairs, done: true })
        }
    }

    // The pairs with the new one, where no pair is left.
    #[tactic(auto, using(crate::proofs::HeldSteps::ends))]
    fn all(self, variable: u32, value: &Value) -> Result<List<(u32, Value)>, Memory>
        ensures { IfOk result (λ all. all
            ≡ self.pairs ++ held_behind variable value.now self.done []) }
    {
        let Pairs { mut pairs, done } = self;
        if done {
            return Ok(pairs);
        }
        pairs.push((variable, value.share()?))?;
        Ok(pairs)
    }
}

// A pair in its place among the others, by the variables' numbers.
pub(crate) fn put_held(
    alloc: Global,
    variable: u32,
    value: &Value,
    held: &List<(u32, Value)>,
) -> Result<List<(u32, Value)>, Memory>
    ensures { IfOk result (λ all. all ≡ put_held_of variable value.now held.now) }
{
    let mut put = Pairs {
        pairs: List::new(alloc),
        done: false,
    };
    for pair in held.as_slice() {
        put = put.with(variable, value, pair)?;
    }
    put.all(variable, value)
}
