//! How the parts of a parallel form stand.
ghost use Rattle.std.specs.Prelude.{◌≡◌, Bool, [], ◌∷◌, IfOk};
ghost use Rattle.fort_machine.specs.Acts.{Together, standing_together, with_first};
ghost use Rattle.fort_machine.specs.Ends.{at_throw, at_value, has_stepped, open_yet, standing};
ghost use Rattle.fort_step_parts.specs.Gathering.{as_together, before};

use crate::stands::{Stand, is_marked, standing_of};
use fort_base::{List, Memory, Shared};
use fort_core::{Term, Value};
use std::alloc::Global;

/// How the parts of a parallel form stand.
#[derive(Drop)]
pub enum AllParts {
    /// All at values.
    Values(List<Value>),
    /// This is the leftmost throw, and each other part is finished or passed over.
    Throw(Value),
    /// No throw, and no step was taken in those that are open.
    Still,
    /// One of them is open in which a step was taken.
    Open,
}

impl AllParts {
    // One part more.
    fn with(self, part: &Term) -> Result<AllParts, Memory>
        ensures { IfOk result (λ more. (rest : Together)
            → before self (with_first (standing part.now) (has_stepped part.now) rest)
            ≡ before more rest) }
    {
        match standing_of(part) {
            Stand::Value(value) => self.with_value(value),
            Stand::Throw(value) => self.with_throw(value),
            Stand::Open => Ok(self.with_open(is_marked(part))),
        }
    }

    #[tactic(auto, using(crate::proofs::Gathers::values_more))]
    fn with_value(self, value: &Value) -> Result<AllParts, Memory>
        ensures { IfOk result (λ more. (marked : Bool) (rest : Together)
            → before self (with_first (at_value value.now) marked rest) ≡ before more rest) }
    {
        match self {
            AllParts::Values(mut values) => {
                values.push(value.share()?)?;
                Ok(AllParts::Values(values))
            }
            AllParts::Throw(first) => Ok(AllParts::Throw(first)),
            AllParts::Still => Ok(AllParts::Still),
            AllParts::Open => Ok(AllParts::Open),
        }
    }

    #[tactic(auto, using(crate::proofs::Gathers::throws_more))]
    fn with_throw(self, value: &Value) -> Result<AllParts, Memory>
        ensures { IfOk result (λ more. (marked : Bool) (rest : Together)
            → before self (with_first (at_throw value.now) marked rest) ≡ before more rest) }
    {
        match self {
            AllParts::Values(_) => Ok(AllParts::Throw(value.share()?)),
            AllParts::Throw(first) => Ok(AllParts::Throw(first)),
            AllParts::Still => Ok(AllParts::Throw(value.share()?)),
            AllParts::Open => Ok(AllParts::Open),
        }
    }

    #[tactic(auto, using(crate::proofs::Gathers::opens_more))]
    fn with_open(self, marked: bool) -> AllParts
        ensures { (rest : Together)
            → before self (with_first open_yet marked rest) ≡ before result rest }
    {
        if marked {
            return AllParts::Open;
        }
        match self {
            AllParts::Values(_) => AllParts::Still,
            AllParts::Throw(first) => AllParts::Throw(first),
            AllParts::Still => AllParts::Still,
            AllParts::Open => AllParts::Open,
        }
    }
}

/// How the parts of a parallel form stand. The chapter "Terms and threads".
///
/// # Errors
///
/// `Memory` where memory is wanting.
pub fn together(alloc: Global, parts: &List<Shared<Term>>) -> Result<AllParts, Memory>
    ensures { IfOk result (λ all. standing_together parts.now ≡ as_together all) }
{
    let mut gathered = AllParts::Values(List::new(alloc));
    for part in parts.as_slice() {
        gathered = gathered.with(part.get())?;
    }
    Ok(gathered)
}

/// How the two parts of a parallel form stand. The chapter "Terms and threads".
///
/// # Errors
///
/// `Memory` where memory is wanting.
pub fn both(alloc: Global, first: &Shared<Term>, second: &Shared<Term>) -> Result<AllParts, Memory>
    ensures { IfOk result (λ all. standing_together (first.now ∷ second.now ∷ [])
        ≡ as_together all) }
{
    let mut parts = List::new(alloc);
    parts.push(first.share()?)?;
    parts.push(second.share()?)?;
    together(alloc, &parts)
}
