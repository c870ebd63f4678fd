//! Mutable variables.
ghost use Rattle.std.specs.Prelude.{◌≡◌, [], ◌∷◌};
ghost use Rattle.fort_step_deal.specs.Deals.{act_of};
ghost use Rattle.fort_machine.specs.Acts.{makes};
ghost use Rattle.fort_machine.specs.Forms.{location_of, reading_at, writing_at};
ghost use Rattle.fort_machine.specs.Substitution.{located};

use fort_base::Shared;
use fort_core::{Slot, Term, Value};
use fort_step_deal::{Deal, Goes, Makes};

/// A mutable local: a fresh location with the value, and the rest of the block with that location
/// in the variable's place. The chapter "Steps and costs".
pub fn mutable_row(variable: u32, value: Value, rest: Shared<Term>) -> Deal
    ensures { act_of result ≡ makes (value ∷ []) (λ l. located variable l rest) 1 }
{
    Deal::Makes(Makes::Local(value, variable, rest))
}

/// A read of a mutable variable that has a location. The chapter "Steps and costs".
pub fn read_row(slot: Slot) -> Deal
    ensures { act_of result ≡ reading_at (location_of slot) }
{
    match slot {
        Slot::Location(loc) => Deal::Asks(loc, Goes::Value),
        Slot::Variable(_) => Deal::Stuck,
    }
}

/// A write to a mutable variable that has a location. The chapter "Steps and costs".
pub fn write_row(slot: Slot, value: Value) -> Deal
    ensures { act_of result ≡ writing_at (location_of slot) value }
{
    match slot {
        Slot::Location(loc) => Deal::Sets(loc, value),
        Slot::Variable(_) => Deal::Stuck,
    }
}
