//! The first broken rule.
ghost use Rattle.std.specs.Prelude.{◌≡◌};
ghost use Rattle.fort_base.specs.Places.{is_before as stands_before};
ghost use Rattle.fort_typing_meaning.specs.Faults.{same_place, goes_first, breaks};

use fort_base::{Place, Rule};
use fort_typing_known::Fault;

/// Whether one place stands before another.
fn is_before(a: Place, b: Place) -> bool
    ensures { result ≡ stands_before a b }
{
    a.line < b.line || (a.line == b.line && a.column < b.column)
}

fn same_place(a: Place, b: Place) -> bool
    ensures { result ≡ same_place a b }
{
    a.line == b.line && a.column == b.column
}

/// Whether a broken rule goes before another.
#[tactic(auto, unfolding(fort_typing_meaning::specs::Faults::goes_first))]
fn goes_first(a: &Fault, b: &Fault) -> bool
    ensures { result ≡ goes_first a.now b.now }
{
    is_before(a.place, b.place) || (same_place(a.place, b.place) && a.rule.0 < b.rule.0)
}

/// The first broken rule, where one more is broken.
#[tactic(auto, unfolding(fort_typing_meaning::specs::Faults::breaks))]
pub fn breaks(rule: Rule, place: Place, found: Option<Fault>) -> Option<Fault>
    ensures { result ≡ breaks rule place found }
{
    let fault = Fault { rule, place };
    match found {
        None => Some(fault),
        Some(other) => {
            if goes_first(&fault, &other) {
                return Some(fault);
            }
            Some(other)
        }
    }
}
