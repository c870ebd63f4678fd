//! Outcomes of a form.
ghost use Rattle.std.specs.Prelude.{◌≡◌};
ghost use Rattle.fort_typing_meaning.specs.Tests.{untyped, value, refused};

use crate::faults::breaks;
use fort_base::{Place, Rule};
use fort_form_typed::TypedForm;
use fort_typing_known::Fault;
use fort_typing_meaning::Outcome;
use fort_typing_rules::Meaning;

/// A form that has no type, in which no rule is found broken that wasn't before.
pub fn untyped(found: Option<Fault>) -> Outcome
    ensures { result ≡ untyped found }
{
    Outcome {
        seen: Meaning::Unknown,
        found,
    }
}

/// A form that becomes a typed form.
pub fn value(typed: TypedForm, found: Option<Fault>) -> Outcome
    ensures { result ≡ value typed found }
{
    Outcome {
        seen: Meaning::Value(typed),
        found,
    }
}

/// A form that breaks a rule at a place.
pub fn refused(rule: Rule, place: Place, found: Option<Fault>) -> Outcome
    ensures { result ≡ refused rule place found }
{
    Outcome {
        seen: Meaning::Unknown,
        found: breaks(rule, place, found),
    }
}
