//! Forms without parts.
ghost use Rattle.std.specs.Prelude.{◌≡◌, IfOk};
ghost use Rattle.fort_form_typed.specs.declared.typed_form.TypedForm.TheVariants as a_typed;
ghost use Rattle.fort_typing_known.specs.Read.{facts, standing_of};
ghost use Rattle.fort_typing_rules.specs.declared.part.Meaning.TheVariants as a_meaning;
ghost use Rattle.fort_typing_rules.specs.Types.{boolean, number_type as type_of_number, string};
ghost use Rattle.fort_typing_meaning.specs.Tests.{value as value_outcome};
ghost use Rattle.fort_typing_meaning.specs.Closing.{means, receiver as closed_receiver, name_by, name_answer};

use fort_base::rules::UNKNOWN_NAME;
use fort_base::{Boxed, Memory, NameId, Place, Ty};
use fort_form_typed::TypedForm;
use fort_scope::Scope;
use fort_types_builtin::{BOOLEAN, STRING, ZZ32, ZZ64};
use fort_typing_known::{Fault, Known, Standing, stands_for};
use fort_typing_meaning::Outcome;
use fort_typing_parts::{refused, value};
use fort_typing_rules::Meaning;
use std::alloc::Global;

/// The type of a number: ZZ32 where it is one, else ZZ64.
fn number_type(number: u64) -> Ty
    ensures { result ≡ type_of_number number }
{
    if number <= 2147483647 {
        Ty::Named(ZZ32)
    } else {
        Ty::Named(ZZ64)
    }
}

/// A number.
pub fn number(number: u64, found: Option<Fault>) -> Outcome
    ensures { result ≡ value_outcome (a_typed.Number (type_of_number number) number) found }
{
    value(TypedForm::Number(number_type(number), number), found)
}

/// A text, by its number in the component's texts.
pub fn text(text: u32, found: Option<Fault>) -> Outcome
    ensures { result ≡ value_outcome (a_typed.Text string text) found }
{
    value(TypedForm::Text(Ty::Named(STRING), text), found)
}

/// `true`, `false`
pub fn truth(truth: bool, found: Option<Fault>) -> Outcome
    ensures { result ≡ value_outcome (a_typed.Truth boolean truth) found }
{
    value(TypedForm::Truth(Ty::Named(BOOLEAN), truth), found)
}

/// `.f`
pub fn field(at: Place, name: NameId, found: Option<Fault>) -> Outcome
    ensures { result ≡ means (a_meaning.Field at name) found }
{
    Outcome {
        seen: Meaning::Field(at, name),
        found,
    }
}

/// `self`, which has the type in whose declaration it stands; 601 where it stands in none.
pub fn receiver(known: &Known, place: Place, found: Option<Fault>) -> Outcome
    ensures { result ≡ closed_receiver place known.now.owner found }
{
    match known.owner {
        Some(owner) => value(TypedForm::Receiver(Ty::Named(owner)), found),
        None => refused(UNKNOWN_NAME, place, found),
    }
}

/// A name, by what it stands for; 601 where that is nothing.
#[tactic(auto, unfolding(fort_typing_meaning::specs::Closing::name_answer))]
pub fn name(
    alloc: Global,
    known: &Known,
    scope: &Scope,
    place: Place,
    name: NameId,
    found: Option<Fault>,
) -> Result<Outcome, Memory>
    ensures { IfOk result (λ o. o ≡ name_answer (facts known.now) place name scope.now found) }
{
    let standing = stands_for(known, scope, name)?;
    standing_name(alloc, place, name, standing, found)
}

/// A name that stands for this.
fn standing_name(
    alloc: Global,
    place: Place,
    name: NameId,
    standing: Standing,
    found: Option<Fault>,
) -> Result<Outcome, Memory>
    ensures { IfOk result (λ o. o ≡ name_by place name (standing_of standing.entry) found) }
{
    let typed = match standing {
        Standing::Bound(binding) => {
            let ty = binding.ty.copy(alloc)?;
            TypedForm::Local(ty, name, binding.mutable)
        }
        Standing::Own(owner, field) => {
            let ty = field.ty.copy(alloc)?;
            let receiver = Boxed::new(alloc, TypedForm::Receiver(Ty::Named(owner)))?;
            TypedForm::ReadField(ty, receiver, name)
        }
        Standing::Variable(number, variable) => {
            if number > u32::MAX as usize {
                return Err(Memory);
            }
            let ty = variable.ty.copy(alloc)?;
            TypedForm::Top(ty, number as u32)
        }
        Standing::Single(object) => TypedForm::Single(Ty::Named(object), object),
        Standing::Functions => {
            return Ok(Outcome {
                seen: Meaning::Functions(name),
                found,
            });
        }
        Standing::Nothing => return Ok(refused(UNKNOWN_NAME, place, found)),
    };
    Ok(value(typed, found))
}
