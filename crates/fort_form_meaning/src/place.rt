//! Where a form begins.
ghost use Rattle.std.specs.Prelude.{◌≡◌};
ghost use Rattle.fort_form_meaning.specs.Places.{place_of};

use fort_base::Place;
use fort_form::Form;

/// The place of a form, that of its first token.
#[tactic(auto, unfolding(crate::specs::Places::place_of))]
pub fn place_of(form: &Form) -> Place
    ensures { result ≡ place_of form.now }
{
    match form {
        Form::Number(place, _) => *place,
        Form::Text(place, _) => *place,
        Form::Truth(place, _) => *place,
        Form::Receiver(place) => *place,
        Form::Name(place, _) => *place,
        Form::Parens(place, _) => *place,
        Form::Tuple(place, _) => *place,
        Form::Operator(place, _, _) => *place,
        Form::Chain(place, _, _) => *place,
        Form::Beside(place, _) => *place,
        Form::Run(place, _) => *place,
        Form::Subscript(place, _) => *place,
        Form::Power(place, _) => *place,
        Form::Field(place, _, _) => *place,
        Form::Method(place, _, _, _) => *place,
        Form::Fill(place, _, _, _) => *place,
        Form::Block(place, _) => *place,
        Form::Do(place, _) => *place,
        Form::If(place, _, _) => *place,
        Form::While(place, _, _) => *place,
        Form::For(place, _, _) => *place,
        Form::Case(place, _, _, _) => *place,
        Form::Typecase(place, _, _, _, _, _) => *place,
        Form::Try(place, _, _, _, _) => *place,
        Form::Atomic(place, _) => *place,
        Form::Tryatomic(place, _) => *place,
        Form::Throw(place, _) => *place,
        Form::Fn(place, _, _) => *place,
        Form::Reduce(place, _, _, _) => *place,
        Form::Assign(place, _, _, _) => *place,
    }
}
