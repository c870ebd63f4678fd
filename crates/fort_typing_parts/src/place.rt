//! The place of a form.
ghost use Rattle.std.specs.Prelude.{◌≡◌};
ghost use Rattle.fort_typing_rules.specs.Types.{place_of};

use fort_base::Place;
use fort_form::Form;

/// The place of a form, that of its first token.
#[tactic(auto, unfolding(fort_typing_rules::specs::Types::place_of))]
pub fn place_of(form: &Form) -> Place
    ensures { result ≡ place_of form.now }
{
    match form {
        Form::Number(place, ..) => *place,
        Form::Text(place, ..) => *place,
        Form::Truth(place, ..) => *place,
        Form::Receiver(place) => *place,
        Form::Name(place, ..) => *place,
        Form::Parens(place, ..) => *place,
        Form::Tuple(place, ..) => *place,
        Form::Operator(place, ..) => *place,
        Form::Chain(place, ..) => *place,
        Form::Beside(place, ..) => *place,
        Form::Run(place, ..) => *place,
        Form::Subscript(place, ..) => *place,
        Form::Power(place, ..) => *place,
        Form::Field(place, ..) => *place,
        Form::Method(place, ..) => *place,
        Form::Fill(place, ..) => *place,
        Form::Block(place, ..) => *place,
        Form::Do(place, ..) => *place,
        Form::If(place, ..) => *place,
        Form::While(place, ..) => *place,
        Form::For(place, ..) => *place,
        Form::Case(place, ..) => *place,
        Form::Typecase(place, ..) => *place,
        Form::Try(place, ..) => *place,
        Form::Atomic(place, ..) => *place,
        Form::Tryatomic(place, ..) => *place,
        Form::Throw(place, ..) => *place,
        Form::Fn(place, ..) => *place,
        Form::Reduce(place, ..) => *place,
        Form::Assign(place, ..) => *place,
    }
}
