//! The type of a form.
ghost use Rattle.std.specs.Prelude.{◌≡◌};
ghost use Rattle.fort_elab_meaning.specs.Translated.{type_of};

use fort_base::Ty;
use fort_form_typed::TypedForm;

/// The type of a form.
pub(crate) fn type_of(form: &TypedForm) -> &Ty
    ensures { result.now ≡ type_of form.now }
{
    match form {
        TypedForm::Number(ty, _) => ty,
        TypedForm::Text(ty, _) => ty,
        TypedForm::Truth(ty, _) => ty,
        TypedForm::Tuple(ty, _) => ty,
        TypedForm::Local(ty, _, _) => ty,
        TypedForm::Top(ty, _) => ty,
        TypedForm::Single(ty, _) => ty,
        TypedForm::Receiver(ty) => ty,
        TypedForm::ReadField(ty, _, _) => ty,
        TypedForm::ReadElement(ty, _, _) => ty,
        TypedForm::Size(ty, _) => ty,
        TypedForm::Fill(ty, _, _, _) => ty,
        TypedForm::Call(ty, _, _) => ty,
        TypedForm::Operation(ty, _, _) => ty,
        TypedForm::Chain(ty, _, _, _) => ty,
        TypedForm::Apply(ty, _, _) => ty,
        TypedForm::Fn(ty, _, _) => ty,
        TypedForm::Block(ty, _) => ty,
        TypedForm::Bind(ty, _, _, _, _) => ty,
        TypedForm::Binds(ty, _, _) => ty,
        TypedForm::Also(ty, _) => ty,
        TypedForm::If(ty, _, _, _) => ty,
        TypedForm::While(ty, _, _) => ty,
        TypedForm::For(ty, _, _, _) => ty,
        TypedForm::Case(ty, _, _, _, _, _) => ty,
        TypedForm::Typecase(ty, _, _, _, _, _) => ty,
        TypedForm::Try(ty, _, _, _, _, _) => ty,
        TypedForm::Atomic(ty, _) => ty,
        TypedForm::Tryatomic(ty, _) => ty,
        TypedForm::Throw(ty, _) => ty,
        TypedForm::Reduce(ty, _, _, _, _, _, _) => ty,
        TypedForm::Assign(ty, _, _) => ty,
        TypedForm::Update(ty, _, _, _) => ty,
    }
}
