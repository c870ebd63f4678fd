//! The type of a typed form, and built-in types.
ghost use Rattle.std.specs.Prelude.{◌≡◌, IfOk};
ghost use Rattle.fort_typing_rules.specs.Types.{type_of, types_of, unit, is_nothing};

use fort_base::{List, Memory, Ty};
use fort_form_typed::TypedForm;
use std::alloc::Global;

/// The type of a typed form.
#[tactic(auto, unfolding(fort_typing_rules::specs::Types::type_of))]
pub fn type_of(typed: &TypedForm) -> &Ty
    ensures { result.now ≡ type_of typed.now }
{
    match typed {
        TypedForm::Number(ty, ..) => ty,
        TypedForm::Text(ty, ..) => ty,
        TypedForm::Truth(ty, ..) => ty,
        TypedForm::Tuple(ty, ..) => ty,
        TypedForm::Local(ty, ..) => ty,
        TypedForm::Top(ty, ..) => ty,
        TypedForm::Single(ty, ..) => ty,
        TypedForm::Receiver(ty) => ty,
        TypedForm::ReadField(ty, ..) => ty,
        TypedForm::ReadElement(ty, ..) => ty,
        TypedForm::Size(ty, ..) => ty,
        TypedForm::Fill(ty, ..) => ty,
        TypedForm::Call(ty, ..) => ty,
        TypedForm::Operation(ty, ..) => ty,
        TypedForm::Chain(ty, ..) => ty,
        TypedForm::Apply(ty, ..) => ty,
        TypedForm::Fn(ty, ..) => ty,
        TypedForm::Block(ty, ..) => ty,
        TypedForm::Bind(ty, ..) => ty,
        TypedForm::Binds(ty, ..) => ty,
        TypedForm::Also(ty, ..) => ty,
        TypedForm::If(ty, ..) => ty,
        TypedForm::While(ty, ..) => ty,
        TypedForm::For(ty, ..) => ty,
        TypedForm::Case(ty, ..) => ty,
        TypedForm::Typecase(ty, ..) => ty,
        TypedForm::Try(ty, ..) => ty,
        TypedForm::Atomic(ty, ..) => ty,
        TypedForm::Tryatomic(ty, ..) => ty,
        TypedForm::Throw(ty, ..) => ty,
        TypedForm::Reduce(ty, ..) => ty,
        TypedForm::Assign(ty, ..) => ty,
        TypedForm::Update(ty, ..) => ty,
    }
}

/// The types of typed forms.
pub fn types_of(alloc: Global, nodes: &[TypedForm]) -> Result<List<Ty>, Memory>
    ensures { IfOk result (λ types. types ≡ types_of nodes.now) }
{
    let mut types = List::new(alloc);
    for node in nodes {
        types.push(type_of(node).copy(alloc)?)?;
    }
    Ok(types)
}

/// The type of `()`; it takes no memory.
pub fn unit(alloc: Global) -> Ty
    ensures { result ≡ unit }
{
    Ty::Tuple(List::new(alloc))
}

/// Whether it is `Nothing`.
pub fn is_nothing(ty: &Ty) -> bool
    ensures { result ≡ is_nothing ty.now }
{
    match ty {
        Ty::Nothing => true,
        _ => false,
    }
}
