//! Constants.
ghost use Rattle.std.specs.Prelude.{◌≡◌, IfOk, [], ◌∷◌, false};
ghost use Rattle.fort_form.specs.declared.form.Form.{out-Form};
ghost use Rattle.fort_typing_known.specs.Read.{facts};
ghost use Rattle.fort_ops.specs.declared.op.Op.TheVariants as an_op;
ghost use Rattle.fort_typing_known.specs.Sets.{operator_set};
ghost use Rattle.fort_typing_rules.specs.Elements.{chosen};
ghost use Rattle.fort_typing_rules.specs.Types.{number_type as type_of_number};
ghost use Rattle.fort_typing_meaning.specs.Constants.{constant, negative_at, no_part, operand_negative};

use fort_base::{List, Memory, Ty};
use fort_form::Form;
use fort_form_typed::{Chosen, TypedForm};
use fort_ops::Op;
use fort_types_builtin::{BOOLEAN, STRING, ZZ32, ZZ64};
use fort_typing_known::{Known, operator_spelling, set_of};
use fort_typing_parts::unit;
use std::alloc::Global;

/// The type of a number.
fn number_type(number: u64) -> Ty
    ensures { result ≡ type_of_number number }
{
    if number <= 2147483647 {
        Ty::Named(ZZ32)
    } else {
        Ty::Named(ZZ64)
    }
}

/// The call of `-` on one operand.
fn minus(alloc: Global, known: &Known) -> Result<Chosen, Memory>
    ensures { IfOk result (λ it. it
        ≡ chosen (operator_set (facts known.now) an_op.Minus 1) (false ∷ [])) }
{
    let set = set_of(known, operator_spelling(known, Op::Minus), false, 1)?;
    let mut widened = List::new(alloc);
    widened.push(false)?;
    Ok(Chosen { set, widened })
}

/// `-` before a number, which has the number's type.
fn negative(alloc: Global, known: &Known, form: &Form) -> Result<Option<TypedForm>, Memory>
    ensures { IfOk result (λ it. it ≡ negative_at (facts known.now) (out-Form form.now)) }
{
    match form {
        Form::Number(_, number) => {
            let mut operands = List::new(alloc);
            operands.push(TypedForm::Number(number_type(*number), *number))?;
            let call = minus(alloc, known)?;
            Ok(Some(TypedForm::Operation(number_type(*number), call, operands)))
        }
        _ => Ok(None),
    }
}

/// `-` before its operands, where these are one number.
fn before_number(alloc: Global, known: &Known, forms: &[Form]) -> Result<Option<TypedForm>, Memory>
    ensures { IfOk result (λ it. it ≡ operand_negative (facts known.now) forms.now) }
{
    match forms {
        [form] => negative(alloc, known, form),
        _ => Ok(None),
    }
}

/// `()`.
fn no_part(alloc: Global, forms: &[Form]) -> Option<TypedForm>
    ensures { result ≡ no_part forms.now }
{
    match forms {
        [] => Some(TypedForm::Tuple(unit(alloc), List::new(alloc))),
        _ => None,
    }
}

/// The constant that a form is, if it is one: a number, `-` before a number, a text, a truth
/// value, or `()`.
#[tactic(auto, unfolding(fort_typing_meaning::specs::Constants::constant))]
pub fn constant(alloc: Global, known: &Known, form: &Form) -> Result<Option<TypedForm>, Memory>
    ensures { IfOk result (λ it. it ≡ constant (facts known.now) form.now) }
{
    match form {
        Form::Number(_, number) => Ok(Some(TypedForm::Number(number_type(*number), *number))),
        Form::Text(_, text) => Ok(Some(TypedForm::Text(Ty::Named(STRING), *text))),
        Form::Truth(_, truth) => Ok(Some(TypedForm::Truth(Ty::Named(BOOLEAN), *truth))),
        Form::Tuple(_, forms) => Ok(no_part(alloc, forms.as_slice())),
        Form::Operator(_, op, forms) => match op {
            Op::Minus => before_number(alloc, known, forms.as_slice()),
            _ => Ok(None),
        },
        _ => Ok(None),
    }
}
