//! What a form is to the form around it.
ghost use Rattle.std.specs.Prelude.{◌≡◌};
ghost use Rattle.fort_form.specs.declared.form.Form.{out-Form};
ghost use Rattle.fort_typing_rules.specs.Typing.{listed_at, parens_at, postfix_at, target_at};

use fort_form::Form;

/// Whether it is an atom in parentheses.
pub fn is_parens(form: &Form) -> bool
    ensures { result ≡ parens_at (out-Form form.now) }
{
    match form {
        Form::Parens(_, _) => true,
        Form::Tuple(_, _) => true,
        _ => false,
    }
}

/// Whether it is a list in parentheses.
pub fn is_listed(form: &Form) -> bool
    ensures { result ≡ listed_at (out-Form form.now) }
{
    match form {
        Form::Tuple(_, _) => true,
        _ => false,
    }
}

/// Whether it is a postfix.
pub fn is_postfix(form: &Form) -> bool
    ensures { result ≡ postfix_at (out-Form form.now) }
{
    match form {
        Form::Subscript(_, _) => true,
        Form::Power(_, _) => true,
        Form::Field(_, _, _) => true,
        Form::Method(_, _, _, _) => true,
        _ => false,
    }
}

/// Whether it may be assigned to: a name, or a run.
pub fn is_target(form: &Form) -> bool
    ensures { result ≡ target_at (out-Form form.now) }
{
    match form {
        Form::Name(_, _) => true,
        Form::Run(_, _) => true,
        _ => false,
    }
}
