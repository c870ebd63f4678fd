//! The next rewriting of a run, whatever its first element is.
ghost use Rattle.std.specs.Prelude.{◌≡◌, true, [], Some};
ghost use Rattle.fort_juxt.specs.Tight.{is_argument as is_alone, postfix_first, takes as is_taking};
ghost use Rattle.fort_typing_meaning.specs.Juxtaposing.{applying, next_rewriting};

use fort_base::CheckFault;
use fort_base::rules::TIGHT_ARGUMENT;
use fort_juxt::{Element, Tight, tight};

/// Whether a function stands first and an atom directly behind it.
fn takes(rest: &[Element]) -> bool
    ensures { result ≡ is_taking rest.now }
{
    match rest {
        [function, atom, ..] => function.function && !atom.postfix,
        _ => false,
    }
}

/// Whether a postfix stands first.
fn begins_with_postfix(rest: &[Element]) -> bool
    ensures { result ≡ postfix_first rest.now }
{
    match rest {
        [first, ..] => first.postfix,
        _ => false,
    }
}

/// Whether an atom is in parentheses and no postfix directly follows it.
fn is_argument(atom: &Element, after: &[Element]) -> bool
    ensures { result ≡ is_alone atom.now after.now }
{
    atom.parens && !begins_with_postfix(after)
}

/// What comes of a function with this number and of the atom that directly follows it, where both
/// stand first.
fn applied(at: usize, rest: &[Element]) -> Result<Tight, CheckFault>
    ensures { result ≡ applying [] (Some (at, rest.now)) }
{
    match rest {
        [_, atom, ..] => {
            if is_argument(atom, &rest[2..]) {
                return Ok(Tight::Apply(at));
            }
            Err(CheckFault::Refused(TIGHT_ARGUMENT, atom.place))
        }
        _ => Ok(Tight::Whole),
    }
}

/// The next rewriting of elements that begin with a postfix: of a function that an atom directly
/// follows, or there is none.
#[tactic(auto, using(crate::proofs::Places::found_next, crate::proofs::Places::over_next))]
fn behind_postfix(elements: &[Element]) -> Result<Tight, CheckFault>
    requires { postfix_first elements.now ≡ true }
    ensures { result ≡ next_rewriting elements.now }
{
    let mut rest = elements;
    for at in 0..elements.len() {
        if takes(rest) {
            return applied(at, rest);
        }
        match rest.split_first() {
            Some((_, more)) => rest = more,
            None => return Ok(Tight::Whole),
        }
    }
    Ok(Tight::Whole)
}

/// The next rewriting of a run's elements.
///
/// It refuses 606 and 607 as `tight` of fort_juxt does. Where a postfix stands first, which no run
/// of a component has, that one applies to nothing; `Whole` says that nothing is rewritten. It
/// takes no memory. The chapter "Juxtaposition".
#[tactic(auto, using(crate::proofs::Places::nothing_left))]
pub fn rewriting(elements: &[Element]) -> Result<Tight, CheckFault>
    ensures { result ≡ next_rewriting elements.now }
{
    if elements.len() == 0 {
        return Ok(Tight::Whole);
    }
    if begins_with_postfix(elements) {
        return behind_postfix(elements);
    }
    tight(elements)
}
