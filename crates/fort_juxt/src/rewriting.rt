//! The next rewriting of a run.
ghost use Rattle.std.specs.Prelude.{◌≡◌, ◌≢◌, ◌<◌, false, length, IfErr};
ghost use Rattle.fort_base.specs.declared.refusal.CheckFault.TheVariants as a_fault;
ghost use Rattle.fort_juxt.specs.Tight.{is_argument as is_alone, postfix_first, takes, Rewrites};
ghost use Rattle.fort_juxt.specs.Walks.{IsAt, IsUnmet};

use crate::elements::{Element, Tight};
use crate::places::{begins_with_postfix, first_postfix, first_taking};
use fort_base::CheckFault;
use fort_base::rules::{FUNCTION_AS_VALUE, TIGHT_ARGUMENT};

/// The next rewriting of a run's atoms and postfixes, of which there is at least one, and the first
/// is no postfix.
///
/// It refuses 607 at the argument of the leftmost function that an atom directly follows, where
/// that atom isn't in parentheses or a postfix directly follows it; and 606 at a function set's
/// name that a postfix applies to, or that is joined to another element. It takes no memory, and
/// its fault is never `Memory`. The chapter "Juxtaposition".
pub fn tight(elements: &[Element]) -> Result<Tight, CheckFault>
    requires some { 0 < length elements.now }
    requires atom_first { postfix_first elements.now ≡ false }
    ensures rewrites { Rewrites elements.now result }
    ensures no_memory { IfErr result (λ fault. fault ≢ a_fault.Memory) }
{
    if let Some(at) = first_taking(elements) {
        return applied(elements, at);
    }
    if let Some(at) = first_postfix(elements) {
        return fixed(elements, at);
    }
    joined(elements)
}

/// What comes of the leftmost function that an atom directly follows.
fn applied(elements: &[Element], at: usize) -> Result<Tight, CheckFault>
    requires { IsAt takes elements.now at }
    ensures { Rewrites elements.now result }
{
    let atom = &elements[at + 1];
    if is_argument(atom, &elements[at + 2..]) {
        return Ok(Tight::Apply(at));
    }
    Err(CheckFault::Refused(TIGHT_ARGUMENT, atom.place))
}

/// Whether an atom is in parentheses and no postfix directly follows it.
fn is_argument(atom: &Element, after: &[Element]) -> bool
    ensures { result ≡ is_alone atom.now after.now }
{
    atom.parens && !begins_with_postfix(after)
}

/// What comes of the leftmost postfix, where no function is directly followed by an atom.
fn fixed(elements: &[Element], at: usize) -> Result<Tight, CheckFault>
    requires none { IsUnmet takes elements.now }
    requires first { IsAt postfix_first elements.now at }
    requires behind { 0 < at }
    ensures { Rewrites elements.now result }
{
    let before = &elements[at - 1];
    if before.named {
        return Err(CheckFault::Refused(FUNCTION_AS_VALUE, before.place));
    }
    Ok(Tight::Postfix(at))
}

/// What comes of elements among which is no postfix, and no function that an atom directly follows.
fn joined(elements: &[Element]) -> Result<Tight, CheckFault>
    requires some { 0 < length elements.now }
    requires none { IsUnmet takes elements.now }
    requires atoms { IsUnmet postfix_first elements.now }
    ensures { Rewrites elements.now result }
{
    match elements {
        [first, second, ..] => {
            if first.named {
                return Err(CheckFault::Refused(FUNCTION_AS_VALUE, first.place));
            }
            if second.named {
                return Err(CheckFault::Refused(FUNCTION_AS_VALUE, second.place));
            }
            Ok(Tight::Left)
        }
        _ => Ok(Tight::Whole),
    }
}
