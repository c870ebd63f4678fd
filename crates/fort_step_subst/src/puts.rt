//! A term with values or locations in the places of variables.
ghost use Rattle.std.specs.Prelude.{◌≡◌, IfOk};
ghost use Rattle.fort_machine.specs.Substitution.{located, substituted, substituted_all as with_values};
ghost use Rattle.fort_step_subst.specs.Places.{placed as placed_of};

use crate::places::placed;
use crate::put::Put;
use fort_base::{List, Loc, Memory, Shared};
use fort_core::{Term, Value};
use std::alloc::Global;

/// A term with a value or a location in the place of a variable; where nothing changes it is the
/// term itself, with one owner more. It goes down the term by calls. The chapter "Substitution".
///
/// # Errors
///
/// `Memory` where memory is wanting.
pub fn put_one(alloc: Global, term: &Shared<Term>, put: &Put) -> Result<Shared<Term>, Memory>
    ensures { IfOk result (λ made. made ≡ placed_of put.now term.now) }
{
    match placed(alloc, term.get(), put)? {
        None => term.share(),
        Some(made) => Ok(made),
    }
}

/// A term with a value in the place of a variable; where nothing changes it is the term itself,
/// with one owner more. The chapter "Substitution".
///
/// # Errors
///
/// `Memory` where memory is wanting.
#[tactic(auto, unfolding(crate::specs::Places::placed))]
pub fn put_value(
    alloc: Global,
    term: &Shared<Term>,
    variable: u32,
    value: &Value,
) -> Result<Shared<Term>, Memory>
    ensures { IfOk result (λ made. made ≡ substituted variable value.now term.now) }
{
    put_one(alloc, term, &Put::Given(variable, value.share()?))
}

/// A term with a location in the place of a mutable variable; where nothing changes it is the term
/// itself, with one owner more. The chapter "Substitution".
///
/// # Errors
///
/// `Memory` where memory is wanting.
#[tactic(auto, unfolding(crate::specs::Places::placed))]
pub fn put_location(
    alloc: Global,
    term: &Shared<Term>,
    variable: u32,
    at: Loc,
) -> Result<Shared<Term>, Memory>
    ensures { IfOk result (λ made. made ≡ located variable at.0 term.now) }
{
    put_one(alloc, term, &Put::Located(variable, at))
}

/// A term with values in the places of variables, one after the other. The chapter "Substitution".
///
/// # Errors
///
/// `Memory` where memory is wanting.
pub fn put_all(
    alloc: Global,
    term: &Shared<Term>,
    values: &List<(u32, Value)>,
) -> Result<Shared<Term>, Memory>
    ensures { IfOk result (λ made. made ≡ with_values values.now term.now) }
{
    let mut made = term.share()?;
    for pair in values.as_slice() {
        made = put_value(alloc, &made, pair.0, &pair.1)?;
    }
    Ok(made)
}
