//! Which declaration of a set goes before all that are applicable, with widening or without.
ghost use Rattle.std.specs.Prelude.{◌≡◌, IfOk, cond};
ghost use Rattle.fort_base.specs.declared.ty.Ty.TheVariants as a_type;
ghost use Rattle.std.specs.Option.{option_copied};
ghost use Rattle.fort_types_builtin.specs.declared.types.TheConstants.{ZZ64};
ghost use Rattle.fort_typing_known.specs.Read.{facts};
ghost use Rattle.fort_typing_call.specs.Fitting.{is_widened, all_suit, contained, positions, widened_types, fits, goes_before, is_over, first_best, any_fits};

use fort_base::{List, Memory, Ty};
use fort_types_builtin::{ZZ32, ZZ64};
use fort_types_sets::Member;
use fort_typing_known::{Known, are_below, is_below};
use std::alloc::Global;

/// Whether a type is widened to a parameter.
#[tactic(auto, unfolding(crate::specs::Fitting::is_widened))]
fn is_widened(ty: &Ty, parameter: &Ty) -> bool
    ensures { result ≡ is_widened ty.now parameter.now }
{
    match (ty, parameter) {
        (Ty::Named(from), Ty::Named(to)) => from.0 == ZZ32.0 && to.0 == ZZ64.0,
        _ => false,
    }
}

/// Whether types are below parameters or widened to them, place by place.
fn all_suit(known: &Known, types: &[Ty], parameters: &[Ty]) -> bool
    ensures { result ≡ all_suit (facts known.now) types.now parameters.now }
{
    let mut rest = parameters;
    for ty in types {
        match rest.split_first() {
            Some((parameter, more)) => {
                if !is_below(known, ty, parameter) && !is_widened(ty, parameter) {
                    return false;
                }
                rest = more;
            }
            None => return false,
        }
    }
    rest.is_empty()
}

/// Whether each position that is widened for some parameters is widened for others.
fn contained(types: &[Ty], parameters: &[Ty], others: &[Ty]) -> bool
    ensures { result ≡ contained types.now parameters.now others.now }
{
    let mut rest = parameters;
    let mut behind = others;
    for ty in types {
        let Some((parameter, more)) = rest.split_first() else {
            return true;
        };
        rest = more;
        match behind.split_first() {
            Some((other, further)) => {
                if is_widened(ty, parameter) && !is_widened(ty, other) {
                    return false;
                }
                behind = further;
            }
            None => {
                if is_widened(ty, parameter) {
                    return false;
                }
            }
        }
    }
    true
}

/// Whether a declaration is applicable to types, with widening or without.
#[tactic(auto, unfolding(crate::specs::Fitting::fits))]
fn fits(known: &Known, widening: bool, types: &List<Ty>, member: &Member) -> bool
    ensures { result ≡ fits (facts known.now) widening types.now member.now }
{
    if widening {
        all_suit(known, types.as_slice(), member.parameters.as_slice())
    } else {
        are_below(known, types, &member.parameters)
    }
}

/// Whether one declaration goes before another.
#[tactic(auto, unfolding(crate::specs::Fitting::goes_before))]
fn goes_before(
    known: &Known,
    widening: bool,
    types: &List<Ty>,
    one: &Member,
    other: &Member,
) -> bool
    ensures { result ≡ goes_before (facts known.now) widening types.now one.now other.now }
{
    if widening {
        contained(
            types.as_slice(),
            one.parameters.as_slice(),
            other.parameters.as_slice(),
        )
    } else {
        are_below(known, &one.parameters, &other.parameters)
    }
}

/// Whether a declaration goes before each that fits.
fn is_over(
    known: &Known,
    widening: bool,
    types: &List<Ty>,
    one: &Member,
    members: &[Member],
) -> bool
    ensures { result ≡ is_over (facts known.now) widening types.now one.now members.now }
{
    for other in members {
        if fits(known, widening, types, other) && !goes_before(known, widening, types, one, other) {
            return false;
        }
    }
    true
}

/// The first declaration that fits and goes before each that fits.
pub fn first_best<'a>(
    known: &Known,
    widening: bool,
    types: &List<Ty>,
    members: &'a [Member],
) -> Option<&'a Member>
    ensures { option_copied result
        ≡ first_best (facts known.now) widening types.now members.now members.now }
{
    for member in members {
        if fits(known, widening, types, member)
            && is_over(known, widening, types, member, members)
        {
            return Some(member);
        }
    }
    None
}

/// Whether some declaration fits.
pub fn any_fits(known: &Known, widening: bool, types: &List<Ty>, members: &[Member]) -> bool
    ensures { result ≡ any_fits (facts known.now) widening types.now members.now }
{
    for member in members {
        if fits(known, widening, types, member) {
            return true;
        }
    }
    false
}

/// Which positions are widened.
pub fn positions(alloc: Global, types: &[Ty], parameters: &[Ty]) -> Result<List<bool>, Memory>
    ensures { IfOk result (λ list. list ≡ positions types.now parameters.now) }
{
    let mut list = List::new(alloc);
    let mut rest = parameters;
    for ty in types {
        match rest.split_first() {
            Some((parameter, more)) => {
                list.push(is_widened(ty, parameter))?;
                rest = more;
            }
            None => list.push(false)?,
        }
    }
    Ok(list)
}

/// What a type is in a call where it is widened, or isn't.
fn widened_type(alloc: Global, widened: bool, ty: &Ty) -> Result<Ty, Memory>
    ensures { IfOk result (λ wide. wide ≡ cond widened (a_type.Named ZZ64) ty.now) }
{
    if widened {
        return Ok(Ty::Named(ZZ64));
    }
    ty.copy(alloc)
}

/// The types of a call that is widened to parameters.
pub fn widened_types(alloc: Global, types: &[Ty], parameters: &[Ty]) -> Result<List<Ty>, Memory>
    ensures { IfOk result (λ list. list ≡ widened_types types.now parameters.now) }
{
    let mut list = List::new(alloc);
    let mut rest = parameters;
    for ty in types {
        match rest.split_first() {
            Some((parameter, more)) => {
                list.push(widened_type(alloc, is_widened(ty, parameter), ty)?)?;
                rest = more;
            }
            None => list.push(ty.copy(alloc)?)?,
        }
    }
    Ok(list)
}
