//! The function `run`.
ghost use Rattle.std.specs.Prelude.{◌≡◌, IfOk};
ghost use Rattle.fort_base.specs.declared.ty.Ty.{out-Ty};
ghost use Rattle.fort_typing_known.specs.Read.{facts};
ghost use Rattle.fort_typing_meaning.specs.Whole.{any_unit, has_run, is_unit_at};

use fort_base::{Memory, Ty};
use fort_types_sets::Member;
use fort_typing_known::{Known, set_of};

/// Whether it is the type of `()`.
fn is_unit(ty: &Ty) -> bool
    ensures { result ≡ is_unit_at (out-Ty ty.now) }
{
    match ty {
        Ty::Tuple(parts) => matches!(parts.as_slice(), []),
        _ => false,
    }
}

/// Whether one of the declarations has the result `()`.
fn any_unit(members: &[Member]) -> bool
    ensures { result ≡ any_unit members.now }
{
    for member in members {
        if is_unit(&member.result) {
            return true;
        }
    }
    false
}

/// Whether there is a function `run` without parameters and with the result `()`.
#[tactic(auto, unfolding(fort_typing_meaning::specs::Whole::has_run))]
pub fn has_run(known: &Known) -> Result<bool, Memory>
    ensures { IfOk result (λ it. it ≡ has_run (facts known.now)) }
{
    let set = set_of(known, b"run", false, 0)?;
    match known.index.members.sets.get(set.0 as usize) {
        Some(found) => Ok(any_unit(found.members.as_slice())),
        None => Ok(false),
    }
}
