//! Lists of variables.
ghost use Rattle.std.specs.Prelude.{◌≡◌, ◌∷◌, ◌++◌, IfOk};
ghost use Rattle.fort_machine.specs.Scopes.{is_among as is_among_of, variables};

use fort_base::{List, Memory, Ty};
use fort_core::Value;
use std::alloc::Global;

// Whether a variable is in a list.
pub(crate) fn is_among(variable: u32, names: &List<u32>) -> bool
    ensures { result ≡ is_among_of variable names.now }
{
    for name in names.as_slice() {
        if variable == *name {
            return true;
        }
    }
    false
}

// One variable before those of a list.
pub(crate) fn with_one(alloc: Global, variable: u32, names: &List<u32>) -> Result<List<u32>, Memory>
    ensures { IfOk result (λ all. all ≡ variable ∷ names.now) }
{
    let mut all = List::new(alloc);
    all.push(variable)?;
    all.push_slice(names.as_slice())?;
    Ok(all)
}

// Variables with their types before those of a list.
pub(crate) fn with_typed(
    alloc: Global,
    typed: &List<(u32, Ty)>,
    names: &List<u32>,
) -> Result<List<u32>, Memory>
    ensures { IfOk result (λ all. all ≡ variables typed.now ++ names.now) }
{
    let mut all = List::new(alloc);
    for pair in typed.as_slice() {
        all.push(pair.0)?;
    }
    all.push_slice(names.as_slice())?;
    Ok(all)
}

// Variables with their values before those of a list.
pub(crate) fn with_held(
    alloc: Global,
    held: &List<(u32, Value)>,
    names: &List<u32>,
) -> Result<List<u32>, Memory>
    ensures { IfOk result (λ all. all ≡ variables held.now ++ names.now) }
{
    let mut all = List::new(alloc);
    for pair in held.as_slice() {
        all.push(pair.0)?;
    }
    all.push_slice(names.as_slice())?;
    Ok(all)
}
