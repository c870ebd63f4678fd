//! The number of the name of the function that spawns threads.
ghost use Rattle.std.specs.Prelude.{◌≡◌, IfOk};
ghost use Rattle.fort_hier.specs.Numbers as numbers;
ghost use Rattle.fort_form_walk.specs.FormsOf.{spawn_name};

use fort_base::{Bytes, Memory, NameId};

/// The number of the first name that is `spawn'`, or the one behind all names where none is; or
/// want of memory, which it also answers where that is no number of 32 bits.
pub fn spawn_name(names: &[Bytes]) -> Result<NameId, Memory>
    ensures { IfOk result (λ name. name ≡ spawn_name names.now) }
{
    match u32::try_from(number_of(names, b"spawn'")) {
        Ok(number) => Ok(NameId(number)),
        Err(_) => Err(Memory),
    }
}

/// The number of the first name that is spelled so, or the number behind all.
fn number_of(names: &[Bytes], spelling: &[u8]) -> usize
    ensures { result ≡ numbers.number_of names.now spelling.now }
{
    for i in 0..names.len() {
        if spelling == names[i].as_slice() {
            return i;
        }
    }
    names.len()
}
