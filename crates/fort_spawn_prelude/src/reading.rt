//! The prelude over the names of a component.
ghost use Rattle.std.specs.Prelude.{◌≡◌, IfOk};
ghost use Rattle.fort_spawn_prelude.specs.Prelude.{IsPrelude, extended};

use crate::numbers::add_names;
use crate::table::{always_rows, starting_rows};
use crate::tokens::framed_tokens;
use fort_base::{Bytes, List, Memory};
use fort_parse_declarations::{Parsed, whole};
use fort_parse_reading::{Cursor, Fault};
use fort_tree::Declared;
use std::alloc::Global;
use std::mem;

/// How many parts may be open in one another before the stack is held to be too small for more.
const MOST_NESTED: usize = 400;

/// The prelude over the names of a component.
#[derive(Drop)]
pub struct PreludeParts {
    /// The names of the component, and behind them those of the prelude that it has not.
    pub names: List<Bytes>,
    /// The declarations that stand before the component's own.
    pub declarations: List<Declared>,
}

/// The prelude, the declarations that stand before those of a component with spawned threads, and
/// the names that the component then has. The last declaration is that of `run`, where the
/// component starts. The chapter is "Threads that are spawned".
///
/// Its only error is want of memory, which it also answers where a name has no number of 32 bits.
pub fn prelude(alloc: Global, names: &[Bytes], starts: bool) -> Result<PreludeParts, Memory>
    ensures names { IfOk result (λ it. it.names ≡ extended names.now starts) }
    ensures prelude { IfOk result
        (λ it. IsPrelude (extended names.now starts) starts it.declarations) }
{
    let names = all_names(alloc, names, starts)?;
    let mut parsed = read(alloc, names.as_slice(), starts)?;
    let declarations = mem::replace(&mut parsed.component.declarations, List::new(alloc));
    Ok(PreludeParts {
        names,
        declarations,
    })
}

/// A list equal to the names.
fn copied(alloc: Global, names: &[Bytes]) -> Result<List<Bytes>, Memory>
    ensures { IfOk result (λ copy. copy ≡ names.now) }
{
    let mut copy = List::new(alloc);
    for name in names {
        copy.push(List::from_slice(alloc, name.as_slice())?)?;
    }
    Ok(copy)
}

/// The names of a component, and behind them those of the prelude, each where none is spelled so.
fn all_names(alloc: Global, names: &[Bytes], starts: bool) -> Result<List<Bytes>, Memory>
    ensures { IfOk result (λ all. all ≡ extended names.now starts) }
{
    let mut all = copied(alloc, names)?;
    add_names(alloc, &mut all, always_rows())?;
    if !starts {
        return Ok(all);
    }
    add_names(alloc, &mut all, starting_rows())?;
    Ok(all)
}

/// The component whose declarations are the prelude, over these names.
fn read(alloc: Global, names: &[Bytes], starts: bool) -> Result<Parsed, Memory>
    ensures { IfOk result (λ parsed. IsPrelude names.now starts parsed.component.declarations) }
{
    let tokens = framed_tokens(alloc, names, starts)?;
    let list = tokens.as_slice();
    let mut cursor = Cursor::new(list);
    let depth = list.len() + 1;
    let floor = depth.saturating_sub(MOST_NESTED);
    match whole(alloc, &mut cursor, names, &[], depth, floor) {
        Ok(parsed) => Ok(parsed),
        Err(Fault::Memory) => Err(Memory),
        Err(Fault::TooDeep) => unreachable!(),
        Err(Fault::Syntax) => unreachable!(),
    }
}
