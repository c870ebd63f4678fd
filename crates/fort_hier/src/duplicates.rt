//! Two names at the top that are one.
ghost use Rattle.std.specs.Prelude.{◌++◌, [], map, IfOk, OnOk};
ghost use Rattle.fort_base.specs.Places.{IsFirst};
ghost use Rattle.fort_types_builtin.specs.Types.{type_spellings};
ghost use Rattle.fort_hier.specs.Names.{IsDuplicate, all_called, built_in, type_called};
ghost use Rattle.fort_hier.specs.Seen.{HoldsSeen};

use crate::seen::Seen;
use crate::spellings::spelled;
use crate::tops::Top;
use fort_base::{Bytes, Memory, Place, earlier};
use fort_types_builtin::{FUNCTION_COUNT, TYPE_NAME_COUNT, function_name, type_name};
use std::alloc::Global;

/// The earliest place of a name at the top that clashes with one before it, or `None` where none
/// does.
pub fn first_duplicate(
    alloc: Global,
    names: &[Bytes],
    tops: &[Top],
) -> Result<Option<Place>, Memory>
    ensures { IfOk result (IsFirst (IsDuplicate (all_called names.now tops.now))) }
{
    let mut seen = built_in_seen(alloc)?;
    let mut best = None;
    for top in tops {
        if !seen.add(spelled(names, top.name), top.is_function)? {
            continue;
        }
        best = earlier(best, top.name.spot.place);
    }
    Ok(best)
}

/// The built-in names.
fn built_in_seen<'a>(alloc: Global) -> Result<Seen<'a>, Memory>
    ensures { IfOk result (HoldsSeen built_in) }
{
    let mut seen = Seen::new(alloc);
    add_types(&mut seen)?;
    add_functions(&mut seen)?;
    Ok(seen)
}

/// Adds the built-in types to no names.
fn add_types<'a>(seen: &mut Seen<'a>) -> Result<(), Memory>
    requires { HoldsSeen [] seen.old }
    ensures { OnOk result (HoldsSeen (map type_called type_spellings) seen.new) }
{
    for number in 0..TYPE_NAME_COUNT {
        let _ = seen.add(type_name(number), false)?;
    }
    Ok(())
}

/// Adds the built-in functions to the built-in types.
fn add_functions<'a>(seen: &mut Seen<'a>) -> Result<(), Memory>
    requires { HoldsSeen (map type_called type_spellings) seen.old }
    ensures { OnOk result (HoldsSeen built_in seen.new) }
{
    for number in 0..FUNCTION_COUNT {
        let _ = seen.add(function_name(number), true)?;
    }
    Ok(())
}
