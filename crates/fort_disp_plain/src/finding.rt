//! The search through a set.
ghost use Rattle.std.specs.Prelude.{◌≡◌, map, MatchOption};
ghost use Rattle.std.specs.List.{list_all, find};
ghost use Rattle.fort_base.specs.declared.ids.DeclId.{DeclId};
ghost use Rattle.fort_core.specs.declared.program.CoreDecl.{CoreDecl};
ghost use Rattle.fort_machine.specs.Types.{type_of};
ghost use Rattle.fort_machine.specs.Calls.{Dispatches};
ghost use Rattle.fort_disp_plain.specs.Asked.{wins as wins_among, is_other};

use crate::asking::{is_no_rival, wins};
use fort_base::{DeclId, List, SetId};
use fort_core::{CoreDecl, Program, Value};

// The first declaration that wins.
fn winner(program: &Program, members: &[DeclId], values: &List<Value>) -> Option<DeclId>
    ensures { result
        ≡ find (wins_among program.now members.now (map (type_of program.now) values.now))
        members.now }
{
    for number in members {
        if wins(program, members, values, *number) {
            return Some(*number);
        }
    }
    None
}

// Whether no other declaration wins.
fn is_sole(program: &Program, members: &[DeclId], values: &List<Value>, number: DeclId) -> bool
    ensures { result
        ≡ list_all (is_other program.now members.now (map (type_of program.now) values.now) number)
        members.now }
{
    for other in members {
        if !is_no_rival(program, members, values, number, *other) {
            return false;
        }
    }
    true
}

/// The declaration that a call of a set runs on these values: the one that is applicable to them
/// and more specific than each other applicable one, or `None` where there is none or more than
/// one. It takes no memory. The chapter "Calls".
pub fn dispatched<'a>(
    program: &'a Program,
    set: SetId,
    values: &List<Value>,
) -> Option<&'a CoreDecl>
    ensures { MatchOption result
        ((number : DeclId) → (decl : CoreDecl) → Dispatches program.now set values.now number decl → ⊥)
        (λ decl. (number : DeclId) × Dispatches program.now set values.now number decl.now) }
{
    let members = match program.sets.get(set.0 as usize) {
        None => return None,
        Some(members) => members.decls.as_slice(),
    };
    let number = match winner(program, members, values) {
        None => return None,
        Some(number) => number,
    };
    if is_sole(program, members, values, number) {
        program.decls.get(number.0 as usize)
    } else {
        None
    }
}
