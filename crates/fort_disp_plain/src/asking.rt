//! What is asked of one declaration of a set.
ghost use Rattle.std.specs.Prelude.{◌≡◌, map};
ghost use Rattle.std.specs.List.{list_all};
ghost use Rattle.fort_machine.specs.Types.{all_below, type_of};
ghost use Rattle.fort_disp_plain.specs.Asked.{gives_way as gives_way_to, wins as wins_among, is_other};

use fort_base::{DeclId, List};
use fort_core::{CoreDecl, Program, Value};
use fort_value::{all_have, are_below};

// Whether values can be passed to a declaration.
fn applies(program: &Program, values: &List<Value>, decl: &CoreDecl) -> bool
    ensures { result
        ≡ all_below program.now (map (type_of program.now) values.now) decl.now.parameters }
{
    all_have(program, values, &decl.parameters)
}

// Whether a declaration is the one of a number, or isn't applicable, or is less specific than that
// one.
fn gives_way(
    program: &Program,
    values: &List<Value>,
    decl: &CoreDecl,
    number: DeclId,
    other: DeclId,
) -> bool
    ensures { result
        ≡ gives_way_to program.now (map (type_of program.now) values.now) decl.now number other }
{
    if other.0 == number.0 {
        return true;
    }
    match program.decls.get(other.0 as usize) {
        None => true,
        Some(found) => {
            !applies(program, values, found)
                || are_below(program, &decl.parameters, &found.parameters)
        }
    }
}

// Whether all others give way to a declaration.
fn is_over(
    program: &Program,
    members: &[DeclId],
    values: &List<Value>,
    decl: &CoreDecl,
    number: DeclId,
) -> bool
    ensures { result
        ≡ list_all (gives_way_to program.now (map (type_of program.now) values.now) decl.now number)
        members.now }
{
    for other in members {
        if !gives_way(program, values, decl, number, *other) {
            return false;
        }
    }
    true
}

/// Whether a declaration of a set is applicable, and more specific than each other applicable one.
pub fn wins(program: &Program, members: &[DeclId], values: &List<Value>, number: DeclId) -> bool
    ensures { result
        ≡ wins_among program.now members.now (map (type_of program.now) values.now) number }
{
    match program.decls.get(number.0 as usize) {
        None => false,
        Some(decl) => {
            applies(program, values, decl) && is_over(program, members, values, decl, number)
        }
    }
}

/// Whether a declaration is the one of a number, or doesn't win.
pub fn is_no_rival(
    program: &Program,
    members: &[DeclId],
    values: &List<Value>,
    number: DeclId,
    other: DeclId,
) -> bool
    ensures { result
        ≡ is_other program.now members.now (map (type_of program.now) values.now) number other }
{
    other.0 == number.0 || !wins(program, members, values, other)
}
