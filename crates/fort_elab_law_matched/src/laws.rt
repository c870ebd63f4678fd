ghost use Rattle.fort_elab_law_matched.specs.Component.{ComponentIsWritten, TypedMatchesMembers};

use fort_elab_law_written::program_is_written;

/// A law: what typing gives of a component matches its members: no two declarations with bodies
/// stand at one place, each has as many parameters as its body counts, and the parameters of a
/// constructor are the types of the first fields of its object, which alone have no constant.
pub fn typed_matches_members()
    ensures { TypedMatchesMembers }
{}

/// A law: the program of such a component is as it is written. Chapter "Programs as written" of
/// docs/MACHINE.md.
pub fn component_is_written()
    ensures { ComponentIsWritten }
{
    typed_matches_members();
    program_is_written();
}
