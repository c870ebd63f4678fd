ghost use Rattle.fort_sound_program.specs.Laws.{ProgramHasBodies, ProgramIsComplete, ProgramIsSound, ProgramSetsKeep};

/// A law: where the terms at the places of a component's declarations have the declarations'
/// results, the bodies of its program have theirs.
pub fn program_has_bodies()
    ensures { ProgramHasBodies }
{}

/// A law: the program of a component that keeps all the rules is sound, where it is as it is
/// written and its bodies have their results' types. Chapter "Accepted programs" of
/// docs/SOUNDNESS.md.
pub fn program_is_sound()
    ensures { ProgramIsSound }
{}

/// A law: it is complete, where it is as it is written.
pub fn program_is_complete()
    ensures { ProgramIsComplete }
{}

/// A law: its sets come from overload sets that keep the rules. Chapter "Dispatch" of
/// docs/SOUNDNESS.md.
pub fn program_sets_keep()
    ensures { ProgramSetsKeep }
{}
