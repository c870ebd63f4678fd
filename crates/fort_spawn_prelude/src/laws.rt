ghost use Rattle.fort_spawn_prelude.specs.Prelude.{OnePrelude, PreludeIsRead};

/// Over all names there are declarations that are the prelude. The chapter is
/// "Threads that are spawned".
pub fn prelude_is_read()
    ensures { PreludeIsRead }
{}

/// Over names there are no two lists of declarations that are the prelude. The chapter is "Spawned
/// threads".
pub fn one_prelude()
    ensures { OnePrelude }
{}
