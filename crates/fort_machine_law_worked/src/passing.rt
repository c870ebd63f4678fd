//! A part that is passed over: `run(): () = do throw E also do println("b") end`.
ghost use Rattle.fort_machine_law_worked.specs.Passing.{PassedIsNoThread, ThrowPasses};

/// Two steps of the root thread are a run of `run(): () = do throw E also do println("b") end`,
/// which ends at the throw, prints nothing and costs 2. Chapter "Worked runs", run 6.
pub fn throw_passes()
    ensures { ThrowPasses }
{}

/// With a step of block 1 behind the first one, no journal is a run of that program.
pub fn passed_is_no_thread()
    ensures { PassedIsNoThread }
{}
