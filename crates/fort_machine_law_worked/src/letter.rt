//! One text: `run(): () = println("a")`, whose run is `prints_letter` of fort_machine.
ghost use Rattle.fort_machine_law_worked.specs.Letter.{ValueIsNoThread};

/// With part 0 as the second pick in place of the root thread, no journal with these picks is a run
/// of `run(): () = println("a")`. Chapter "Worked runs", run 1.
pub fn value_is_no_thread()
    ensures { ValueIsNoThread }
{}
