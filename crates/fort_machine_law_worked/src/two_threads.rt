//! Two threads: `run(): () = do print("a") also do print("b") end`.
ghost use Rattle.fort_machine_law_worked.specs.TwoThreads.{PrintsRightFirst, PrintsLeftFirst, FinishedIsNoThread};

/// The journal that picks block 1 first is a run of `run(): () = do print("a") also do print("b")
/// end`, prints `ba` and costs 6. Chapter "Worked runs", run 3.
pub fn prints_right_first()
    ensures { PrintsRightFirst }
{}

/// The journal that picks block 0 first is one too, prints `ab` and costs 6.
pub fn prints_left_first()
    ensures { PrintsLeftFirst }
{}

/// With block 1 as the third pick too, in place of block 0, no journal with these picks is a run of
/// that program.
pub fn finished_is_no_thread()
    ensures { FinishedIsNoThread }
{}
