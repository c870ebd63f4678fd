//! An exception in a part: `run(): () = println(2147483647 + 1)`.
ghost use Rattle.fort_machine_law_worked.specs.Overflow.{Overflows, SumIsPartZero};

/// The journal of three steps is a run of `run(): () = println(2147483647 + 1)`, ends uncaught at
/// the object `IntegerOverflow`, prints nothing and costs 3. Chapter "Worked runs", run 2.
pub fn overflows()
    ensures { Overflows }
{}

/// With the root thread as the second pick in place of part 0, no journal with these picks is a run
/// of that program.
pub fn sum_is_part_zero()
    ensures { SumIsPartZero }
{}
