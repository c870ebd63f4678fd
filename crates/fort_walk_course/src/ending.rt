//! The end of a run.
ghost use Rattle.std.specs.Prelude.{◌≡◌, []};
ghost use Rattle.fort_core.specs.declared.term.Term as term;
ghost use Rattle.fort_machine.specs.Acts.{unit};
ghost use Rattle.fort_machine.specs.Attempts.{goes};
ghost use Rattle.fort_machine.specs.Ends.{throw_of};
ghost use Rattle.fort_walk_course.specs.Courses.{HasCome};
ghost use Rattle.fort_walk_course.specs.Calls.{IsEnded, IsRun};
ghost use Rattle.fort_walk_course.specs.Picked.{root_picks};

use crate::course::Course;
use crate::execution::Execution;
use fort_base::{Bytes, List};
use fort_core::{Ending, Journal, Pick, Program, Value};

/// A run to its end.
#[derive(Drop)]
pub struct Ran {
    /// The fuel, the picks that were taken, and how the run ended.
    pub journal: Journal,
    /// What the run printed, in UTF-8.
    pub output: Bytes,
    /// What the run cost.
    pub cost: u64,
}

impl Execution {
    /// The run is completed at `()`.
    pub fn end_completed(self, program: &Program) -> Ran
        requires outside { self.outer ≡ [] }
        requires come { HasCome program.now self (goes (term.Value unit)) }
        ensures run { IsRun program.now self.fuel result }
        ensures picks { result.journal.picks ≡ root_picks self }
    {
        let _program = program;
        self.into_course().ended(Ending::Completed)
    }

    /// The run ends with a throw that nothing caught.
    pub fn end_uncaught(self, program: &Program, thrown: Value) -> Ran
        requires outside { self.outer ≡ [] }
        requires come { HasCome program.now self (goes (throw_of thrown)) }
        ensures run { IsRun program.now self.fuel result }
        ensures picks { result.journal.picks ≡ root_picks self }
    {
        let _program = program;
        self.into_course().ended(Ending::Uncaught(thrown))
    }
}

impl Course {
    // With an ending.
    pub(crate) fn ended(self, ending: Ending) -> Ran
        ensures { IsEnded self ending result }
    {
        let account = self.layers.account();
        Ran {
            journal: Journal {
                fuel: self.fuel,
                picks: self.picks,
                ending,
            },
            output: account.output,
            cost: account.cost,
        }
    }
}
