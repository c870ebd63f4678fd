//! An attempt is opened.
ghost use Rattle.std.specs.Prelude.{◌≡◌};

use crate::attempt::Attempt;
use crate::hall::Hall;
use crate::worker::Worker;
use fort_base::{Memory, TaskId};
use fort_deck::Job;
use fort_hall_machine::Machine;
use std::sync::Wait;

// The task of an attempt's body.
const BODY: TaskId = TaskId(0);

impl<'a, M: Machine> Hall<'a, M> {
    /// Opens an attempt of the form at which the task of the job stands. The worker goes on with
    /// its body, and no other knows of it yet.
    ///
    /// # Errors
    ///
    /// `Memory` where memory is wanting.
    pub fn open<R: Wait>(
        &self,
        rt: &R,
        number: u32,
        worker: &mut Worker<M>,
        job: Job,
        at: M::State,
    ) -> Result<(), Memory>
        requires { M.good at }
        ensures { worker.new.seat ≡ worker.old.seat }
    {
        if let Some(outer) = worker.alone.take() {
            self.shelve(rt, outer)?;
        }
        let book = worker.next_number(number, self.shelves.len() as u64);
        let mut attempt = Attempt::begin(self.machine, book, job, at)?;
        if attempt.ended(self.machine) {
            worker.due = Some(attempt.finish(self.machine)?);
            return Ok(());
        }
        let lent = attempt.checkout(self.machine, BODY)?;
        if lent.is_some() {
            worker.lent = Some(lent);
            worker.alone = Some(attempt);
            Ok(())
        } else {
            self.shelve(rt, attempt)
        }
    }
}
