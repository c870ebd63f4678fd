//! What a worker does with a book: it is lent a task, submits a leg, or gives the task back. No two
//! locks are held at once.
ghost use Rattle.std.specs.Prelude.{◌≡◌, true};
ghost use Rattle.fort_turn.specs.Passes.{number_of};
ghost use Rattle.fort_hall_work.specs.Seats.{IsSeated};

use crate::attempt::Attempt;
use crate::hall::{Hall, ROOT};
use crate::lent::{Back, Lent};
use crate::outcome::{Offer, Outcome};
use crate::seat;
use crate::seat::Seat;
use crate::shelf::Answer;
use crate::worker::Worker;
use fort_base::{BookId, Memory};
use fort_deck::Job;
use fort_hall_machine::{Found, Machine};
use std::sync::Wait;

impl<'a, M: Machine> Hall<'a, M> {
    /// Lends the task of a job.
    ///
    /// # Errors
    ///
    /// `Memory` where memory is wanting.
    pub fn checkout<R: Wait>(&self, rt: &R, seat: &mut Seat<M>, job: Job) -> Result<Lent<M>, Memory>
        requires { IsSeated M.history M.by self.now.turn seat.old.pass seat.old.legs }
        ensures seated { IsSeated M.history M.by self.now.turn seat.new.pass seat.new.legs }
        ensures number { number_of seat.new.pass ≡ number_of seat.old.pass }
    {
        if job.book == ROOT {
            return seat::checkout(rt, self.machine, &self.turn, seat, job.task);
        }
        match self.shelf(job.book) {
            Some(shelf) => shelf.lock(rt).checkout(self.machine, job),
            None => Ok(Lent::new(job, Found::Nothing)),
        }
    }

    /// Submits a leg to the book of this number, and keeps what is left to do.
    ///
    /// # Errors
    ///
    /// `Memory` where memory is wanting.
    pub fn submit<R: Wait>(
        &self,
        rt: &R,
        worker: &mut Worker<M>,
        book: BookId,
        leg: M::Leg,
    ) -> Result<(), Memory>
        requires seated { IsSeated M.history M.by self.now.turn worker.old.seat.pass worker.old.seat.legs }
        requires leg { M.is_leg leg }
        ensures seated { IsSeated M.history M.by self.now.turn worker.new.seat.pass worker.new.seat.legs }
        ensures number { number_of worker.new.seat.pass ≡ number_of worker.old.seat.pass }
    {
        if let Some(attempt) = worker.alone.take() {
            if attempt.number() == book {
                return self.submit_alone(rt, worker, attempt, leg);
            }
            self.shelve(rt, attempt)?;
        }
        if book == ROOT {
            self.submit_to_root(rt, worker, leg)
        } else {
            self.submit_to_shelf(rt, worker, book, leg)
        }
    }

    fn submit_to_root<R: Wait>(
        &self,
        rt: &R,
        worker: &mut Worker<M>,
        leg: M::Leg,
    ) -> Result<(), Memory>
        requires seated { IsSeated M.history M.by self.now.turn worker.old.seat.pass worker.old.seat.legs }
        requires leg { M.is_leg leg }
        ensures seated { IsSeated M.history M.by self.now.turn worker.new.seat.pass worker.new.seat.legs }
        ensures number { number_of worker.new.seat.pass ≡ number_of worker.old.seat.pass }
    {
        let wanted = self.board.wanted();
        let seat = &mut worker.seat;
        let (outcome, ended) = seat::submit(rt, self.machine, &self.turn, seat, leg, wanted)?;
        if ended {
            self.board.end();
        }
        self.take_up(worker, ROOT, outcome);
        Ok(())
    }

    fn submit_to_shelf<R: Wait>(
        &self,
        rt: &R,
        worker: &mut Worker<M>,
        book: BookId,
        leg: M::Leg,
    ) -> Result<(), Memory>
        requires { M.is_leg leg }
        ensures { worker.new.seat ≡ worker.old.seat }
    {
        let Some(shelf) = self.shelf(book) else {
            return Ok(());
        };
        let pass = worker.seat.pass.number();
        let wanted = self.board.wanted();
        let Answer { came, over } = shelf
            .lock(rt)
            .submit(self.machine, book, leg, pass, wanted)?;
        if let Some(attempt) = over {
            worker.due = Some(attempt.finish(self.machine)?);
            return Ok(());
        }
        if let Ok(outcome) = came {
            self.take_up(worker, book, outcome);
        }
        Ok(())
    }

    // Submits a leg to the attempt that no other worker knows. It comes on a shelf where it has
    // tasks for others, or where this worker has none of its tasks any more.
    fn submit_alone<R: Wait>(
        &self,
        rt: &R,
        worker: &mut Worker<M>,
        mut attempt: Attempt<M>,
        leg: M::Leg,
    ) -> Result<(), Memory>
        requires { M.is_leg leg }
        ensures { worker.new.seat ≡ worker.old.seat }
    {
        let pass = worker.seat.pass.number();
        let wanted = self.board.wanted();
        let outcome = attempt.submit(self.machine, leg, pass, wanted)?;
        if attempt.ended(self.machine) {
            worker.due = Some(attempt.finish(self.machine)?);
            return Ok(());
        }
        let book = attempt.number();
        if outcome.next.is_some() && !outcome.offer.is_some() {
            worker.alone = Some(attempt);
        } else {
            self.shelve(rt, attempt)?;
        }
        self.take_up(worker, book, outcome);
        Ok(())
    }

    /// Gives a task back of which no leg was made.
    ///
    /// # Errors
    ///
    /// `Memory` where memory is wanting.
    pub fn take_back<R: Wait>(
        &self,
        rt: &R,
        worker: &mut Worker<M>,
        job: Job,
        back: Back,
    ) -> Result<(), Memory>
        requires { IsSeated M.history M.by self.now.turn worker.old.seat.pass worker.old.seat.legs }
        ensures seated { IsSeated M.history M.by self.now.turn worker.new.seat.pass worker.new.seat.legs }
        ensures number { number_of worker.new.seat.pass ≡ number_of worker.old.seat.pass }
    {
        if let Some(attempt) = worker.alone.take() {
            self.shelve(rt, attempt)?;
        }
        if job.book == ROOT {
            let seat = &mut worker.seat;
            if seat::take_back(rt, self.machine, &self.turn, seat, job.task, back) {
                self.board.end();
            }
        } else if let Some(shelf) = self.shelf(job.book) {
            let over = shelf.lock(rt).take_back(self.machine, job, back);
            if let Some(attempt) = over {
                worker.due = Some(attempt.finish(self.machine)?);
            }
        }
        self.board.offer();
        Ok(())
    }

    /// Puts an attempt where other workers find it.
    ///
    /// # Errors
    ///
    /// `Memory` where memory is wanting.
    pub fn shelve<R: Wait>(&self, rt: &R, attempt: Attempt<M>) -> Result<(), Memory> {
        let Some(shelf) = self.shelf(attempt.number()) else {
            return Ok(());
        };
        shelf.lock(rt).put(attempt)?;
        self.board.offer();
        Ok(())
    }

    // What a leg left to do. What the book let go is dropped here, outside the lock.
    fn take_up(&self, worker: &mut Worker<M>, book: BookId, outcome: Outcome<M>)
        ensures { worker.new.seat ≡ worker.old.seat }
    {
        let Outcome { next, offer, .. } = outcome;
        worker.lent = next;
        let Offer {
            first,
            count,
            woken,
        } = offer;
        let all = worker.own.put_all(book, first, count);
        if woken || !all {
            self.board.offer();
        }
    }
}
