//! A worker looks for work.
ghost use Rattle.std.specs.Prelude.{◌≡◌};
ghost use Rattle.fort_turn.specs.Passes.{number_of};
ghost use Rattle.fort_hall_work.specs.Seats.{IsSeated};

use crate::hall::Hall;
use crate::lent::Lent;
use crate::seat;
use crate::worker::Worker;
use fort_base::Memory;
use fort_hall_machine::Machine;
use std::sync::Wait;

impl<'a, M: Machine> Hall<'a, M> {
    /// What the worker goes on with: what it has, else a job of its own deck, else a stolen one,
    /// else a task that is found in the books.
    ///
    /// # Errors
    ///
    /// `Memory` where memory is wanting.
    pub fn next<R: Wait>(&self, rt: &R, worker: &mut Worker<M>) -> Result<Option<Lent<M>>, Memory>
        requires { IsSeated M.history M.by self.now.turn worker.old.seat.pass worker.old.seat.legs }
        ensures seated { IsSeated M.history M.by self.now.turn worker.new.seat.pass worker.new.seat.legs }
        ensures number { number_of worker.new.seat.pass ≡ number_of worker.old.seat.pass }
    {
        if let Some(lent) = worker.lent.take() {
            return Ok(Some(lent));
        }
        if let Some(job) = worker.at_hand() {
            return Ok(Some(self.checkout(rt, &mut worker.seat, job)?));
        }
        let offers = self.board.offers();
        if !worker.looks.may_find(offers) {
            return Ok(None);
        }
        let found = self.seek(rt, worker)?;
        if found.is_none() {
            worker.looks.missed = Some(offers);
        }
        Ok(found)
    }

    // Looks through the attempts on the shelves, and then through the root's book.
    fn seek<R: Wait>(&self, rt: &R, worker: &mut Worker<M>) -> Result<Option<Lent<M>>, Memory>
        requires { IsSeated M.history M.by self.now.turn worker.old.seat.pass worker.old.seat.legs }
        ensures seated { IsSeated M.history M.by self.now.turn worker.new.seat.pass worker.new.seat.legs }
        ensures number { number_of worker.new.seat.pass ≡ number_of worker.old.seat.pass }
    {
        let from = worker.looks.from;
        if let Some(lent) = self.seek_on_shelves(rt, from)? {
            return Ok(Some(lent));
        }
        let (found, ended) = seat::seek(rt, self.machine, &self.turn, &mut worker.seat, from)?;
        if ended {
            self.board.end();
        }
        if let Some(lent) = &found {
            worker.looks.from = lent.task().0.wrapping_add(1);
        }
        Ok(found)
    }

    fn seek_on_shelves<R: Wait>(&self, rt: &R, from: u64) -> Result<Option<Lent<M>>, Memory> {
        for shelf in &self.shelves {
            if let Some(lent) = shelf.lock(rt).seek(self.machine, from)? {
                return Ok(Some(lent));
            }
        }
        Ok(None)
    }
}
