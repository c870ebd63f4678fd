//! One turn of a worker.
ghost use Rattle.std.specs.Prelude.{◌≡◌, ℕ, ◌+◌};
ghost use Rattle.fort_turn.specs.Passes.{number_of};
ghost use Rattle.fort_hall_work.specs.Seats.{IsSeated};

use crate::attempt::Due;
use crate::hall::Hall;
use crate::lent::{Back, Lent};
use crate::worker::Worker;
use fort_base::Memory;
use fort_hall_machine::{Found, Machine, Made};
use fort_pool::{Turned, Work};
use std::sync::Wait;
use std::thread::Threads;

impl<'a, M: Machine> Hall<'a, M> {
    // One turn. Want of memory ends the run for all.
    fn step<R: Wait>(&self, rt: &R, number: u32, worker: &mut Worker<M>) -> Turned
        requires { IsSeated M.history M.by self.now.turn worker.old.seat.pass worker.old.seat.legs }
        ensures seated { IsSeated M.history M.by self.now.turn worker.new.seat.pass worker.new.seat.legs }
        ensures number { number_of worker.new.seat.pass ≡ number_of worker.old.seat.pass }
    {
        if self.board.is_over() {
            return Turned::Over;
        }
        match self.go_on(rt, number, worker) {
            Ok(true) => Turned::Did,
            Ok(false) => Turned::Idle,
            Err(Memory) => {
                self.board.end();
                Turned::Over
            }
        }
    }

    // One turn, which says whether there was something to do.
    fn go_on<R: Wait>(&self, rt: &R, number: u32, worker: &mut Worker<M>) -> Result<bool, Memory>
        requires { IsSeated M.history M.by self.now.turn worker.old.seat.pass worker.old.seat.legs }
        ensures seated { IsSeated M.history M.by self.now.turn worker.new.seat.pass worker.new.seat.legs }
        ensures number { number_of worker.new.seat.pass ≡ number_of worker.old.seat.pass }
    {
        if let Some(due) = worker.due.take() {
            self.pay(rt, worker, due)?;
            return Ok(true);
        }
        let Some(lent) = self.next(rt, worker)? else {
            self.is_idle(worker);
            return Ok(false);
        };
        self.is_busy(worker);
        self.make(rt, number, worker, lent)?;
        Ok(true)
    }

    // Gives to a book what an attempt that has ended is to it.
    fn pay<R: Wait>(&self, rt: &R, worker: &mut Worker<M>, due: Due<M>) -> Result<(), Memory>
        requires { IsSeated M.history M.by self.now.turn worker.old.seat.pass worker.old.seat.legs }
        ensures seated { IsSeated M.history M.by self.now.turn worker.new.seat.pass worker.new.seat.legs }
        ensures number { number_of worker.new.seat.pass ≡ number_of worker.old.seat.pass }
    {
        match due {
            Due::Leg(book, leg) => self.submit(rt, worker, book, leg.into_leg()),
            Due::Left(job) => self.take_back(rt, worker, job, Back::Left),
        }
    }

    // Makes a leg of a task and submits it, or opens an attempt.
    fn make<R: Wait>(
        &self,
        rt: &R,
        number: u32,
        worker: &mut Worker<M>,
        lent: Lent<M>,
    ) -> Result<(), Memory>
        requires { IsSeated M.history M.by self.now.turn worker.old.seat.pass worker.old.seat.legs }
        ensures seated { IsSeated M.history M.by self.now.turn worker.new.seat.pass worker.new.seat.legs }
        ensures number { number_of worker.new.seat.pass ≡ number_of worker.old.seat.pass }
    {
        let (job, found) = lent.into_parts();
        let made = match found {
            Found::Runs(state) => {
                let room = worker.room(number, self.most);
                let (made, fresh) = self.machine.advance(state, room)?;
                worker.fresh = worker.fresh.max(fresh);
                made
            }
            Found::Form(state) => Made::Form(state),
            Found::Nothing => return Ok(()),
        };
        match made {
            Made::Leg(leg) => self.submit(rt, worker, job.book, leg),
            Made::Form(at) => self.open(rt, number, worker, job, at),
            Made::Nothing => self.take_back(rt, worker, job, Back::Put),
        }
    }

    // A turn with nothing to do, the first of which is told on the board.
    fn is_idle(&self, worker: &mut Worker<M>)
        ensures { worker.new.seat ≡ worker.old.seat }
    {
        if worker.looks.idle == 0 {
            self.board.begin_to_look();
        }
        worker.looks.idle = worker.looks.idle.saturating_add(1);
    }

    // A turn with something to do.
    fn is_busy(&self, worker: &mut Worker<M>)
        ensures { worker.new.seat ≡ worker.old.seat }
    {
        if worker.looks.idle > 0 {
            self.board.stop_looking();
        }
        worker.looks.idle = 0;
    }
}

impl<'a, M: Machine + Send + Sync> Work for Hall<'a, M>
where
    M::Book: Send,
    M::State: Send,
    M::Leg: Send,
{
    type State = Worker<M>;

    ghost ready = { λ hall n w. IsSeated M.history M.by hall.turn w.seat.pass w.seat.legs × (number_of w.seat.pass ≡ n + 1) };

    ghost keeps = { λ hall n v w. Unit {0} };

    ghost over = { λ hall n w. Unit {0} };

    fn turn<R: Threads + Wait + Sync>(&self, rt: &R, number: u32, state: &mut Worker<M>) -> Turned {
        self.step(rt, number, state)
    }

    ghost reflexive = { λ all n s. tt };

    ghost transitive = { λ all n a b c p q. tt };
}
