//! The end of a deck: its thieves are taken in, and its owner takes what is left.
ghost use Rattle.std.specs.Prelude.{◌≡◌, ◌+◌, ℕ, [], ◌∷◌, ◌++◌, List as Seq, length, sum_by, All, MatchOption};
ghost use Rattle.crossbeam_deque.specs.Handles.{worker_deque, worker_view, stealer_deque, SameWorker};
ghost use Rattle.fort_deck.specs.declared.job.Job.{Job as J};
ghost use Rattle.fort_deck.specs.Thefts.{Theft, jobs_of, jobs_by};
ghost use Rattle.fort_deck.specs.Resting.{Rests, TakesIn};
ghost use Rattle.fort_deck.specs.Decks.{IsOwnerOf, IsThiefOf, put_by, owned_by, stack_of, thieves_of, number_of, stolen_by, hands_of, left_of};

use crate::held::{Deck, Owner, Rest, Thief};
use crate::job::Job;
use crate::rule::{Dealing, Next, Settle, Together};
use crate::view::View;
use crossbeam_deque::Worker;
use fort_base::List;
use std::alloc::Global;

impl Deck {
    /// Ends the deck. It needs all its thieves, and takes no memory.
    ///
    /// The jobs that the owner put and didn't take are those that were stolen, in the order of the
    /// thefts, and then those that are left; what each thief took are the thefts of its number, in
    /// their order. However jobs are weighed, what was put weighs what the owner took, what the
    /// thieves took and what is left: each job comes out as often as it was put.
    pub fn close(self, owner: Owner, thieves: List<Thief>) -> Rest
        requires owner { IsOwnerOf self owner }
        requires thieves { All (λ thief. IsThiefOf self thief) thieves
            × (length thieves ≡ thieves_of owner) }
        ensures order { (thefts : Seq Theft) × (stack_of owner ≡ jobs_of thefts ++ left_of result)
            × All (λ thief. stolen_by thief ≡ jobs_by (number_of thief) thefts) thieves }
        ensures all { (weight : J → ℕ)
            → sum_by weight (put_by owner)
            ≡ sum_by weight (owned_by owner)
            + sum_by (λ thief. sum_by weight (stolen_by thief)) thieves
            + sum_by weight (left_of result) }
    {
        let Owner { mut worker } = owner;
        take_in(&self, &mut worker, thieves);
        worker.len_as::<Settle>();
        Rest { worker }
    }
}

// Takes the thieves in, the last one first.
fn take_in(deck: &Deck, worker: &mut Worker<Job, Global, View, Dealing>, mut thieves: List<Thief>)
    requires worker { Rests worker.old × (worker_deque worker.old ≡ stealer_deque deck.now.handle) }
    requires thieves { All (λ thief. IsThiefOf deck.now thief) thieves
        × ((worker_view worker.old).out ≡ length thieves) × ((worker_view worker.old).hands ≡ []) }
    ensures same { SameWorker worker.old worker.new }
    ensures taken { TakesIn (worker_view worker.old) 0 (hands_of thieves) (worker_view worker.new) }
{
    while let Some(thief) = thieves.pop() {
        let Thief { pass } = thief;
        worker.absorb::<Together>(pass);
    }
}

impl Rest {
    /// Takes the last job that is left. `None` comes exactly where none is left. It takes no memory
    /// and waits for nobody.
    pub fn next(&mut self) -> Option<Job>
        ensures { MatchOption result ((left_of self.old ≡ [])
            × (left_of self.new ≡ [])) (λ job. left_of self.old
            ≡ left_of self.new ++ job ∷ []) }
    {
        self.worker.pop_as::<Next>()
    }
}
