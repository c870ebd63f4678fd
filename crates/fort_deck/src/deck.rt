//! The calls of a deck while threads use it.
ghost use Rattle.std.specs.Prelude.{◌≡◌, ◌+◌, ◌<◌, ◌≤◌, ◌⊎◌, [], ◌∷◌, ◌++◌, length, IfOk, OnOk, IfErr, IfNone, MatchOption, MatchResult};
ghost use Rattle.fort_deck.specs.Decks.{IsOwnerOf, IsThiefOf, put_by, owned_by, stack_of, thieves_of, number_of, stolen_by, known_gone, SameJobs, MayBeEmpty, MayHoldOne};

use crate::held::{CAPACITY, Deck, Owner, Thief};
use crate::job::Job;
use crate::rule::{Another, Own, Put, Steal};
use crossbeam_deque::{Steal as Stolen, Worker};
use fort_base::Memory;
use std::alloc::Global;

impl Deck {
    /// A deck with no job, and its owner, which has put and taken none and has made no thief.
    ///
    /// # Errors
    ///
    /// `Memory` where memory is wanting.
    pub fn new(alloc: Global) -> Result<(Deck, Owner), Memory>
        ensures owner { IfOk result (λ r. IsOwnerOf r.0 r.1 × (thieves_of r.1 ≡ 0)) }
        ensures jobs { IfOk result (λ r. (put_by r.1 ≡ []) × (owned_by r.1 ≡ [])
            × (stack_of r.1 ≡ [])) }
    {
        let worker = Worker::lifo_as(alloc, CAPACITY)?;
        let handle = worker.stealer()?;
        Ok((Deck { handle }, Owner { worker }))
    }

    /// Puts a job at the owner's end of the deck.
    ///
    /// # Errors
    ///
    /// The job itself, with the deck as it was: only where `CAPACITY` jobs or more were put before,
    /// and then where memory is wanting or the deque can't grow.
    pub fn put(&self, owner: &mut Owner, job: Job) -> Result<(), Job>
        requires { IsOwnerOf self.now owner.old }
        ensures same { IsOwnerOf self.now owner.new × (owned_by owner.new ≡ owned_by owner.old)
            × (thieves_of owner.new ≡ thieves_of owner.old) }
        ensures ok { OnOk result ((put_by owner.new ≡ put_by owner.old ++ job ∷ [])
            × (stack_of owner.new ≡ stack_of owner.old ++ job ∷ [])) }
        ensures err { IfErr result (λ back. (back ≡ job) × SameJobs owner.old owner.new) }
        ensures cause { IfErr result (λ _. CAPACITY ≤ length (put_by owner.old)) }
    {
        owner.worker.push_as::<Put>(job)
    }

    /// Takes the last job that was put and is still there. `None` says that the deck was empty at a
    /// moment of this call. It takes no memory and waits for nobody.
    pub fn own(&self, owner: &mut Owner) -> Option<Job>
        requires { IsOwnerOf self.now owner.old }
        ensures same { IsOwnerOf self.now owner.new × (put_by owner.new ≡ put_by owner.old)
            × (thieves_of owner.new ≡ thieves_of owner.old) }
        ensures took { MatchOption result (SameJobs owner.old owner.new)
            (λ job. (stack_of owner.old ≡ stack_of owner.new ++ job ∷ [])
            × (owned_by owner.new ≡ owned_by owner.old ++ job ∷ [])) }
        ensures cause { IfNone result (MayBeEmpty owner.old) }
    {
        owner.worker.pop_as::<Own>()
    }

    /// Takes the first job that is there. `None` says that at a moment of this call the deck had at
    /// most one job, or that the number of jobs that the thief knows to be gone at this end rose.
    /// It takes no memory and waits for nobody.
    pub fn steal(&self, thief: &mut Thief) -> Option<Job>
        requires { IsThiefOf self.now thief.old }
        ensures same { IsThiefOf self.now thief.new × (number_of thief.new ≡ number_of thief.old) }
        ensures took { MatchOption result (stolen_by thief.new
            ≡ stolen_by thief.old) (λ job. stolen_by thief.new
            ≡ stolen_by thief.old ++ job ∷ []) }
        ensures cause { IfNone result ((known_gone thief.old < known_gone thief.new)
            ⊎ MayHoldOne thief.old) }
    {
        match self.handle.steal_as::<Steal>(&mut thief.pass) {
            Stolen::Success(job) => Some(job),
            Stolen::Empty | Stolen::Retry => None,
        }
    }

    /// A thief of this deck, with a number that no other has. It has taken nothing.
    ///
    /// # Errors
    ///
    /// None: a thief takes no memory, so this is always `Ok`.
    pub fn thief(&self, owner: &mut Owner) -> Result<Thief, Memory>
        requires { IsOwnerOf self.now owner.old }
        ensures same { IsOwnerOf self.now owner.new × SameJobs owner.old owner.new }
        ensures another { thieves_of owner.new ≡ thieves_of owner.old + 1 }
        ensures ok { MatchResult result (λ thief. IsThiefOf self.now thief
            × (number_of thief ≡ thieves_of owner.old) × (stolen_by thief ≡ [])) (λ _. ⊥) }
    {
        let pass = owner.worker.another::<Another>();
        Ok(Thief { pass })
    }
}
