//! Passes: one is made, one is taken in, and all are taken in at the end.
ghost use Rattle.std.specs.Prelude.{◌≡◌, ℕ, ◌+◌, ◌<◌, ◌≤◌, ◌^◌, [], ◌∷◌, ◌++◌, true, false};
ghost use Rattle.fort_turn.specs.Book.{has, entries_by, log_of, Follows};
ghost use Rattle.fort_turn.specs.Passes.{seen_by, number_of, numbers_of, made_by, is_first, IsIdle};

use crate::grows::Grows;
use crate::held::{NEXT, Pass, Turn};
use crate::rule::{Another, Look, Settle, Together};

impl<B: Grows> Turn<B> {
    /// A pass with the next number, which no other pass of the turn has. It has seen what this one
    /// has seen, and no entry of that names it.
    ///
    /// This pass must be the first one, hold nothing, and have split fewer than 2^32 times. It
    /// takes no memory and waits for nobody.
    pub fn split(&self, pass: &mut Pass<B>) -> Pass<B>
        requires idle { IsIdle self.now pass.old }
        requires first { (is_first pass.old ≡ true) × (made_by pass.old ≤ 2 ^ 32) }
        ensures idle { IsIdle self.now pass.new × IsIdle self.now result }
        ensures same { (number_of pass.new ≡ number_of pass.old)
            × (made_by pass.new ≡ made_by pass.old + 1)
            × (numbers_of pass.new ≡ numbers_of pass.old) × (is_first pass.new ≡ true)
            × (seen_by pass.new ≡ seen_by pass.old) }
        ensures another { (number_of result ≡ made_by pass.old)
            × (numbers_of result ≡ number_of result ∷ []) × (is_first result ≡ false)
            × (seen_by result ≡ seen_by pass.old) }
        ensures nothing { entries_by B.by (number_of result) (log_of B.history (seen_by result))
            ≡ [] }
    {
        self.table.shared.load::<Look>(&mut pass.seat, NEXT);
        let seat = self.table.shared.split_seat::<Another>(&mut pass.seat);
        let number = pass.made;
        pass.made += 1;
        Pass {
            seat,
            number,
            made: 0,
            place: 0,
        }
    }

    /// Takes another pass in. This pass then has the numbers of both, and has seen a book that
    /// follows what each of them had seen; so does every later book. No number was of both.
    ///
    /// Neither pass may hold, and the other may not be the first one. It takes no memory and waits
    /// for nobody.
    pub fn join(&self, pass: &mut Pass<B>, other: Pass<B>)
        requires idle { IsIdle self.now pass.old × IsIdle self.now other }
        requires first { is_first other ≡ false }
        ensures idle { IsIdle self.now pass.new }
        ensures same { (number_of pass.new ≡ number_of pass.old)
            × (made_by pass.new ≡ made_by pass.old) × (is_first pass.new ≡ is_first pass.old) }
        ensures numbers { numbers_of pass.new ≡ numbers_of pass.old ++ numbers_of other }
        ensures apart { (k : ℕ) → has k (numbers_of pass.old) ≡ true
            → has k (numbers_of other) ≡ true → ⊥ }
        ensures seen { (b : B) × (seen_by pass.new ≡ Some b)
            × Follows B.history B.origin B.by (seen_by pass.old) (numbers_of pass.old) b
            × Follows B.history B.origin B.by (seen_by other) (numbers_of other) b }
    {
        let Pass { seat, .. } = other;
        let shared = &self.table.shared;
        shared.join_seat::<Together>(&mut pass.seat, seat);
        shared.load::<Settle>(&mut pass.seat, NEXT);
    }

    /// Ends the turn, and hands the book out. The book follows what the pass has seen: each pass's
    /// entries are those that were seen, and no entry names a number that no pass had.
    ///
    /// The pass must be the first one, hold nothing, and have taken every other pass in. It takes
    /// no memory and waits for nobody.
    pub fn close(self, pass: Pass<B>) -> B
        requires idle { IsIdle self pass }
        requires first { is_first pass ≡ true }
        requires all { (k : ℕ) → k < made_by pass → has k (numbers_of pass) ≡ true }
        ensures book { Follows B.history B.origin B.by (seen_by pass) (numbers_of pass) result }
        ensures others { (k : ℕ) → made_by pass ≤ k → entries_by B.by k (B.history result) ≡ [] }
    {
        let Pass { seat, .. } = pass;
        let Turn { table } = self;
        let mut closed = table.close_with(seat);
        let Some(book) = closed.take(0) else {
            unreachable!()
        };
        closed.free();
        book
    }
}

impl<B> Pass<B> {
    /// The pass's number, which its entries name.
    pub fn number(&self) -> u64
        ensures { result ≡ number_of self.now }
    {
        self.number
    }
}
