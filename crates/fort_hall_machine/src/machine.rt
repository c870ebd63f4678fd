//! The machine, as a hall of workers sees it.
ghost use Rattle.std.specs.Prelude.{◌≡◌, ℕ, ◌≤◌, ◌<◌, [], List, Bool, true, length, take, drop, IfOk, IfSome};
ghost use mathlib.Core.List.{IsPrefix};
ghost use Rattle.fort_hall_machine.specs.Words.{IsFound, IsMade, IsSubmitted, HasSubmitted};

use crate::parts::{Found, Made, Room, Submitted};
use fort_base::Memory;

/// The books, tasks and legs of one program.
///
/// A book has tasks, which have numbers. A worker is lent a task with its state, makes a leg of it
/// outside every lock, and submits the leg, which is appended where it fits. An attempt is a book
/// of its own, whose body is its task 0; at its end it is one leg of the task that opened it. All
/// levels have one type.
///
/// While a worker has a task, the book lends it to no other. Each lent task ends in `submit` of a
/// leg of it, `put_back` or `leave`; only a run that ends before drops some.
///
/// All facts are about the program that this type names. A machine is shared by reference, and no
/// call of it waits for anyone. Where a call answers `Memory`, the run ends.
pub trait Machine {
    type Book: Drop;
    /// What a leg of a task is made of: the task, and what its book had for it when it was lent.
    type State: Drop;
    /// It names its task.
    type Leg: Drop;
    /// What a book lets go with a leg. It is dropped outside the book's lock.
    type Waste: Drop;

    ghost Entry: { Type 0 };

    ghost Origin: { Type 0 };

    // The number of the pass that an entry names.
    ghost by: { Entry → ℕ };

    // Where the root's book begins.
    ghost start: { Origin };

    // Where a book began, which nothing changes.
    ghost origin: { Self.Book → Origin };

    // The legs that were appended, the oldest first: one entry for each.
    ghost history: { Self.Book → List Entry };

    // The bytes that it has printed.
    ghost output: { Self.Book → List ℕ };

    ghost ended: { Self.Book → Bool };

    // The entries are a run from the book's origin, of which its tasks, values and output are.
    ghost keeps: { Self.Book → Type 0 };

    // The state of a task, beside the store as the book had it.
    ghost good: { Self.State → Type 0 };

    // Where an attempt begins that is opened at this state.
    ghost form: { Self.State → Origin };

    ghost is_leg: { Self.Leg → Type 0 };

    /// The root's book, with nothing appended.
    ///
    /// # Errors
    ///
    /// `Memory` where memory is wanting.
    fn root(&self) -> Result<Self::Book, Memory>
        ensures { IfOk result (λ b. keeps b × (origin b ≡ start) × (history b ≡ [])) };

    /// Lends a task to the caller, with its state.
    ///
    /// # Errors
    ///
    /// `Memory` where memory is wanting.
    fn checkout(&self, book: &mut Self::Book, task: u64) -> Result<Found<Self::State>, Memory>
        requires { keeps book.old }
        ensures keeps { keeps book.new }
        ensures same { (origin book.new ≡ origin book.old)
            × (history book.new ≡ history book.old) }
        ensures good { IfOk result (λ f. IsFound good f) };

    /// Takes back a lent task of which no leg was made. A book that lends such a task again must
    /// see to it that this comes to an end.
    fn put_back(&self, book: &mut Self::Book, task: u64)
        requires { keeps book.old }
        ensures keeps { keeps book.new }
        ensures same { (origin book.new ≡ origin book.old)
            × (history book.new ≡ history book.old) };

    /// Takes back a lent task whose attempt came to no end in the hall. A book that lends such a
    /// task again must see to it that this comes to an end.
    fn leave(&self, book: &mut Self::Book, task: u64)
        requires { keeps book.old }
        ensures keeps { keeps book.new }
        ensures same { (origin book.new ≡ origin book.old)
            × (history book.new ≡ history book.old) };

    /// A leg of a state. It is called outside every lock. The number beside it is the one behind
    /// the last number that was used for a new location, or `room.from`.
    ///
    /// # Errors
    ///
    /// `Memory` where memory is wanting.
    fn advance(
        &self,
        state: Self::State,
        room: Room,
    ) -> Result<(Made<Self::Leg, Self::State>, u64), Memory>
        requires { good state }
        ensures { IfOk result (λ r. IsMade is_leg good r.0) };

    /// Appends a leg where it fits, as one entry that names the pass, and takes its task back. What
    /// this worker goes on with is lent in the same call. `wanted` is how many other workers look
    /// for work: a book need not divide a part into tasks where it is 0.
    ///
    /// # Errors
    ///
    /// `Memory` where memory is wanting; the history is as it was.
    fn submit(
        &self,
        book: &mut Self::Book,
        leg: Self::Leg,
        pass: u64,
        wanted: u32,
    ) -> Result<(Submitted<Self::State>, Self::Waste), Memory>
        requires { keeps book.old × is_leg leg }
        ensures keeps { keeps book.new }
        ensures origin { origin book.new ≡ origin book.old }
        ensures history { HasSubmitted by pass (history book.old) result (history book.new) }
        ensures good { IfOk result (λ r. IsSubmitted good r.0) };

    /// The number of a task that `checkout` would lend, the first one from this number on and then
    /// round. None where no task can be lent now.
    fn look(&self, book: &Self::Book, from: u64) -> Option<u64>;

    /// Whether no task can be lent any more, whatever is submitted.
    fn ended(&self, book: &Self::Book) -> bool
        ensures { result ≡ ended book.now };

    /// The number of entries of the history.
    fn length(book: &Self::Book) -> u64
        ensures { result ≡ length (history book.now) };

    /// The book of an attempt of the form at which the state stands.
    ///
    /// # Errors
    ///
    /// `Memory` where memory is wanting.
    fn begin(&self, at: &Self::State) -> Result<Self::Book, Memory>
        requires { good at.now }
        ensures { IfOk result (λ b. keeps b × (origin b ≡ form at.now)) };

    /// The one leg that an attempt is for the task that opened it. None where the attempt came to
    /// no end in the hall; the hall then leaves the task.
    ///
    /// # Errors
    ///
    /// `Memory` where memory is wanting.
    fn finish(&self, at: Self::State, book: Self::Book) -> Result<Option<Self::Leg>, Memory>
        requires { good at × keeps book × (origin book ≡ form at) × (ended book ≡ true) }
        ensures { IfOk result (λ l. IfSome l is_leg) };

    /// Copies bytes of the output from a place on into the front of `into`, and says how many:
    /// some, where there is room and the output goes on from there.
    fn output_at(&self, book: &Self::Book, from: u64, into: &mut [u8]) -> usize
        requires { from ≤ length (output book.now) }
        ensures count { result ≤ length into.old }
        ensures some { 0 < length into.old → from < length (output book.now) → 0 < result }
        ensures bytes { take result into.new ≡ take result (drop from (output book.now)) };

    // A book that goes on from another has all the output of that one first.
    ghost grows: { (a b : Self.Book) → keeps a → keeps b → origin b ≡ origin a
        → IsPrefix (history a) (history b) → IsPrefix (output a) (output b) };
}
