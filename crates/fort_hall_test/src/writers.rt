//! Two threads that write into one book, a line in each turn.
ghost use Rattle.std.specs.Prelude.{◌≡◌, ℕ, ◌+◌, ◌++◌, [], ◌∷◌, length, IfSome, if◌then◌else◌};
ghost use Rattle.fort_turn.specs.Book.{entries_by};
ghost use Rattle.fort_turn.specs.Passes.{IsIdle, IsSame, number_of};
ghost use Rattle.fort_hall_test.specs.Lines.{line, lines};
ghost use Rattle.fort_hall_test.specs.Wrote.{lines_of, HasWritten};

use crate::book::Book;
use fort_turn::{Pass, Turn};
use std::alloc::Global;
use std::sync::Wait;
use std::thread::{Threads, join};

// Writes a line, and says whether memory sufficed.
fn write<R: Wait>(rt: &R, turn: &Turn<Book>, pass: &mut Pass<Book>, value: u64) -> bool
    requires { IsIdle turn.now pass.old }
    ensures idle { IsIdle turn.now pass.new × IsSame pass.old pass.new }
    ensures made { lines_of pass.new
        ≡ lines_of pass.old ++ (if result then line (number_of pass.old) value ∷ [] else []) }
{
    let mut book = turn.take(rt, pass);
    let done = book.add(pass.number(), value);
    turn.give(pass, book);
    done
}

// Writes the lines 0, 1 and so on, each in a turn of its own, where memory suffices.
fn write_all<R: Wait>(
    rt: &R,
    turn: &Turn<Book>,
    mut pass: Pass<Book>,
    count: u64,
) -> Option<Pass<Book>>
    requires { IsIdle turn.now pass × (lines_of pass ≡ []) }
    ensures idle { IfSome result (λ p. IsIdle turn.now p × IsSame pass p) }
    ensures made { IfSome result (λ p. lines_of p ≡ lines (number_of pass) count) }
{
    for i in 0..count {
        if !write(rt, turn, &mut pass, i) {
            return None;
        }
    }
    Some(pass)
}

/// Two threads write `count` lines each, in whatever order their turns come. The book has of each
/// pass its lines, each once and in its order, and no others. `None` is want of memory.
pub fn two_writers<R: Threads + Wait + Sync>(rt: &R, alloc: Global, count: u64) -> Option<Book>
    ensures year { IfSome result (λ book. book.year ≡ 7) }
    ensures one { IfSome result (λ book. entries_by (λ l. l.pass) 1 book.lines.items
        ≡ lines 1 count) }
    ensures other { IfSome result (λ book. entries_by (λ l. l.pass) 2 book.lines.items
        ≡ lines 2 count) }
    ensures all { IfSome result (λ book. length book.lines.items ≡ count + count) }
{
    let Ok((turn, mut first)) = fort_turn::new(alloc, Book::new(alloc, 7)) else {
        return None;
    };
    let one = turn.split(&mut first);
    let other = turn.split(&mut first);
    let shared = &turn;
    let (one, other) = join(
        rt,
        move || -> Option<Pass<Book>>
            requires { IsIdle shared.now one × HasWritten one 1 [] }
            ensures { IfSome result (λ p. IsIdle shared.entry.now p
                × HasWritten p 1 (lines 1 count)) }
        { write_all(rt, shared, one, count) },
        move || -> Option<Pass<Book>>
            requires { IsIdle shared.now other × HasWritten other 2 [] }
            ensures { IfSome result (λ p. IsIdle shared.entry.now p
                × HasWritten p 2 (lines 2 count)) }
        { write_all(rt, shared, other, count) },
    );
    let one = one?;
    let other = other?;
    turn.join(&mut first, one);
    turn.join(&mut first, other);
    Some(turn.close(first))
}
