//! A book of lines, for a turn to hand round.
ghost use Rattle.std.specs.Prelude.{◌≡◌, ◌++◌, [], ◌∷◌, List, ℕ, if◌then◌else◌};
ghost use Rattle.fort_hall_test.specs.Lines.{line};

use fort_turn::Grows;
use std::alloc::Global;

/// What a pass wrote.
#[derive(Drop, Clone, Copy)]
pub struct Line {
    pub pass: u64,
    pub value: u64,
}

/// Lines, the oldest first. The year never changes.
#[derive(Drop)]
pub struct Book {
    pub lines: Vec<Line>,
    pub year: u64,
}

impl Grows for Book {
    ghost use Rattle.fort_hall_test.specs.declared.book.Line.{Line};

    ghost Entry = { Line };

    ghost Origin = { ℕ };

    ghost history = { λ b. b.lines.items };

    ghost origin = { λ b. b.year };

    ghost by = { λ l. l.pass };

    fn length(&self) -> u64 {
        self.lines.len() as u64
    }
}

impl Book {
    /// A book of no lines.
    pub fn new(alloc: Global, year: u64) -> Book
        ensures { (result.lines.items ≡ []) × (result.year ≡ year) }
    {
        Book {
            lines: Vec::new(alloc),
            year,
        }
    }

    /// Adds a line, and says whether memory sufficed.
    pub fn add(&mut self, pass: u64, value: u64) -> bool
        ensures year { self.new.year ≡ self.old.year }
        ensures lines { self.new.lines.items
            ≡ self.old.lines.items ++ (if result then line pass value ∷ [] else []) }
    {
        self.lines.push(Line { pass, value }).is_ok()
    }
}
