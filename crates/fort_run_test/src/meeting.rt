//! A gate at which two parts meet.
ghost use Rattle.std.specs.Prelude.{◌≡◌, ◌<◌};

use atomic_table::{Play, Table, TableRule};
use fort_base::Memory;
use fort_port::{Gate, Point};
use std::alloc::Global;
use std::hint;

/// How often a part looks for the other one at most.
const LOOKS: u32 = 200_000_000;

// The word that says that a part didn't see the other one.
const MISSED: usize = 2;

/// Nothing is asked of the words of a meeting.
pub struct Anything;

impl TableRule<u8, (), ()> for Anything {
    ghost holds = { λ _ _. Unit {0} };

    ghost first = { λ _. tt };
}

impl Play<u8, ()> for Anything {
    ghost then = { λ _ _ _ _. Unit {0} };
}

/// A gate that holds the first leg of each of the parts 1 and 2 of a form, below a number of open
/// attempts, until the other one has begun.
///
/// It has a word for each part, which is 1 once the part has begun, and one that is 1 once a part
/// gave up.
#[derive(Drop)]
pub struct Meeting {
    table: Table<u8, (), (), Anything, Global>,
    depth: u32,
    ghost counts: { table.shared.table_id.words ≡ 3 },
}

impl Meeting {
    /// A gate for the parts of a form below so many attempts.
    ///
    /// # Errors
    ///
    /// `Memory` where memory is wanting.
    pub fn new(alloc: Global, depth: u32) -> Result<Meeting, Memory> {
        match Table::of_words(alloc, &[0, 0, 0], &()) {
            Ok((table, _seat)) => Ok(Meeting { table, depth }),
            Err(_) => Err(Memory),
        }
    }

    /// Whether both parts have begun, and each saw the other one.
    pub fn have_met(&self) -> bool {
        let words = &self.table.shared;
        words.peek(0) == 1 && words.peek(1) == 1 && words.peek(MISSED) == 0
    }

    // A part has begun, and waits for the other one.
    fn waits(&self, own: usize, other: usize)
        requires own { own < 2 }
        requires other { other < 2 }
    {
        let words = &self.table.shared;
        let (_, _seat) = words.swap_new_seat::<Anything>(own, 1);
        for _look in 0..LOOKS {
            if words.peek(other) == 1 {
                return;
            }
            hint::spin_loop();
        }
        let (_, _last) = words.swap_new_seat::<Anything>(MISSED, 1);
    }
}

impl Gate for Meeting {
    fn at(&self, point: Point) {
        if point.depth == self.depth {
            match point.child {
                1 => self.waits(0, 1),
                2 => self.waits(1, 0),
                _ => {}
            }
        }
    }
}
