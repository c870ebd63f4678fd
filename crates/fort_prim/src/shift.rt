//! Shifts.
ghost use Rattle.std.specs.Prelude.{◌≡◌, ◌<◌, false, pos, MatchOption};
ghost use Rattle.std.specs.Int.{w64};
ghost use Rattle.fort_machine.specs.Numbers.{is_count, within, shifted_left as shifted_left_of, shifted_right as shifted_right_of};
ghost use Rattle.fort_prim.specs.Outcomes.{figure};

use crate::outcome::{Outcome, narrowed};

/// `a LSHIFT b` on ZZ64: times 2 to the count, which is from 0 to 63, else too large. The chapter
/// "Built-in declarations".
pub fn shifted_left(a: i64, b: i64) -> Outcome
    ensures { figure result ≡ within w64 (shifted_left_of w64 a b) }
{
    match places(b) {
        None => Outcome::TooLarge,
        Some(count) => {
            let factor = 1u64 << count;
            narrowed(i128::from(a) * i128::from(factor))
        }
    }
}

/// `a RSHIFT b` on ZZ64: divided by 2 to the count, which is from 0 to 63, and rounded down, else
/// too large. The chapter "Built-in declarations".
pub fn shifted_right(a: i64, b: i64) -> Outcome
    ensures { figure result ≡ within w64 (shifted_right_of w64 a b) }
{
    match places(b) {
        None => Outcome::TooLarge,
        Some(count) => Outcome::Number(a >> count),
    }
}

// A count of places by which a ZZ64 can be moved.
fn places(b: i64) -> Option<u32>
    ensures { MatchOption result (is_count w64 b ≡ false) (λ count. (b ≡ pos count)
        × (count < 64)) }
{
    if 0 <= b && b < 64 {
        Some(b as u32)
    } else {
        None
    }
}
