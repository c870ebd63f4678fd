//! A square of bits that are set one after another.
ghost use Rattle.std.specs.Prelude.{◌≡◌, ◌<◌, ◌↔◌, IsTrue, IfOk, [], length, get_or};
ghost use Rattle.fort_types.specs.Table.{is_set};
ghost use Rattle.fort_types.specs.Square.{Adds, AnyBit, AllBits, IsBlank, bit, blank_row};

use fort_base::{List, Memory};
use std::alloc::Global;
use std::marker::Model;

/// A square of bits, by its rows.
#[derive(Drop)]
pub struct Square {
    rows: Vec<List<bool>>,
}

impl Model for Square {
    ghost use Rattle.std.specs.Prelude.{List as Seq, Bool};

    ghost Value = { Seq (Seq Bool) };

    ghost view = { λ it. it.rows.items };
}

impl Square {
    /// A square of unset bits.
    #[tactic(auto, using(crate::proofs::Bits::blank_square, crate::proofs::Bits::replicate_push))]
    pub fn new(alloc: Global, size: usize) -> Result<Square, Memory>
        ensures { IfOk result (IsBlank size) }
    {
        let mut rows = Vec::new(alloc);
        for i in 0..size {
            rows.push(blank(alloc, size)?)?;
        }
        Ok(Square { rows })
    }

    /// Whether a bit is set; none is past the square.
    #[tactic(auto, using(crate::proofs::Bits::bit_is_set))]
    pub fn at(&self, a: usize, b: usize) -> bool
        ensures { result ≡ bit self.now a b }
    {
        set_at(self.rows.as_slice(), a, b)
    }

    /// Sets a bit.
    pub fn set(&mut self, a: usize, b: usize)
        requires row { a < length self.old }
        requires column { b < length (get_or self.old a []) }
        ensures { Adds self.old self.new a b }
    {
        self.rows[a].set(b, true);
    }

    /// Whether some row of a list has the bit of a place set.
    pub fn any(&self, list: &[usize], b: usize) -> bool
        ensures { IsTrue result ↔ AnyBit self.now list.now b }
    {
        for a in list {
            if self.at(*a, b) {
                return true;
            }
        }
        false
    }

    /// Whether each row of a list has the bit of a place set.
    pub fn all(&self, list: &[usize], b: usize) -> bool
        ensures { IsTrue result ↔ AllBits self.now list.now b }
    {
        for a in list {
            if !self.at(*a, b) {
                return false;
            }
        }
        true
    }

    /// The rows; it takes no memory.
    pub fn into_rows(self) -> List<List<bool>>
        ensures { result ≡ self }
    {
        let Square { rows } = self;
        List::from_vec(rows)
    }
}

/// Whether a place of a row is set; none is past the rows and past their ends.
pub fn set_at(rows: &[List<bool>], a: usize, b: usize) -> bool
    ensures { result ≡ is_set rows.now a b }
{
    match rows.get(a) {
        Some(row) => match row.get(b) {
            Some(held) => *held,
            None => false,
        },
        None => false,
    }
}

/// A row of unset bits.
#[tactic(auto, using(crate::proofs::Bits::replicate_push))]
pub fn blank(alloc: Global, size: usize) -> Result<List<bool>, Memory>
    ensures { IfOk result (λ row. row ≡ blank_row size) }
{
    let mut row = List::new(alloc);
    for i in 0..size {
        row.push(false)?;
    }
    Ok(row)
}
