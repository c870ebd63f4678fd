//! What was done at one location.
ghost use Rattle.std.specs.Prelude.{◌≡◌, IfOk, is_some, Option};
ghost use Rattle.fort_machine.specs.Cells.{joined as cells_joined, left_at};
ghost use Rattle.fort_core.specs.declared.value.Value.{Value as a_value};
ghost use Rattle.fort_store_effects.specs.Cells.{cell, cell_closed, IsLeft};

use fort_base::Memory;
use fort_core::Value;

/// What was done at one location; where nothing was there is no cell.
#[derive(Drop)]
pub enum Cell {
    /// The location was there: the value that was read while no write of its own stood, and the
    /// value last written.
    Found(Option<Value>, Option<Value>),
    /// The location is new: its value, or none where an abort took it away.
    Made(Option<Value>),
}

/// How an attempt ends.
#[derive(Clone, Copy, Debug, PartialEq, Eq)]
pub enum Closing {
    /// At a value: all that it did stands.
    Completed,
    /// At a throw: what it wrote to older locations is void, and what it printed.
    Failed,
    /// By a step of `abort()`: what it made is gone too.
    Aborted,
}

/// What a cell says of the value at its location.
#[derive(Drop)]
pub enum Left<'a> {
    /// It is this one.
    Here(&'a Value),
    /// There is none.
    Gone,
    /// It is as it was below.
    Below,
}

// A value with one owner more, where there is one.
fn share_some(value: &Option<Value>) -> Result<Option<Value>, Memory>
    ensures { IfOk result (λ copy. copy ≡ value.now) }
{
    match value {
        None => Ok(None),
        Some(value) => Ok(Some(value.share()?)),
    }
}

// The later of two writes.
fn later(first: &Option<Value>, second: Option<Value>) -> Result<Option<Value>, Memory>
    ensures { IfOk result (λ value. value
        ≡ Rattle.fort_machine.specs.Cells.later first.now second) }
{
    match second {
        None => share_some(first),
        Some(value) => Ok(Some(value)),
    }
}

// The first of two reads, the second of which counts only while no write stands.
fn first_read(
    first: &Option<Value>,
    now: &Option<Value>,
    next: Option<Value>,
) -> Result<Option<Value>, Memory>
    ensures { IfOk result (λ value. value
        ≡ Rattle.fort_machine.specs.Cells.first_read first.now now.now next) }
{
    match first {
        Some(value) => Ok(Some(value.share()?)),
        None => match now {
            Some(_) => Ok(None),
            None => Ok(next),
        },
    }
}

// The first of two reads, the second of which counts only while no write stands.
fn first_of(first: Option<Value>, is_written: bool, next: Option<Value>) -> Option<Value>
    ensures { (now : Option a_value) → is_written ≡ is_some now
        → result ≡ Rattle.fort_machine.specs.Cells.first_read first now next }
{
    match first {
        Some(value) => Some(value),
        None => { if is_written { None } else { next } }
    }
}

// The later of two writes.
fn last_of(first: Option<Value>, second: Option<Value>) -> Option<Value>
    ensures { result ≡ Rattle.fort_machine.specs.Cells.later first second }
{
    match second {
        None => first,
        Some(value) => Some(value),
    }
}

impl Cell {
    /// The same again; `Memory` as `Value::share` answers it.
    pub fn copy(&self) -> Result<Cell, Memory>
        ensures { IfOk result (λ copy. copy ≡ self.now) }
    {
        match self {
            Cell::Found(read, now) => Ok(Cell::Found(share_some(read)?, share_some(now)?)),
            Cell::Made(now) => Ok(Cell::Made(share_some(now)?)),
        }
    }

    /// What was done at a location, and then a later thing; `Memory` as `Value::share` answers it.
    pub fn joined(&self, more: Cell) -> Result<Cell, Memory>
        ensures { IfOk result (λ both. cell both ≡ cells_joined (cell self.now) (cell more)) }
    {
        match (self, more) {
            (Cell::Found(read, now), Cell::Found(next, then)) => Ok(Cell::Found(
                first_read(read, now, next)?,
                later(now, then)?,
            )),
            (Cell::Made(now), Cell::Found(_, then)) => Ok(Cell::Made(later(now, then)?)),
            (_, Cell::Made(now)) => Ok(Cell::Made(now)),
        }
    }

    /// The same as `joined`, of a cell that is given up.
    pub fn then(self, more: Cell) -> Cell
        ensures { cell result ≡ cells_joined (cell self) (cell more) }
    {
        match (self, more) {
            (Cell::Found(read, now), Cell::Found(next, then)) => {
                let read = first_of(read, now.is_some(), next);
                Cell::Found(read, last_of(now, then))
            }
            (Cell::Made(now), Cell::Found(_, then)) => Cell::Made(last_of(now, then)),
            (_, Cell::Made(now)) => Cell::Made(now),
        }
    }

    /// What stands of it after an attempt that ended so.
    pub fn closed(self, closing: Closing) -> Cell
        ensures { cell result ≡ cell_closed closing (cell self) }
    {
        match (closing, self) {
            (Closing::Completed, whole) => whole,
            (_, Cell::Found(read, _)) => Cell::Found(read, None),
            (Closing::Failed, Cell::Made(now)) => Cell::Made(now),
            (Closing::Aborted, Cell::Made(_)) => Cell::Made(None),
        }
    }

    /// What it says of the value at its location.
    pub fn left(&self) -> Left<'_>
        ensures { IsLeft (cell self.now) result }
    {
        match self {
            Cell::Found(_, Some(value)) => Left::Here(value),
            Cell::Found(_, None) => Left::Below,
            Cell::Made(Some(value)) => Left::Here(value),
            Cell::Made(None) => Left::Gone,
        }
    }
}
