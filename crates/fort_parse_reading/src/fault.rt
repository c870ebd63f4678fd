ghost use Rattle.std.specs.Prelude.{◌≡◌};
ghost use Rattle.fort_parse_reading.specs.declared.fault.Fault.TheVariants as a_fault;

use fort_base::Memory;
use std::alloc::{AllocError, AllocFailed};

/// Why no part could be read. The tokens that are left begin at the fault.
#[derive(Clone, Copy, Debug, PartialEq, Eq)]
pub enum Fault {
    /// The next token, or the end, can't stand there.
    Syntax,
    /// The budget for nested parts is used up; it never is where it passes the number of tokens.
    TooDeep,
    /// Want of memory.
    Memory,
}

impl From<Memory> for Fault {
    ghost from_gives = { λ _ fault. fault ≡ a_fault.Memory };

    fn from(_error: Memory) -> Fault {
        Fault::Memory
    }
}

impl From<AllocError> for Fault {
    ghost from_gives = { λ _ fault. fault ≡ a_fault.Memory };

    fn from(_error: AllocError) -> Fault {
        Fault::Memory
    }
}

impl<T: Drop> From<AllocFailed<T>> for Fault {
    ghost from_gives = { λ _ fault. fault ≡ a_fault.Memory };

    fn from(_error: AllocFailed<T>) -> Fault {
        Fault::Memory
    }
}
