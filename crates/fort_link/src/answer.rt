//! What linking answers.
ghost use Rattle.std.specs.Prelude.{◌≡◌};
ghost use Rattle.fort_link.specs.declared.answer.LinkFault.TheVariants as a_fault;

use fort_base::{Memory, Place, Rule};
use fort_parse_declarations::Parsed;

/// The whole of several files, and whether the word `spawn` stands in it.
#[derive(Drop)]
pub struct Linked {
    pub parsed: Parsed,
    pub spawns: bool,
}

/// A place in one of several files, which are counted from 0.
#[derive(Clone, Copy, Debug, PartialEq, Eq)]
pub struct Spot {
    pub file: u32,
    pub place: Place,
}

/// Why linking ended: a broken rule with its file and its place there, or want of memory.
#[derive(Clone, Copy, Debug, PartialEq, Eq)]
pub enum LinkFault {
    Refused(Rule, Spot),
    Memory,
}

impl From<Memory> for LinkFault {
    ghost from_gives = { λ _ fault. fault ≡ a_fault.Memory };

    fn from(_error: Memory) -> LinkFault {
        LinkFault::Memory
    }
}
