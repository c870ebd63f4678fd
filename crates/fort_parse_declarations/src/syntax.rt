ghost use Rattle.std.specs.Prelude.{◌≡◌};

use fort_base::Bytes;
use fort_parse_types::TypeGrammar;
use std::alloc::Global;

/// What reads declarations and components. Each method reads the part of its form that begins at
/// the next token, and then answers its tree; else the tokens that are left begin at the first one
/// at which no such part goes on, and the answer is [`fort_parse_reading::Fault::Syntax`]. It is
/// [`fort_parse_reading::Fault::TooDeep`] where the budget is used up, and
/// [`fort_parse_reading::Fault::Memory`] where memory is wanting or the budget falls to the floor. The
/// chapter is "Grammar".
#[derive(Clone, Copy)]
pub struct Syntax<'a> {
    pub alloc: Global,
    /// The spellings of names, by their numbers.
    pub names: &'a [Bytes],
    /// How deep expressions and types may lie in one another, and how many parts may stand in a
    /// list: with more than there are tokens left it is never used up.
    pub depth: usize,
    /// What the budget may not fall to, so that the stack that a call takes has a bound.
    pub floor: usize,
}

impl<'a> Syntax<'a> {
    /// What reads types, with the same bounds.
    pub fn types(&self) -> TypeGrammar<'a>
        ensures names { result.names.now ≡ self.now.names.now }
        ensures depth { result.depth ≡ self.now.depth }
    {
        TypeGrammar {
            alloc: self.alloc,
            names: self.names,
            depth: self.depth,
            floor: self.floor,
        }
    }
}
