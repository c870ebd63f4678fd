ghost use Rattle.std.specs.Prelude.{◌≡◌};

use fort_base::Bytes;
use fort_parse_types::TypeGrammar;
use std::alloc::Global;

/// The productions of expressions and blocks, over a function that reads the runs inside. Each
/// method reads the part of its form that begins at the next token, and then answers its tree; else
/// the tokens that are left begin at the first one at which no such part goes on. The chapter is
/// "Grammar".
#[derive(Clone, Copy)]
pub struct Grammar<'a, F> {
    pub alloc: Global,
    /// The spellings of names, by their numbers.
    pub names: &'a [Bytes],
    /// How deep the parts that are read may lie in one another, and how many may stand in a list:
    /// with more than there are tokens left it is never used up.
    pub depth: usize,
    /// What `depth` may not fall to, so that the stack that a call takes has a bound.
    pub floor: usize,
    /// What reads the runs inside.
    pub inner: F,
}

impl<'a, F> Grammar<'a, F> {
    /// What reads types, with the same bounds.
    pub fn types(&self) -> TypeGrammar<'a>
        ensures names { result.names.now ≡ self.now.names.now }
        ensures depth { result.depth ≡ self.now.depth }
    {
        TypeGrammar {
            alloc: self.alloc,
            names: self.names,
            depth: self.depth,
            floor: self.floor,
        }
    }
}
