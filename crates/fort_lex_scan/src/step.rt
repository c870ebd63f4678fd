ghost use Rattle.std.specs.Prelude.{◌<◌, ◌^◌, length};
ghost use Rattle.fort_lex_scan.specs.Steps.{StepIs};

use crate::gap::gap_len;
use crate::word::{Read, Shape, word_of};
use fort_base::Rule;
use fort_base::rules::OPEN_COMMENT;

/// What stands next in a text.
#[derive(Clone, Copy, Debug, PartialEq, Eq)]
pub enum Step {
    /// A gap up to the end.
    End,
    /// A token: the characters of its gap, the characters of its word, and the word's shape.
    Next(usize, usize, Shape),
    /// A gap and a number of so many characters, and directly behind it a name's character.
    Stuck(usize, usize),
    /// The rule that is broken, and how many characters from the front.
    Broken(Rule, usize),
}

/// What stands at the front of a text that is behind its mark.
pub fn next_step(text: &[char]) -> Step
    requires { length text.now < 2 ^ 31 }
    ensures { StepIs text.now result }
{
    match gap_len(text) {
        Err(n) => Step::Broken(OPEN_COMMENT, n),
        Ok(n) => {
            if n == text.len() {
                return Step::End;
            }
            match word_of(&text[n..]) {
                Read::Fault(rule, k) => Step::Broken(rule, n + k),
                Read::Stuck(len) => Step::Stuck(n, len),
                Read::Whole(len, shape) => Step::Next(n, len, shape),
            }
        }
    }
}
