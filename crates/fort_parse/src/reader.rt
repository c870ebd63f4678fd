//! What the crates above read: expressions, and variables behind their names.
ghost use Rattle.std.specs.Prelude.{◌≡◌};
ghost use Rattle.fort_parse_reading.specs.Parser.{Reads};
ghost use Rattle.fort_parse.specs.Runs.{expr_at, variable_at};

use crate::grammar::Grammar;
use crate::runs::run;
use fort_base::Bytes;
use fort_parse_reading::{Cursor, Fault};
use fort_tree::{Expr, Name, Spot, Variable};
use std::alloc::Global;

/// What reads expressions and variables. Each method reads the part of its form that begins at the
/// next token, and then answers its tree; else the tokens that are left begin at the first one at
/// which no such part goes on, and the answer is [`Fault::Syntax`]. It is [`Fault::TooDeep`] where
/// the budget is used up, and [`Fault::Memory`] where memory is wanting or the budget falls to the
/// floor. The chapter is "Grammar".
#[derive(Clone, Copy)]
pub struct ExprGrammar<'a> {
    pub alloc: Global,
    /// The spellings of names, by their numbers.
    pub names: &'a [Bytes],
    /// How deep the parts that are read may lie in one another, and how many may stand in a list:
    /// with more than there are tokens left it is never used up.
    pub depth: usize,
    /// What `depth` may not fall to, so that the stack that a call takes has a bound.
    pub floor: usize,
}

impl ExprGrammar<'_> {
    /// An expression; `lines` says whether new lines may stand between its units, as they may in
    /// brackets.
    #[tactic(auto, unfolding(crate::specs::Runs::expr_at))]
    pub fn expr(&self, tokens: &mut Cursor<'_>, lines: bool) -> Result<Expr, Fault>
        ensures { Reads ((expr_at self.now.names.now self.now.depth lines).parser.run tokens.old)
            result tokens.new }
    {
        Grammar {
            alloc: self.alloc,
            names: self.names,
            depth: self.depth,
            floor: self.floor,
            inner: run,
        }
        .expr(tokens, lines)
    }

    /// A declaration of a variable behind its name: its type, the sign and the initial.
    #[tactic(auto, unfolding(crate::specs::Runs::variable_at))]
    pub fn variable(
        &self,
        tokens: &mut Cursor<'_>,
        var: Option<Spot>,
        name: Name,
    ) -> Result<Variable, Fault>
        ensures { Reads ((variable_at self.now.names.now self.now.depth var name).run tokens.old)
            result tokens.new }
    {
        Grammar {
            alloc: self.alloc,
            names: self.names,
            depth: self.depth,
            floor: self.floor,
            inner: run,
        }
        .variable_from(tokens, var, name)
    }
}
