//! The parts of declarations that are read by the crate below: expressions, and variables behind
//! their names.
ghost use Rattle.std.specs.Prelude.{◌≡◌, false};
ghost use Rattle.fort_parse_reading.specs.Parser.{Reads};
ghost use Rattle.fort_parse.specs.Runs.{expr_at, variable_at};

use crate::syntax::Syntax;
use fort_parse::ExprGrammar;
use fort_parse_reading::{Cursor, Fault};
use fort_tree::{Expr, Name, Spot, Variable};

impl<'a> Syntax<'a> {
    /// What reads expressions, with the same bounds.
    fn exprs(&self) -> ExprGrammar<'a>
        ensures names { result.names.now ≡ self.now.names.now }
        ensures depth { result.depth ≡ self.now.depth }
    {
        ExprGrammar {
            alloc: self.alloc,
            names: self.names,
            depth: self.depth,
            floor: self.floor,
        }
    }

    /// An expression; a new line outside brackets ends it.
    pub fn expression(&self, tokens: &mut Cursor<'_>) -> Result<Expr, Fault>
        ensures { Reads ((expr_at self.now.names.now self.now.depth false).parser.run tokens.old)
            result tokens.new }
    {
        self.exprs().expr(tokens, false)
    }

    /// A declaration of a variable behind its name: its type, the sign and the initial.
    pub fn variable(
        &self,
        tokens: &mut Cursor<'_>,
        var: Option<Spot>,
        name: Name,
    ) -> Result<Variable, Fault>
        ensures { Reads ((variable_at self.now.names.now self.now.depth var name).run tokens.old)
            result tokens.new }
    {
        self.exprs().variable(tokens, var, name)
    }
}
