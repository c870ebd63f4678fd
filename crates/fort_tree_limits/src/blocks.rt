//! What there is too much of in blocks and in the forms that end with `end`.
ghost use Rattle.std.specs.Prelude.{◌≡◌, ◌++◌, map, option_map, length};
ghost use Rattle.fort_tree.specs.Measured.{all_crowded, block_measured, listed_parts, maybe_measured};
ghost use Rattle.fort_tree.specs.Measuring.{measured_delimited, measured_item, measured_variable, measured_also, measured_block_item, measured_case_clause, measured_catch, measured_elif, measured_else_block, measured_else_clause, measured_finally, measured_next_generator, measured_type_clause};
ghost use Rattle.fort_tree_limits.specs.Earliest.{earliest};

use crate::places::place_of_item;
use crate::walk::Walk;
use fort_base::{Boxed, List};
use fort_tree::{
    Also, Block, CaseClause, Catch, Delimited, Elif, ElseBlock, ElseClause, Finally, Item,
    NextGenerator, TypeClause, Variable,
};

/// How many generators a `for` may have.
const MOST_GENERATORS: usize = 8;

/// How many blocks a `do` may have, those behind `also` included.
const MOST_ALSO_BLOCKS: usize = 64;

/// How many clauses a form may have, its `else` aside.
const MOST_CLAUSES: usize = 256;

/// How many items a block may have.
const MOST_ITEMS: usize = 4096;

impl Walk {
    #[cycle(tree)]
    pub(crate) fn delimited(&mut self, form: &Delimited)
        ensures { self.new.earliest
            ≡ earliest self.old.earliest (measured_delimited form.now).crowded }
    {
        match form {
            Delimited::Do {
                do_,
                block,
                others,
                ..
            } => {
                self.count(MOST_ALSO_BLOCKS, 1 + others.as_slice().len(), do_.place);
                self.block(block);
                self.alsos(others);
            }
            Delimited::If {
                condition,
                block,
                elifs,
                otherwise,
                ..
            } => {
                self.flat(condition);
                self.block(block);
                self.elifs(elifs);
                self.else_block(otherwise);
            }
            Delimited::While {
                condition,
                block,
                ..
            } => {
                self.flat(condition);
                self.block(block);
            }
            Delimited::For {
                for_,
                generator,
                others,
                block,
                ..
            } => {
                self.count(MOST_GENERATORS, 1 + others.as_slice().len(), for_.place);
                self.generator(generator.get());
                self.next_generators(others);
                self.block(block);
            }
            Delimited::Case {
                case,
                subject,
                clauses,
                otherwise,
                ..
            } => {
                self.count(MOST_CLAUSES, clauses.len(), case.place);
                self.flat(subject);
                self.case_clauses(clauses);
                self.else_clause(otherwise);
            }
            Delimited::Typecase {
                typecase,
                subject,
                clauses,
                otherwise,
                ..
            } => {
                self.count(MOST_CLAUSES, clauses.len(), typecase.place);
                self.flat(subject);
                self.type_clauses(clauses);
                self.else_clause(otherwise);
            }
            Delimited::Try {
                try_,
                block,
                catch,
                finally,
                ..
            } => {
                self.count(MOST_CLAUSES, clause_count(catch), try_.place);
                self.block(block);
                self.catch(catch);
                self.finally(finally);
            }
        }
    }

    #[cycle(tree)]
    fn block(&mut self, block: &Block)
        ensures { self.new.earliest
            ≡ earliest self.old.earliest
            (all_crowded (block_measured (map measured_block_item block.now))) }
    {
        match block.get(0) {
            Some(first) => {
                let place = place_of_item(&first.item);
                self.count(MOST_ITEMS, block.len(), place);
                self.items(block);
            }
            None => {}
        }
    }

    #[cycle(tree)]
    fn items(&mut self, block: &Block)
        ensures { self.new.earliest
            ≡ earliest self.old.earliest (all_crowded (map measured_block_item block.now)) }
    {
        for entry in block.as_slice() {
            self.item(&entry.item);
        }
    }

    #[cycle(tree)]
    fn item(&mut self, item: &Item)
        ensures { self.new.earliest ≡ earliest self.old.earliest (measured_item item.now).crowded }
    {
        match item {
            Item::Variable(variable) => self.variable(variable.get()),
            Item::Names { ty, value, .. } => {
                self.type_tree(ty.get());
                self.expr(value.get());
            }
            Item::Expr(expr) => self.expr(expr),
        }
    }

    /// Walks over a declaration of a variable.
    #[cycle(tree)]
    pub(crate) fn variable(&mut self, variable: &Variable)
        ensures { self.new.earliest
            ≡ earliest self.old.earliest (measured_variable variable.now).crowded }
    {
        self.type_tree(&variable.ty);
        self.expr(&variable.value);
    }

    #[cycle(tree)]
    fn alsos(&mut self, others: &List<Also>)
        ensures { self.new.earliest
            ≡ earliest self.old.earliest (all_crowded (map measured_also others.now)) }
    {
        for also in others.as_slice() {
            self.block(&also.block);
        }
    }

    #[cycle(tree)]
    fn elifs(&mut self, elifs: &List<Elif>)
        ensures { self.new.earliest
            ≡ earliest self.old.earliest (all_crowded (map measured_elif elifs.now)) }
    {
        for elif in elifs.as_slice() {
            self.elif(elif);
        }
    }

    #[cycle(tree)]
    fn elif(&mut self, elif: &Elif)
        ensures { self.new.earliest ≡ earliest self.old.earliest (measured_elif elif.now).crowded }
    {
        self.flat(&elif.condition);
        self.block(&elif.block);
    }

    #[cycle(tree)]
    fn else_block(&mut self, otherwise: &Option<ElseBlock>)
        ensures { self.new.earliest
            ≡ earliest self.old.earliest
            (all_crowded (maybe_measured (option_map measured_else_block otherwise.now))) }
    {
        match otherwise {
            Some(otherwise) => {
                self.block(&otherwise.block);
            }
            None => {}
        }
    }

    #[cycle(tree)]
    fn next_generators(&mut self, others: &List<NextGenerator>)
        ensures { self.new.earliest
            ≡ earliest self.old.earliest (all_crowded (map measured_next_generator others.now)) }
    {
        for next in others.as_slice() {
            self.generator(&next.generator);
        }
    }

    #[cycle(tree)]
    fn case_clauses(&mut self, clauses: &List<CaseClause>)
        ensures { self.new.earliest
            ≡ earliest self.old.earliest (all_crowded (map measured_case_clause clauses.now)) }
    {
        for clause in clauses.as_slice() {
            self.case_clause(clause);
        }
    }

    #[cycle(tree)]
    fn case_clause(&mut self, clause: &CaseClause)
        ensures { self.new.earliest
            ≡ earliest self.old.earliest (measured_case_clause clause.now).crowded }
    {
        self.flat(&clause.subject);
        self.expr(&clause.value);
    }

    #[cycle(tree)]
    fn type_clauses(&mut self, clauses: &List<TypeClause>)
        ensures { self.new.earliest
            ≡ earliest self.old.earliest (all_crowded (map measured_type_clause clauses.now)) }
    {
        for clause in clauses.as_slice() {
            self.type_clause(clause);
        }
    }

    #[cycle(tree)]
    fn type_clause(&mut self, clause: &TypeClause)
        ensures { self.new.earliest
            ≡ earliest self.old.earliest (measured_type_clause clause.now).crowded }
    {
        self.type_tree(&clause.ty);
        self.expr(&clause.value);
    }

    #[cycle(tree)]
    fn else_clause(&mut self, otherwise: &Option<Boxed<ElseClause>>)
        ensures { self.new.earliest
            ≡ earliest self.old.earliest
            (all_crowded (maybe_measured (option_map measured_else_clause otherwise.now))) }
    {
        match otherwise {
            Some(otherwise) => {
                self.expr(&otherwise.get().value);
            }
            None => {}
        }
    }

    #[cycle(tree)]
    fn catch(&mut self, catch: &Option<Catch>)
        ensures { self.new.earliest
            ≡ earliest self.old.earliest
            (all_crowded (listed_parts (option_map measured_catch catch.now))) }
    {
        match catch {
            Some(catch) => {
                self.type_clauses(&catch.clauses);
            }
            None => {}
        }
    }

    #[cycle(tree)]
    fn finally(&mut self, finally: &Option<Finally>)
        ensures { self.new.earliest
            ≡ earliest self.old.earliest
            (all_crowded (maybe_measured (option_map measured_finally finally.now))) }
    {
        match finally {
            Some(finally) => {
                self.block(&finally.block);
            }
            None => {}
        }
    }
}

/// How many clauses a `catch` has that may be left out.
fn clause_count(catch: &Option<Catch>) -> usize
    ensures { result ≡ length (listed_parts (option_map measured_catch catch.now)) }
{
    match catch {
        Some(catch) => catch.clauses.len(),
        None => 0,
    }
}
