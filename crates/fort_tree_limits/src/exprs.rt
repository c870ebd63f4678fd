//! What there is too much of in expressions.
ghost use Rattle.std.specs.Prelude.{◌≡◌, ◌++◌, map, option_map, length};
ghost use Rattle.fort_tree.specs.Measured.{all_crowded, listed_parts, maybe_measured, most_tuple_parts, over};
ghost use Rattle.fort_tree.specs.Measuring.{measured_expr, measured_head, measured_generator, measured_flat, measured_flat_part, measured_operand, measured_run, measured_run_part, measured_postfix, measured_atom, measured_expr_list, measured_next_expr};
ghost use Rattle.fort_tree_limits.specs.Earliest.{earliest};

use crate::places::{place_of_atom, place_of_operand};
use crate::types::{MOST_PARAMETERS, MOST_TUPLE_PARTS, parameter_count};
use crate::walk::Walk;
use fort_base::{Boxed, List};
use fort_tree::{
    Atom, Expr, ExprList, Flat, FlatPart, Generator, Head, NextExpr, Operand, Postfix, Run,
    RunPart, Spot,
};

/// How many units a flat expression may have.
const MOST_UNITS: usize = 64;

/// How many atoms and postfixes a run may have.
const MOST_ELEMENTS: usize = 64;

impl Walk {
    /// Walks over an expression.
    #[cycle(tree)]
    pub(crate) fn expr(&mut self, expr: &Expr)
        ensures { self.new.earliest ≡ earliest self.old.earliest (measured_expr expr.now).crowded }
    {
        match expr {
            Expr::Flat(flat) => self.flat(flat),
            Expr::Assign {
                target,
                head,
                value,
                ..
            } => {
                self.flat(target.get());
                self.maybe_head(head);
                self.flat(value.get());
            }
            Expr::Open { head, body } => {
                self.head(head.get());
                self.flat(body.get());
            }
            Expr::OpenAssign {
                head,
                target,
                value,
                ..
            } => {
                self.head(head.get());
                self.flat(target.get());
                self.flat(value.get());
            }
        }
    }

    #[cycle(tree)]
    fn maybe_head(&mut self, head: &Option<Boxed<Head>>)
        ensures { self.new.earliest
            ≡ earliest self.old.earliest
            (all_crowded (maybe_measured (option_map measured_head head.now))) }
    {
        match head {
            Some(head) => {
                self.head(head.get());
            }
            None => {}
        }
    }

    #[cycle(tree)]
    fn head(&mut self, head: &Head)
        ensures { self.new.earliest ≡ earliest self.old.earliest (measured_head head.now).crowded }
    {
        match head {
            Head::Atomic(_) => {}
            Head::Tryatomic(_) => {}
            Head::Throw(_) => {}
            Head::Spawn(_) => {}
            Head::Fn {
                fn_,
                parameters,
                ..
            } => {
                self.count(MOST_PARAMETERS, parameter_count(parameters), fn_.place);
                self.parameters(parameters);
            }
            Head::Big { generator, .. } => self.generator(generator),
        }
    }

    /// Walks over a generator.
    #[cycle(tree)]
    pub(crate) fn generator(&mut self, generator: &Generator)
        ensures { self.new.earliest
            ≡ earliest self.old.earliest (measured_generator generator.now).crowded }
    {
        match generator {
            Generator::Parallel { source, .. } => self.flat(source),
            Generator::Sequential { source, .. } => self.flat(source),
        }
    }

    /// Walks over a flat expression.
    #[cycle(tree)]
    pub(crate) fn flat(&mut self, flat: &Flat)
        ensures { self.new.earliest ≡ earliest self.old.earliest (measured_flat flat.now).crowded }
    {
        let place = place_of_operand(&flat.first);
        self.count(MOST_UNITS, 1 + flat.rest.as_slice().len(), place);
        self.operand(&flat.first);
        self.flat_parts(&flat.rest);
    }

    #[cycle(tree)]
    fn flat_parts(&mut self, parts: &List<FlatPart>)
        ensures { self.new.earliest
            ≡ earliest self.old.earliest
            (all_crowded (map (λ part. (measured_flat_part part).unit) parts.now)) }
    {
        for part in parts.as_slice() {
            self.flat_part(part);
        }
    }

    #[cycle(tree)]
    fn flat_part(&mut self, part: &FlatPart)
        ensures { self.new.earliest
            ≡ earliest self.old.earliest (measured_flat_part part.now).unit.crowded }
    {
        match part {
            FlatPart::Run(run) => self.run(run),
            FlatPart::Infix(_, operand) => self.operand(operand),
        }
    }

    #[cycle(tree)]
    fn operand(&mut self, operand: &Operand)
        ensures { self.new.earliest
            ≡ earliest self.old.earliest (measured_operand operand.now).crowded }
    {
        self.run(&operand.run);
    }

    #[cycle(tree)]
    fn run(&mut self, run: &Run)
        ensures { self.new.earliest ≡ earliest self.old.earliest (measured_run run.now).crowded }
    {
        let place = place_of_atom(&run.first);
        self.count(MOST_ELEMENTS, 1 + run.rest.as_slice().len(), place);
        self.atom(&run.first);
        self.run_parts(&run.rest);
    }

    #[cycle(tree)]
    fn run_parts(&mut self, parts: &List<RunPart>)
        ensures { self.new.earliest
            ≡ earliest self.old.earliest (all_crowded (map measured_run_part parts.now)) }
    {
        for part in parts.as_slice() {
            self.run_part(part);
        }
    }

    #[cycle(tree)]
    fn run_part(&mut self, part: &RunPart)
        ensures { self.new.earliest
            ≡ earliest self.old.earliest (measured_run_part part.now).crowded }
    {
        match part {
            RunPart::Atom(atom) => self.atom(atom),
            RunPart::Postfix(postfix) => self.postfix(postfix),
        }
    }

    #[cycle(tree)]
    fn postfix(&mut self, postfix: &Postfix)
        ensures { self.new.earliest
            ≡ earliest self.old.earliest (measured_postfix postfix.now).crowded }
    {
        match postfix {
            Postfix::Subscript { index, .. } => self.expr(index.get()),
            Postfix::Power { exponent, .. } => self.atom(exponent),
            Postfix::Field { .. } => {}
            Postfix::Call { arguments, .. } => self.expr_list(arguments),
        }
    }

    #[cycle(tree)]
    fn atom(&mut self, atom: &Atom)
        ensures { self.new.earliest ≡ earliest self.old.earliest (measured_atom atom.now).crowded }
    {
        match atom {
            Atom::Name(_) => {}
            Atom::Number(..) => {}
            Atom::Text(..) => {}
            Atom::True(_) => {}
            Atom::False(_) => {}
            Atom::Self_(_) => {}
            Atom::Parens { left, contents, .. } => self.parens(*left, contents),
            Atom::Delimited(form) => self.delimited(form.get()),
            Atom::ArrayFill {
                element,
                size,
                value,
                ..
            } => {
                self.type_tree(element.get());
                self.expr(size.get());
                self.expr(value.get());
            }
        }
    }

    #[cycle(tree)]
    fn parens(&mut self, left: Spot, contents: &Option<ExprList>)
        ensures { self.new.earliest
            ≡ earliest self.old.earliest
            (over most_tuple_parts
            (length (listed_parts (option_map measured_expr_list contents.now))) left.place
            ++ all_crowded (listed_parts (option_map measured_expr_list contents.now))) }
    {
        self.count(MOST_TUPLE_PARTS, expr_count(contents), left.place);
        self.expr_list(contents);
    }

    #[cycle(tree)]
    fn expr_list(&mut self, list: &Option<ExprList>)
        ensures { self.new.earliest
            ≡ earliest self.old.earliest
            (all_crowded (listed_parts (option_map measured_expr_list list.now))) }
    {
        match list {
            Some(list) => {
                self.expr(list.first.get());
                self.next_exprs(&list.others);
            }
            None => {}
        }
    }

    #[cycle(tree)]
    fn next_exprs(&mut self, exprs: &List<NextExpr>)
        ensures { self.new.earliest
            ≡ earliest self.old.earliest (all_crowded (map measured_next_expr exprs.now)) }
    {
        for next in exprs.as_slice() {
            self.expr(&next.expr);
        }
    }
}

/// How many expressions a list has that may be left out.
fn expr_count(list: &Option<ExprList>) -> usize
    ensures { result ≡ length (listed_parts (option_map measured_expr_list list.now)) }
{
    match list {
        Some(list) => 1 + list.others.as_slice().len(),
        None => 0,
    }
}
