//! Where a tree begins.
ghost use Rattle.std.specs.Prelude.{◌≡◌, Some};
ghost use Rattle.fort_tree.specs.declared.spot.Spot.{Spot};
ghost use Rattle.fort_tree.specs.Flats.{big_first};
ghost use Rattle.fort_tree.specs.Declarations.{name_first};
ghost use Rattle.fort_tree.specs.Measures.{prefix_spot, spot_of};
ghost use Rattle.fort_tree.specs.Measuring.{measured_delimited, measured_atom, measured_run, measured_operand, measured_flat, measured_head, measured_expr, measured_variable, measured_item};

use fort_base::Place;
use fort_tree::{
    Atom, Big, Delimited, Expr, Flat, FunctionName, Head, Item, Operand, Prefix, Run, Variable,
};

/// The place of a form that ends with `end`.
pub(crate) fn place_of_delimited(form: &Delimited) -> Place
    ensures { result ≡ (measured_delimited form.now).spot.place }
{
    match form {
        Delimited::Do { do_, .. } => do_.place,
        Delimited::If { if_, .. } => if_.place,
        Delimited::While { while_, .. } => while_.place,
        Delimited::For { for_, .. } => for_.place,
        Delimited::Case { case, .. } => case.place,
        Delimited::Typecase { typecase, .. } => typecase.place,
        Delimited::Try { try_, .. } => try_.place,
    }
}

/// The place of an atom.
pub(crate) fn place_of_atom(atom: &Atom) -> Place
    ensures { result ≡ (measured_atom atom.now).spot.place }
{
    match atom {
        Atom::Name(name) => name.spot.place,
        Atom::Number(_, spot) => spot.place,
        Atom::Text(_, spot) => spot.place,
        Atom::True(spot) => spot.place,
        Atom::False(spot) => spot.place,
        Atom::Self_(spot) => spot.place,
        Atom::Parens { left, .. } => left.place,
        Atom::Delimited(form) => place_of_delimited(form.get()),
        Atom::ArrayFill { spots, .. } => spots.get().array.place,
    }
}

/// The place of a run.
pub(crate) fn place_of_run(run: &Run) -> Place
    ensures { result ≡ (measured_run run.now).spot.place }
{
    place_of_atom(&run.first)
}

/// The place of a unit, with its prefix operator.
pub(crate) fn place_of_operand(operand: &Operand) -> Place
    ensures { result ≡ (measured_operand operand.now).spot.place }
{
    match operand.prefix {
        Some(prefix) => place_of_prefix(prefix),
        None => place_of_run(&operand.run),
    }
}

fn place_of_prefix(prefix: Prefix) -> Place
    ensures { (at : Spot) → result ≡ (prefix_spot (Some prefix) at).place }
{
    match prefix {
        Prefix::Minus(spot) => spot.place,
        Prefix::Not(spot) => spot.place,
    }
}

/// The place of a flat expression.
pub(crate) fn place_of_flat(flat: &Flat) -> Place
    ensures { result ≡ (measured_flat flat.now).spot.place }
{
    place_of_operand(&flat.first)
}

fn place_of_big(big: Big) -> Place
    ensures { result ≡ (spot_of (big_first big)).place }
{
    match big {
        Big::Sum(spot) => spot.place,
        Big::Prod(spot) => spot.place,
        Big::Max(spot, _) => spot.place,
        Big::Min(spot, _) => spot.place,
        Big::And(spot, _) => spot.place,
        Big::Or(spot, _) => spot.place,
    }
}

/// The place of a head.
pub(crate) fn place_of_head(head: &Head) -> Place
    ensures { result ≡ (measured_head head.now).spot.place }
{
    match head {
        Head::Atomic(spot) => spot.place,
        Head::Tryatomic(spot) => spot.place,
        Head::Throw(spot) => spot.place,
        Head::Spawn(spot) => spot.place,
        Head::Fn { fn_, .. } => fn_.place,
        Head::Big { big, .. } => place_of_big(*big),
    }
}

/// The place of an expression.
pub(crate) fn place_of_expr(expr: &Expr) -> Place
    ensures { result ≡ (measured_expr expr.now).spot.place }
{
    match expr {
        Expr::Flat(flat) => place_of_flat(flat),
        Expr::Assign { target, .. } => place_of_flat(target.get()),
        Expr::Open { head, .. } => place_of_head(head.get()),
        Expr::OpenAssign { head, .. } => place_of_head(head.get()),
    }
}

/// The place of a declaration of a variable.
pub(crate) fn place_of_variable(variable: &Variable) -> Place
    ensures { result ≡ (measured_variable variable.now).spot.place }
{
    match variable.var {
        Some(spot) => spot.place,
        None => variable.name.spot.place,
    }
}

/// The place of an item of a block.
pub(crate) fn place_of_item(item: &Item) -> Place
    ensures { result ≡ (measured_item item.now).spot.place }
{
    match item {
        Item::Variable(variable) => place_of_variable(variable.get()),
        Item::Names { left, .. } => left.place,
        Item::Expr(expr) => place_of_expr(expr),
    }
}

/// The place of a declaration of a function or a method, by its name.
pub(crate) fn place_of_function(name: FunctionName) -> Place
    ensures { result ≡ (spot_of (name_first name)).place }
{
    match name {
        FunctionName::Name(name) => name.spot.place,
        FunctionName::Operator(opr, _) => opr.place,
        FunctionName::Juxtaposition(opr, _) => opr.place,
    }
}
