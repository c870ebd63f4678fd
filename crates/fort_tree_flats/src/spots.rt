ghost use Rattle.std.specs.Prelude.{◌≡◌, Some};
ghost use Rattle.fort_tree.specs.declared.spot.Spot.{Spot};
ghost use Rattle.fort_tree.specs.Measures.{prefix_spot};
ghost use Rattle.fort_tree.specs.Measuring.{measured_operand, measured_run, measured_atom, measured_delimited};

use fort_tree::{Atom, Delimited, Operand, Prefix, Run, Spot};

/// Where the first token of a unit stands.
pub fn unit_spot(unit: &Operand) -> Spot
    ensures { result ≡ (measured_operand unit.now).spot }
{
    match unit.prefix {
        None => run_spot(&unit.run),
        Some(prefix) => prefix_spot(prefix),
    }
}

/// Where a prefix operator stands.
fn prefix_spot(prefix: Prefix) -> Spot
    ensures { (at : Spot) → prefix_spot (Some prefix) at ≡ result }
{
    match prefix {
        Prefix::Minus(spot) => spot,
        Prefix::Not(spot) => spot,
    }
}

/// Where the first token of a run stands.
fn run_spot(run: &Run) -> Spot
    ensures { result ≡ (measured_run run.now).spot }
{
    atom_spot(&run.first)
}

/// Where the first token of an atom stands.
fn atom_spot(atom: &Atom) -> Spot
    ensures { result ≡ (measured_atom atom.now).spot }
{
    match atom {
        Atom::Name(name) => name.spot,
        Atom::Number(_, spot) => *spot,
        Atom::Text(_, spot) => *spot,
        Atom::True(spot) => *spot,
        Atom::False(spot) => *spot,
        Atom::Self_(spot) => *spot,
        Atom::Parens { left, .. } => *left,
        Atom::Delimited(form) => form_spot(form.get()),
        Atom::ArrayFill { spots, .. } => spots.get().array,
    }
}

/// Where the first word of a form that ends with `end` stands.
fn form_spot(form: &Delimited) -> Spot
    ensures { result ≡ (measured_delimited form.now).spot }
{
    match form {
        Delimited::Do { do_, .. } => *do_,
        Delimited::If { if_, .. } => *if_,
        Delimited::While { while_, .. } => *while_,
        Delimited::For { for_, .. } => *for_,
        Delimited::Case { case, .. } => *case,
        Delimited::Typecase { typecase, .. } => *typecase,
        Delimited::Try { try_, .. } => *try_,
    }
}
