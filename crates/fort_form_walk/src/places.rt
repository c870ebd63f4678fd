//! Where units begin.
ghost use Rattle.std.specs.Prelude.{◌≡◌};
ghost use Rattle.fort_form_meaning.specs.Source.{Source};
ghost use Rattle.fort_form_meaning.specs.Formed.{formed_atom, formed_delimited, formed_operand, formed_run};
ghost use Rattle.fort_form_meaning.specs.Places.{place_of};

use fort_base::Place;
use fort_tree::{Atom, Delimited, Operand, Prefix, Run};

/// Where a unit begins.
#[tactic(auto, using(crate::proofs::Begins::unit_places))]
pub fn unit_place(operand: &Operand) -> Place
    ensures { (k : Source) → result ≡ place_of (formed_operand k operand.now) }
{
    match operand.prefix {
        None => run_place(&operand.run),
        Some(Prefix::Minus(spot)) => spot.place,
        Some(Prefix::Not(spot)) => spot.place,
    }
}

/// Where a run begins.
#[tactic(auto, using(crate::proofs::Begins::run_begins))]
fn run_place(run: &Run) -> Place
    ensures { (k : Source) → result ≡ place_of (formed_run k run.now) }
{
    atom_place(&run.first)
}

/// Where an atom begins.
#[tactic(auto, using(crate::proofs::Begins::atom_places))]
fn atom_place(atom: &Atom) -> Place
    ensures { (k : Source) → result ≡ place_of (formed_atom k atom.now) }
{
    match atom {
        Atom::Name(name) => name.spot.place,
        Atom::Number(_, spot) => spot.place,
        Atom::Text(_, spot) => spot.place,
        Atom::True(spot) => spot.place,
        Atom::False(spot) => spot.place,
        Atom::Self_(spot) => spot.place,
        Atom::Parens { left, .. } => left.place,
        Atom::Delimited(form) => form_place(form.get()),
        Atom::ArrayFill { spots, .. } => spots.get().array.place,
    }
}

/// Where a form that ends with `end` begins.
#[tactic(auto, using(crate::proofs::Begins::form_places))]
fn form_place(form: &Delimited) -> Place
    ensures { (k : Source) → result ≡ place_of (formed_delimited k form.now) }
{
    match form {
        Delimited::Do { do_, .. } => do_.place,
        Delimited::If { if_, .. } => if_.place,
        Delimited::While { while_, .. } => while_.place,
        Delimited::For { for_, .. } => for_.place,
        Delimited::Case { case, .. } => case.place,
        Delimited::Typecase { typecase, .. } => typecase.place,
        Delimited::Try { try_, .. } => try_.place,
    }
}
