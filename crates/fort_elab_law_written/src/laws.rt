//! What the translation makes is as it is written.
ghost use Rattle.fort_elab_law_written.specs.Laws.{ProgramIsWritten};

/// A law: the program of a typed component that matches its members is as it is written: no form
/// stands in it that only a run makes, no tuple of values and no closed function as a form, no
/// binder inside another one of its number; its functions have numbers of their own, no binder has
/// a parameter's number, and constructors take the fields without a constant. Chapter "Programs as
/// written" of docs/MACHINE.md.
pub fn program_is_written()
    ensures { ProgramIsWritten }
{}
