//! Laws of audits, each named by a function that does nothing.
ghost use Rattle.fort_audit.specs.Audits.{OneAnswer, OneOutput, OneParting};

/// A law: a journal is that of runs which all print the same.
pub fn one_output()
    ensures { OneOutput }
{}

/// A law: two texts part at one number.
pub fn one_parting()
    ensures { OneParting }
{}

/// A law: a record has one answer, so each is said exactly where it is so.
pub fn one_answer()
    ensures { OneAnswer }
{}
