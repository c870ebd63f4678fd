//! Laws of records.
ghost use Rattle.fort_audit_record.specs.Text.{OneRecord};

/// A law: bytes are the text of one journal and one output at most, so what was written is what is
/// read.
pub fn one_record()
    ensures { OneRecord }
{}
