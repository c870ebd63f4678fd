//! What a written program is, at the six programs of the worked runs.
ghost use Rattle.fort_machine_law_worked.specs.AsWritten.{WorkedAreWritten};

/// The programs of the worked runs are as they are written.
pub fn worked_are_written()
    ensures { WorkedAreWritten }
{}
