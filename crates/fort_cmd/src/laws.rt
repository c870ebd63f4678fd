//! What holds of the words of commands, each law named by a function that does nothing.
ghost use Rattle.fort_cmd.specs.Words.{OneCommand};

/// The words are one command at most.
pub fn one_command()
    ensures { OneCommand }
{}
