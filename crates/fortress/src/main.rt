//! The program: the real files and outputs, handed to the top call with the words after the
//! program's name.
#![tactic(auto)]

use fort_diag::fixed;
use fort_port::{FileShelf, IdleGate, StreamSink};
use fort_run::fortress;
use std::process::ExitCode;
use std::{env, io};

/// The status of a call that found too little memory for its words.
const WANTS_MEMORY: u8 = 7;

fn main(rt: HostRuntime) -> ExitCode {
    let mut notes = StreamSink::new(rt.stderr());
    let words = match env::args(&rt) {
        Ok(words) => words.skip(1).collect(rt.alloc()),
        // A word that isn't UTF-8 is part of no command, and so are no words.
        Err(error) if error.kind() == io::ErrorKind::InvalidData => Ok(Vec::new(rt.alloc())),
        Err(_) => return want_of_memory(&rt),
    };
    let Ok(words) = words else {
        return want_of_memory(&rt);
    };
    let mut out = StreamSink::new(rt.stdout());
    let mut shelf = FileShelf::new(&rt);
    let finish = fortress(
        &rt,
        rt.alloc(),
        &words,
        &mut shelf,
        &mut out,
        &mut notes,
        &IdleGate,
    );
    ExitCode::from(finish.status)
}

/// The end of a call that found too little memory for its words.
fn want_of_memory(rt: &impl Eprint) -> ExitCode {
    let _ = rt.eprint(fixed(WANTS_MEMORY));
    ExitCode::from(WANTS_MEMORY)
}
