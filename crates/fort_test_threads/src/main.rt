//! Says of each file of its words whether it is accepted, and whether its program has the prelude's
//! tables.
//!
//! A line for each word: `NAME: threads`, `NAME: no threads`, `NAME: refused`, `NAME: not read`, or
//! `NAME: want of memory`.
#![tactic(auto)]

use fort_base::CheckFault;
use fort_front::check;
use fort_lex::tokens;
use fort_sound_tables::has_threads;
use std::alloc::Global;
use std::{env, fs, io};

/// The largest file that is read.
const LARGEST: usize = 1_048_576;

fn main(rt: HostRuntime) -> io::Result<()> {
    for word in env::args(&rt)?.skip(1) {
        let answer = match fs::read(&rt, word.as_str()) {
            Ok(source) => answer_to(rt.alloc(), &source),
            Err(_) => "not read",
        };
        println!(rt; "{word}: {answer}")?;
    }
    Ok(())
}

fn answer_to(alloc: Global, source: &[u8]) -> &'static str {
    if source.len() > LARGEST {
        return "not read";
    }
    match asked(alloc, source) {
        Ok(true) => "threads",
        Ok(false) => "no threads",
        Err(CheckFault::Refused(_, _)) => "refused",
        Err(CheckFault::Memory) => "want of memory",
    }
}

fn asked(alloc: Global, source: &[u8]) -> Result<bool, CheckFault> {
    if source.len() > LARGEST {
        return Ok(false);
    }
    let found = tokens(alloc, source)?;
    let program = check(alloc, &found)?;
    Ok(has_threads(alloc, &program)?)
}
