//! Answers lines, so that cases are data: `stdin` asks, and `stdout` has the answers as the
//! chapters of docs/LANGUAGE.md give them.
//!
//! - `check SOURCE`: `accepted`, or the number of the broken rule and its place.
//! - `repeat N SOURCE`: the same of so many of the source behind one another.
//! - `tight RUN`, `loose UNITS`: the next rewriting, and the grouping, of elements that letters
//!   stand for (`juxtaposition.rt`).
//! - `scope STEPS`: what the steps find, one after another (`scopes.rt`).
//!
//! In a source `\n` stands for a line feed, `\!` for the byte 255, and `\` before anything else for
//! that. A line that begins with `#` is written again.
#![tactic(auto)]

mod answers;
mod juxtaposition;
mod scopes;
mod sources;

use crate::answers::answer_to;
use std::io;

fn main(rt: HostRuntime) -> io::Result<()> {
    let alloc = rt.alloc();
    for line in rt.lines(alloc) {
        match answer_to(alloc, line?.as_str()) {
            Ok(answer) => println!(rt; "{answer}")?,
            Err(_) => println!(rt; "want of memory")?,
        }
    }
    Ok(())
}
