//! What a line is answered.
use crate::juxtaposition::{loose_answer, tight_answer};
use crate::scopes::scope_answer;
use crate::sources::source_of;
use fort_base::CheckFault;
use fort_front::check;
use fort_lex::tokens;
use std::alloc::{AllocError, Global};

/// The answer to a line.
pub fn answer_to(alloc: Global, line: &str) -> Result<String, AllocError> {
    if line.starts_with('#') {
        return String::from_str(alloc, line);
    }
    match line.split_once(' ') {
        Some(("check", source)) => check_answer(alloc, source, 1),
        Some(("repeat", rest)) => repeat_answer(alloc, rest),
        Some(("tight", run)) => tight_answer(alloc, run),
        Some(("loose", units)) => loose_answer(alloc, units),
        Some(("scope", steps)) => scope_answer(alloc, steps),
        _ => String::from_str(alloc, "no question"),
    }
}

fn repeat_answer(alloc: Global, rest: &str) -> Result<String, AllocError> {
    match rest.split_once(' ') {
        Some((count, source)) => match count.parse::<u32>() {
            Ok(count) => check_answer(alloc, source, count),
            Err(_) => String::from_str(alloc, "no number"),
        },
        None => String::from_str(alloc, "no source"),
    }
}

fn check_answer(alloc: Global, source: &str, count: u32) -> Result<String, AllocError> {
    let bytes = source_of(alloc, source, count)?;
    if bytes.len() > 1_048_576 {
        return String::from_str(alloc, "file too large");
    }
    match checked(alloc, &bytes) {
        Ok(()) => String::from_str(alloc, "accepted"),
        Err(fault) => fault_answer(alloc, fault),
    }
}

/// Asks all phases that are built.
fn checked(alloc: Global, source: &[u8]) -> Result<(), CheckFault> {
    if source.len() > 1_048_576 {
        return Ok(());
    }
    let found = tokens(alloc, source)?;
    check(alloc, &found)?;
    Ok(())
}

/// The number of the rule that is broken, and its place.
pub fn fault_answer(alloc: Global, fault: CheckFault) -> Result<String, AllocError> {
    match fault {
        CheckFault::Refused(rule, place) => {
            let number = rule.0;
            let line = place.line;
            let column = place.column;
            format!(in alloc; "{number} {line}:{column}")
        }
        CheckFault::Memory => String::from_str(alloc, "want of memory"),
    }
}
