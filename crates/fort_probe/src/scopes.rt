//! Names in scope, in steps: `+x` binds the name `x` at the step's place, `(` enters a block, `)`
//! leaves it, and `?x` asks for `x`. Steps stand behind one another, each at the column of its
//! first character. The answer has a word for each `+` and `?`: `bound`, or the rule that refuses
//! it and its place; the column where the name was bound, or `none`.
use crate::answers::fault_answer;
use fort_base::{NameId, Place, Ty};
use fort_scope::Scope;
use std::alloc::{AllocError, Global};

/// What the steps find.
pub fn scope_answer(alloc: Global, steps: &str) -> Result<String, AllocError> {
    let mut scope = Scope::new(alloc);
    let mut marks = Vec::new(alloc);
    let mut answer = String::new(alloc);
    let mut column = 1u32;
    let mut step = b' ';
    for byte in steps.as_bytes() {
        match (step, *byte) {
            (b'+', name) => {
                let place = Place {
                    line: 1,
                    column: column.saturating_sub(1),
                };
                add(&mut answer, &bound(alloc, &mut scope, name, place)?)?;
            }
            (b'?', name) => add(&mut answer, &found(alloc, &scope, name)?)?,
            (_, b'(') => marks.push(scope.enter())?,
            (_, b')') => {
                if let Some(mark) = marks.pop() {
                    scope.leave(mark);
                }
            }
            _ => {}
        }
        step = if step == b'+' || step == b'?' {
            b' '
        } else {
            *byte
        };
        column = column.saturating_add(1);
    }
    Ok(answer)
}

fn bound(alloc: Global, scope: &mut Scope, name: u8, place: Place) -> Result<String, AllocError> {
    match scope.bind(NameId(name as u32), place, Ty::Any, false) {
        Ok(()) => String::from_str(alloc, "bound"),
        Err(fault) => fault_answer(alloc, fault),
    }
}

fn found(alloc: Global, scope: &Scope, name: u8) -> Result<String, AllocError> {
    match scope.find(NameId(name as u32)) {
        Some(binding) => {
            let column = binding.place.column;
            format!(in alloc; "{column}")
        }
        None => String::from_str(alloc, "none"),
    }
}

/// Puts a word at the end, behind a space where it isn't the first.
fn add(answer: &mut String, word: &str) -> Result<(), AllocError> {
    if !answer.is_empty() {
        answer.push_str(" ")?;
    }
    answer.push_str(word)
}
