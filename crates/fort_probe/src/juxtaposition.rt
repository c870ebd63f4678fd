//! What stands side by side, in letters: `x` a plain atom, `p` one in parentheses, `h` one with an
//! arrow type, `f` a function set's name, `s` a postfix. Each element stands at the column of its
//! letter.
ghost use Rattle.std.specs.Prelude.{◌≡◌, ◌<◌, false, IsTrue, length};
ghost use Rattle.fort_juxt.specs.Loose.{AreAtoms};
ghost use Rattle.fort_juxt.specs.Tight.{postfix_first};

use crate::answers::fault_answer;
use fort_base::Place;
use fort_juxt::{Element, Grouping, Tight, loose, tight};
use std::alloc::{AllocError, Global};

/// The elements that letters stand for.
fn elements_of(alloc: Global, letters: &str) -> Result<Vec<Element>, AllocError> {
    let mut elements = Vec::new(alloc);
    let mut column = 1u32;
    for letter in letters.as_bytes() {
        elements.push(element_of(*letter, column))?;
        column = column.saturating_add(1);
    }
    Ok(elements)
}

fn element_of(letter: u8, column: u32) -> Element {
    Element {
        place: Place { line: 1, column },
        function: letter == b'f' || letter == b'h',
        named: letter == b'f',
        parens: letter == b'p',
        postfix: letter == b's',
    }
}

/// Whether there is an element, and the first is no postfix.
fn is_run(elements: &[Element]) -> bool
    ensures some { IsTrue result → 0 < length elements.now }
    ensures first { IsTrue result → postfix_first elements.now ≡ false }
{
    match elements {
        [first, ..] => !first.postfix,
        [] => false,
    }
}

/// Whether none is a postfix.
fn are_atoms(elements: &[Element]) -> bool
    ensures { IsTrue result → AreAtoms elements.now }
{
    match elements {
        [] => true,
        [first, rest @ ..] => !first.postfix && are_atoms(rest),
    }
}

/// The next rewriting of a run: `apply`, `postfix` with the element's number, counted from 0,
/// `left` or `whole`.
pub fn tight_answer(alloc: Global, letters: &str) -> Result<String, AllocError> {
    let elements = elements_of(alloc, letters)?;
    if !is_run(&elements) {
        return String::from_str(alloc, "no run");
    }
    match tight(&elements) {
        Ok(Tight::Apply(at)) => format!(in alloc; "apply {at}"),
        Ok(Tight::Postfix(at)) => format!(in alloc; "postfix {at}"),
        Ok(Tight::Left) => String::from_str(alloc, "left"),
        Ok(Tight::Whole) => String::from_str(alloc, "whole"),
        Err(fault) => fault_answer(alloc, fault),
    }
}

/// The grouping of units: `@` before two parts of which the first is applied to the second, `+`
/// before two that are joined, and a unit's number, counted from 0.
pub fn loose_answer(alloc: Global, letters: &str) -> Result<String, AllocError> {
    let elements = elements_of(alloc, letters)?;
    if !is_run(&elements) || !are_atoms(&elements) {
        return String::from_str(alloc, "no units");
    }
    match loose(alloc, &elements) {
        Ok(grouping) => written(alloc, &grouping),
        Err(fault) => fault_answer(alloc, fault),
    }
}

fn written(alloc: Global, grouping: &Grouping) -> Result<String, AllocError> {
    match grouping {
        Grouping::One(number) => format!(in alloc; "{number}"),
        Grouping::Apply(function, argument) => {
            let first = written(alloc, function.get())?;
            let second = written(alloc, argument.get())?;
            format!(in alloc; "@{first}{second}")
        }
        Grouping::Pair(left, right) => {
            let first = written(alloc, left.get())?;
            let second = written(alloc, right.get())?;
            format!(in alloc; "+{first}{second}")
        }
    }
}
