use fort_base::{List, Memory, SetId, Shared};
use fort_core::{Term, Value};
use std::alloc::Global;

const LEVELS: u32 = 200_000;

fn leaf(alloc: Global) -> Result<Shared<Term>, Memory> {
    Shared::new(alloc, Term::Value(Value::Truth(false)))
}

// A call whose first argument is a part.
fn call(alloc: Global, part: Shared<Term>) -> Result<Term, Memory> {
    let mut arguments = List::new(alloc);
    arguments.push(part)?;
    arguments.push(leaf(alloc)?)?;
    Ok(Term::Call(SetId(0), arguments))
}

// A form round a part, one of four kinds by turns.
fn round(alloc: Global, part: Shared<Term>, level: u32) -> Result<Term, Memory> {
    match level % 4 {
        0 => Ok(Term::Then(part, leaf(alloc)?)),
        1 => Ok(Term::If(leaf(alloc)?, part, leaf(alloc)?)),
        2 => Ok(Term::Throw(part)),
        _ => call(alloc, part),
    }
}

fn deep(alloc: Global) -> Result<Term, Memory> {
    let mut term = Term::Value(Value::Truth(true));
    for level in 0..LEVELS {
        term = round(alloc, Shared::new(alloc, term)?, level)?;
    }
    Ok(term)
}

#[test]
fn a_term_deeper_than_a_stack_is_let_go(rt: HostRuntime) {
    match deep(rt.alloc()) {
        Ok(term) => assert!(rt; matches!(&term, Term::Call(_, _))),
        Err(_) => assert!(rt; false, "memory is wanting"),
    }
}
