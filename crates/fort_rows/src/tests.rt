//! What no clause says: that depth takes no stack.
use fort_base::{List, Loc, Memory, Shared, Ty};
use fort_core::{Path, Pick, Term, Value};
use std::alloc::Global;

fn nested(alloc: Global, levels: u32) -> Result<Pick, Memory> {
    let mut pick = Pick::Step(Path(List::new(alloc)), Loc(7));
    for _ in 0..levels {
        let mut inner = List::new(alloc);
        inner.push(Pick::Step(Path(List::new(alloc)), Loc(1)))?;
        inner.push(pick)?;
        inner.push(Pick::Step(Path(List::new(alloc)), Loc(2)))?;
        pick = Pick::Attempt(Path(List::new(alloc)), inner);
    }
    Ok(pick)
}

fn long(alloc: Global, items: u32) -> Result<Term, Memory> {
    let mut term = Term::Value(Value::Truth(true));
    for at in 0..items {
        let first = Shared::new(alloc, Term::Value(Value::Truth(false)))?;
        let rest = Shared::new(alloc, term)?;
        term = match at % 3 {
            0 => Term::Then(first, rest),
            1 => Term::Let(Shared::new(alloc, List::new(alloc))?, first, rest),
            _ => Term::Mutable(at, Shared::new(alloc, Ty::Any)?, first, rest),
        };
    }
    Ok(term)
}

#[test]
fn a_pick_of_a_million_levels_is_copied_and_let_go(rt: HostRuntime) -> Result<(), Memory> {
    let pick = nested(rt.alloc(), 1_000_000)?;
    let copy = pick.copy(rt.alloc())?;
    drop(pick);
    drop(copy);
    Ok(())
}

#[test]
fn a_block_of_a_hundred_thousand_items_is_copied_compared_and_let_go(
    rt: HostRuntime,
) -> Result<(), Memory> {
    let term = long(rt.alloc(), 100_000)?;
    let copy = term.copy(rt.alloc())?;
    assert!(rt; copy.same(&term));
    drop(term);
    drop(copy);
    Ok(())
}
