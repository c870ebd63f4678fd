use fort_base::{List, Loc, Memory, Shared, TypeId, TypeTable};
use fort_core::{BuiltIn, Program, Term, Value};
use fort_store::Store;
use std::alloc::Global;

// The number at a location, or -1 where there is none.
fn number_at(store: &Store, loc: u64) -> i32 {
    match store.look(Loc(loc)) {
        Some(Value::Small(number)) => *number,
        _ => -1,
    }
}

// A store with 1 at 7 and 3 at the last location of all, where the 1 was put in the place of a 2.
fn filled(alloc: Global) -> Result<Store, Memory> {
    let mut store = Store::new(alloc);
    store.room(2)?;
    store.put(Loc(7), Value::Small(2))?;
    store.put(Loc(u64::MAX), Value::Small(3))?;
    store.put(Loc(7), Value::Small(1))?;
    Ok(store)
}

// The store of a program whose opening list has 1 and then 2 at 7, and 3 at the last location of
// all.
fn opened(alloc: Global) -> Result<Store, Memory> {
    let mut opening = List::new(alloc);
    opening.push((Loc(7), Value::Small(1)))?;
    opening.push((Loc(7), Value::Small(2)))?;
    opening.push((Loc(u64::MAX), Value::Small(3)))?;
    Store::of(&program(alloc, opening)?)
}

// A program of no types and no declarations.
fn program(alloc: Global, opening: List<(Loc, Value)>) -> Result<Program, Memory> {
    let none = TypeId(0);
    Ok(Program {
        types: TypeTable {
            below: List::new(alloc),
            apart: List::new(alloc),
        },
        built_in: BuiltIn {
            object: none,
            exception: none,
            small: none,
            large: none,
            text: none,
            truth: none,
            range: none,
            integer_overflow: none,
            division_by_zero: none,
            negative_exponent: none,
            index_out_of_range: none,
            negative_size: none,
            depth_exceeded: none,
            try_atomic_failure: none,
            abort_outside: none,
        },
        type_names: List::new(alloc),
        shapes: List::new(alloc),
        sets: List::new(alloc),
        decls: List::new(alloc),
        first: Shared::new(alloc, Term::Value(Value::unit(alloc)?))?,
        opening,
        opening_types: List::new(alloc),
    })
}

#[test]
fn has_what_was_put_last(rt: HostRuntime) {
    for store in [filled(rt.alloc()), opened(rt.alloc())] {
        match store {
            Ok(store) => {
                for (loc, number) in [(7, 1), (u64::MAX, 3), (0, -1), (8, -1)] {
                    assert_eq!(rt; number_at(&store, loc), number, "at {loc}");
                }
            }
            Err(_) => assert!(rt; false, "memory is wanting"),
        }
    }
}
