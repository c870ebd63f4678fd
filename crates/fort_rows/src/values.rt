//! What is asked of values: their texts as they are printed, and their types.
use fort_base::{Bytes, List, Loc, Memory, Shared, Ty, TypeId, TypeTable};
use fort_core::{BuiltIn, Program, Term, Value};
use fort_value::{has_type, same, text, type_of};
use std::alloc::Global;

fn built_in() -> BuiltIn {
    BuiltIn {
        object: TypeId(0),
        exception: TypeId(1),
        small: TypeId(0),
        large: TypeId(1),
        text: TypeId(2),
        truth: TypeId(3),
        range: TypeId(4),
        integer_overflow: TypeId(5),
        division_by_zero: TypeId(5),
        negative_exponent: TypeId(5),
        index_out_of_range: TypeId(5),
        negative_size: TypeId(5),
        depth_exceeded: TypeId(5),
        try_atomic_failure: TypeId(5),
        abort_outside: TypeId(5),
    }
}

// Each type below itself alone.
fn apart_rows(alloc: Global, count: usize) -> Result<List<List<bool>>, Memory> {
    let mut rows = List::new(alloc);
    for row in 0..count {
        let mut places = List::new(alloc);
        for place in 0..count {
            places.push(row == place)?;
        }
        rows.push(places)?;
    }
    Ok(rows)
}

fn program(alloc: Global) -> Result<Program, Memory> {
    let mut type_names = List::new(alloc);
    for name in [b"ZZ32", b"ZZ64", b"Text", b"Bool", b"Span", b"Oops"] {
        type_names.push(List::from_slice(alloc, name)?)?;
    }
    Ok(Program {
        types: TypeTable {
            below: apart_rows(alloc, 6)?,
            apart: List::new(alloc),
        },
        built_in: built_in(),
        type_names,
        shapes: List::new(alloc),
        sets: List::new(alloc),
        decls: List::new(alloc),
        first: Shared::new(alloc, Term::Value(Value::unit(alloc)?))?,
        opening: List::new(alloc),
        opening_types: List::new(alloc),
    })
}

fn pair(alloc: Global, first: Value, second: Value) -> Result<Value, Memory> {
    let mut parts = List::new(alloc);
    parts.push(first)?;
    parts.push(second)?;
    Ok(Value::Tuple(Shared::new(alloc, parts)?))
}

fn text_value(alloc: Global, text: &[u8]) -> Result<Value, Memory> {
    Ok(Value::Text(Shared::new(alloc, List::from_slice(alloc, text)?)?))
}

fn printed(alloc: Global, value: Value) -> Result<Bytes, Memory> {
    text(alloc, &program(alloc)?, &value)
}

#[test]
fn a_line_of_texts_and_values_is_their_texts_in_a_row(rt: HostRuntime) -> Result<(), Memory> {
    let alloc = rt.alloc();
    let mut line = printed(alloc, text_value(alloc, b"n = ")?)?;
    line.append(printed(alloc, Value::Small(5))?)?;
    line.append(printed(alloc, text_value(alloc, b", ok ")?)?)?;
    line.append(printed(alloc, Value::Truth(true))?)?;
    assert!(rt; line.as_slice() == b"n = 5, ok true".as_slice());
    Ok(())
}

#[test]
fn quotients_and_remainders_are_printed_with_their_sign(rt: HostRuntime) -> Result<(), Memory> {
    let alloc = rt.alloc();
    assert!(rt; printed(alloc, Value::Small(-3))?.as_slice() == b"-3".as_slice());
    assert!(rt; printed(alloc, Value::Small(-1))?.as_slice() == b"-1".as_slice());
    assert!(rt; printed(alloc, Value::Large(1))?.as_slice() == b"1".as_slice());
    Ok(())
}

#[test]
fn other_values_are_printed_by_their_kind(rt: HostRuntime) -> Result<(), Memory> {
    let alloc = rt.alloc();
    assert!(rt; printed(alloc, Value::unit(alloc)?)?.as_slice() == b"()".as_slice());
    let both = pair(alloc, Value::Range(5, 2), Value::Object(TypeId(5), Loc(9)))?;
    assert!(rt; printed(alloc, both)?.as_slice() == b"(5#2, Oops)".as_slice());
    let array = Value::Array(Shared::new(alloc, Ty::Any)?, Loc(3), 7);
    assert!(rt; printed(alloc, array)?.as_slice() == b"array of 7".as_slice());
    Ok(())
}

#[test]
fn a_value_has_its_type_and_any_and_is_the_same_as_itself(rt: HostRuntime) -> Result<(), Memory> {
    let alloc = rt.alloc();
    let program = program(alloc)?;
    let value = pair(alloc, Value::Small(5), Value::Truth(false))?;
    let ty = type_of(alloc, &program, &value)?;
    assert!(rt; has_type(&program, &value, &ty));
    assert!(rt; has_type(&program, &value, &Ty::Any));
    assert!(rt; !has_type(&program, &Value::Large(5), &Ty::Named(TypeId(0))));
    assert!(rt; same(&value, &value.copy(alloc)?));
    assert!(rt; !same(&Value::Small(1), &Value::Large(1)));
    Ok(())
}
