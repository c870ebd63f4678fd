use fort_base::{List, Memory, Shared, TypeId, TypeTable};
use fort_core::{BuiltIn, Primitive, Program, Term, Value};
use fort_prim::{Answer, answered, apply};
use std::alloc::Global;

// A program of no types whose exceptions are the type 0.
fn program(alloc: Global) -> Result<Program, Memory> {
    let exception = TypeId(0);
    Ok(Program {
        types: TypeTable {
            below: List::new(alloc),
            apart: List::new(alloc),
        },
        built_in: BuiltIn {
            object: exception,
            exception,
            small: exception,
            large: exception,
            text: exception,
            truth: exception,
            range: exception,
            integer_overflow: exception,
            division_by_zero: exception,
            negative_exponent: exception,
            index_out_of_range: exception,
            negative_size: exception,
            depth_exceeded: exception,
            try_atomic_failure: exception,
            abort_outside: exception,
        },
        type_names: List::new(alloc),
        shapes: List::new(alloc),
        sets: List::new(alloc),
        decls: List::new(alloc),
        first: Shared::new(alloc, Term::Value(Value::unit(alloc)?))?,
        opening: List::new(alloc),
        opening_types: List::new(alloc),
    })
}

#[test]
fn calls_are_answered(rt: HostRuntime) -> Result<(), Memory> {
    let alloc = rt.alloc();
    let program = program(alloc)?;
    let numbers = [Value::Small(2), Value::Small(3)];
    let sum = apply(alloc, &program, Primitive::AddSmall, &numbers)?;
    assert!(rt; matches!(&sum, Answer::Value(Value::Small(5))));
    let line = answered(alloc, &program, Primitive::Println, &[Value::Large(-7)])?;
    assert!(rt;
        matches!(&line, Some(Answer::Prints(text)) if text.as_slice() == b"-7\n".as_slice())
    );
    Ok(())
}
