ghost use Rattle.std.specs.Prelude.{◌≡◌, IfOk};
ghost use Rattle.fort_machine.specs.Ends.{open_yet, standing};

use fort_base::{List, Memory, SetId, Shared};
use fort_core::{Term, Value};
use fort_hall_parts::{open_parts, part_at, put_in};
use std::alloc::Global;

const DEPTH: u32 = 8;

// An open form, which is told by its number.
fn task(alloc: Global, number: u32) -> Result<Shared<Term>, Memory>
    ensures { IfOk result (λ form. standing form ≡ open_yet) }
{
    Shared::new(alloc, Term::Call(SetId(number), List::new(alloc)))
}

fn value(alloc: Global) -> Result<Shared<Term>, Memory> {
    Shared::new(alloc, Term::Value(Value::Truth(true)))
}

fn thrown(alloc: Global) -> Result<Shared<Term>, Memory> {
    Shared::new(alloc, Term::Throw(value(alloc)?))
}

fn marked(alloc: Global, part: Shared<Term>) -> Result<Shared<Term>, Memory> {
    Shared::new(alloc, Term::Stepped(part))
}

// `(a, b)`
fn pair(alloc: Global, first: Shared<Term>, second: Shared<Term>) -> Result<Shared<Term>, Memory> {
    let mut parts = List::new(alloc);
    parts.push(first)?;
    parts.push(second)?;
    Shared::new(alloc, Term::Group(parts))
}

// `true OP a; true`
fn in_order(alloc: Global, part: Shared<Term>) -> Result<Shared<Term>, Memory> {
    let mut operands = List::new(alloc);
    operands.push(value(alloc)?)?;
    operands.push(part)?;
    let operator = Shared::new(alloc, Term::Operator(SetId(0), operands))?;
    Shared::new(alloc, Term::Then(operator, value(alloc)?))
}

// `(task 1, true OP (task 2, task 3 with its mark); true)`
fn tree(alloc: Global) -> Result<Shared<Term>, Memory> {
    let inner = pair(alloc, task(alloc, 2)?, marked(alloc, task(alloc, 3)?)?)?;
    pair(alloc, task(alloc, 1)?, in_order(alloc, inner)?)
}

// The number of the open form at a path, or 0 where no part stands there or another form.
fn found(alloc: Global, whole: &Shared<Term>, path: &[u32], depth: u32) -> Result<u32, Memory> {
    match part_at(alloc, whole, path, depth)? {
        None => Ok(0),
        Some(part) => match part.get() {
            Term::Call(set, _) => Ok(set.0),
            _ => Ok(0),
        },
    }
}

#[test]
fn a_path_leads_to_its_part(rt: HostRuntime) -> Result<(), Memory> {
    let alloc = rt.alloc();
    let tree = tree(alloc)?;
    assert_eq!(rt; found(alloc, &tree, &[0], DEPTH)?, 1);
    assert_eq!(rt; found(alloc, &tree, &[1, 0], DEPTH)?, 2);
    assert_eq!(rt; found(alloc, &tree, &[1, 1], DEPTH)?, 3);
    assert_eq!(rt; found(alloc, &tree, &[1, 2], DEPTH)?, 0);
    assert_eq!(rt; found(alloc, &tree, &[2], DEPTH)?, 0);
    assert_eq!(rt; found(alloc, &tree, &[0, 0], DEPTH)?, 0);
    assert_eq!(rt; found(alloc, &tree, &[1, 0], 3)?, 0);
    let whole = part_at(alloc, &tree, &[], 0)?;
    assert!(rt; matches!(&whole, Some(part) if part.get().same(tree.get())));
    Ok(())
}

#[test]
fn beside_a_throw_a_part_needs_its_mark(rt: HostRuntime) -> Result<(), Memory> {
    let alloc = rt.alloc();
    let begun = pair(alloc, thrown(alloc)?, marked(alloc, task(alloc, 1)?)?)?;
    let passed = pair(alloc, thrown(alloc)?, task(alloc, 1)?)?;
    assert_eq!(rt; found(alloc, &begun, &[1], DEPTH)?, 1);
    assert_eq!(rt; found(alloc, &passed, &[1], DEPTH)?, 0);
    assert_eq!(rt; found(alloc, &begun, &[0], DEPTH)?, 0);
    Ok(())
}

#[test]
fn what_a_part_became_takes_its_place(rt: HostRuntime) -> Result<(), Memory> {
    let alloc = rt.alloc();
    let tree = tree(alloc)?;
    let part = task(alloc, 2)?;
    let other = task(alloc, 4)?;
    let put = put_in(alloc, &tree, &[1, 0], &part, task(alloc, 4)?, DEPTH)?;
    let Some(whole) = put else {
        assert!(rt; false, "the part isn't found");
        return Ok(());
    };
    assert_eq!(rt; found(alloc, &whole, &[1, 0], DEPTH)?, 4);
    assert_eq!(rt; found(alloc, &whole, &[1, 1], DEPTH)?, 3);
    let again = put_in(alloc, &tree, &[1, 0], &other, part, DEPTH)?;
    assert!(rt; again.is_none());
    let Term::Group(parts) = whole.get() else {
        assert!(rt; false, "the form is another one");
        return Ok(());
    };
    assert!(rt; matches!(parts.get(1), Some(marked) if matches!(marked.get(), Term::Stepped(_))));
    Ok(())
}

#[test]
fn the_first_wide_form_is_divided(rt: HostRuntime) -> Result<(), Memory> {
    let alloc = rt.alloc();
    let wide = open_parts(alloc, &tree(alloc)?, DEPTH)?;
    assert!(rt;
        matches!(&wide, Some(division)
        if division.path.0.is_empty() && division.numbers.as_slice() == [0u32, 1].as_slice())
    );
    let lone = pair(alloc, value(alloc)?, in_order(alloc, tree(alloc)?)?)?;
    let within = open_parts(alloc, &lone, DEPTH)?;
    assert!(rt;
        matches!(&within, Some(division)
        if division.path.0.as_slice() == [1u32].as_slice()
            && division.numbers.as_slice() == [0u32, 1].as_slice())
    );
    assert!(rt; open_parts(alloc, &lone, 2)?.is_none());
    assert!(rt; open_parts(alloc, &task(alloc, 1)?, DEPTH)?.is_none());
    Ok(())
}
