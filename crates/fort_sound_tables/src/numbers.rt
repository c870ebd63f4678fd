//! The numbers that a program has for the prelude's declarations. Nothing is promised of them: each
//! is held against the tables.
use fort_base::{DeclId, Loc, Memory, NameId, SetId, TypeId};
use fort_core::{CoreBody, CoreKind, Program, Term, Value};

/// The sets of what the prelude declares and calls, and of the component's own `run`.
#[derive(Clone, Copy)]
pub(crate) struct Sets {
    pub serve: SetId,
    pub take: SetId,
    pub go: SetId,
    pub make: SetId,
    pub wait: SetId,
    pub val: SetId,
    pub run: SetId,
    pub main: SetId,
    pub own: SetId,
    pub abort: SetId,
    pub plus: SetId,
    pub minus: SetId,
    pub equal: SetId,
    pub differs: SetId,
    pub greater: SetId,
    pub hash: SetId,
}

/// The prelude's declarations, and the component's own `run`.
#[derive(Clone, Copy)]
pub(crate) struct Declarations {
    pub serve: DeclId,
    pub take: DeclId,
    pub go: DeclId,
    pub make: DeclId,
    pub spawn: DeclId,
    pub wait: DeclId,
    pub val: DeclId,
    pub ready: DeclId,
    pub main: DeclId,
    pub run: DeclId,
    pub own: DeclId,
}

/// The fields of `Thread'`.
#[derive(Clone, Copy)]
pub(crate) struct Fields {
    pub body: NameId,
    pub state: NameId,
    pub value: NameId,
    pub next: NameId,
}

/// Where the prelude's variables stand, and the object `TooManyThreads`.
#[derive(Clone, Copy)]
pub(crate) struct Places {
    pub queue: Loc,
    pub unended: Loc,
    pub count: Loc,
    pub started: Loc,
    pub refusal: Loc,
}

/// The types `TooManyThreads` and `Thread'`.
#[derive(Clone, Copy)]
pub(crate) struct Types {
    pub refusal: TypeId,
    pub thread: TypeId,
    pub exception: TypeId,
}

/// All these, and the function that `main'` is given.
#[derive(Drop)]
pub(crate) struct Numbers {
    pub sets: Sets,
    pub declarations: Declarations,
    pub fields: Fields,
    pub places: Places,
    pub types: Types,
    pub function: Value,
}

/// The built-in types are numbered first, and then those of the prelude in their order.
const REFUSAL: TypeId = TypeId(17);

const THREAD: TypeId = TypeId(19);

/// The numbers of a program with the prelude: built-in sets stand first, then the prelude's in
/// their order, and its variables stand at the first locations. `None` where the tables have no
/// such declarations.
pub(crate) fn found_numbers(program: &Program) -> Result<Option<Numbers>, Memory> {
    let Some(fields) = fields_of(program) else {
        return Ok(None);
    };
    let Some(places) = places_of(program) else {
        return Ok(None);
    };
    let Some((function, own)) = passed(program)? else {
        return Ok(None);
    };
    let sets = sets_with(own);
    let Some(declarations) = declarations_of(program, &sets) else {
        return Ok(None);
    };
    Ok(Some(Numbers {
        sets,
        declarations,
        fields,
        places,
        types: Types {
            refusal: REFUSAL,
            thread: THREAD,
            exception: program.built_in.exception,
        },
        function,
    }))
}

fn sets_with(own: SetId) -> Sets {
    Sets {
        plus: SetId(0),
        minus: SetId(1),
        equal: SetId(19),
        differs: SetId(20),
        greater: SetId(23),
        hash: SetId(30),
        abort: SetId(33),
        wait: SetId(37),
        val: SetId(39),
        make: SetId(40),
        take: SetId(42),
        go: SetId(43),
        serve: SetId(44),
        main: SetId(45),
        run: RUN,
        own,
    }
}

const READY: SetId = SetId(38);

const SPAWN: SetId = SetId(41);

const RUN: SetId = SetId(46);

fn declarations_of(program: &Program, sets: &Sets) -> Option<Declarations> {
    Some(Declarations {
        serve: written(program, sets.serve)?,
        take: written(program, sets.take)?,
        go: written(program, sets.go)?,
        make: first(program, sets.make)?,
        spawn: written(program, SPAWN)?,
        wait: written(program, sets.wait)?,
        val: written(program, sets.val)?,
        ready: written(program, READY)?,
        main: written(program, sets.main)?,
        run: written(program, sets.run)?,
        own: written(program, sets.own)?,
    })
}

// The first declaration of a set.
fn first(program: &Program, set: SetId) -> Option<DeclId> {
    let members = program.sets.get(set.0 as usize)?;
    Some(*members.decls.get(0)?)
}

// The first one of a set that is written as a term.
fn written(program: &Program, set: SetId) -> Option<DeclId> {
    let members = program.sets.get(set.0 as usize)?;
    for member in members.decls.as_slice() {
        if body_of(program, *member).is_some() {
            return Some(*member);
        }
    }
    None
}

/// A declaration's body, where it is written as a term.
fn body_of(program: &Program, number: DeclId) -> Option<&Term> {
    match &program.decls.get(number.0 as usize)?.body {
        CoreBody::Plain(body) => Some(body.get()),
        _ => None,
    }
}

// The names of the fields of `Thread'`.
fn fields_of(program: &Program) -> Option<Fields> {
    match program.shapes.get(THREAD.0 as usize)?.fields.as_slice() {
        [body, state, value, next] => Some(Fields {
            body: body.name,
            state: state.name,
            value: value.name,
            next: next.name,
        }),
        _ => None,
    }
}

fn places_of(program: &Program) -> Option<Places> {
    match program.shapes.get(REFUSAL.0 as usize)?.kind {
        CoreKind::Single(refusal) => Some(Places {
            queue: Loc(0),
            unended: Loc(1),
            count: Loc(2),
            started: Loc(3),
            refusal,
        }),
        _ => None,
    }
}

// What `run` passes to `main'`, and the set that this calls.
fn passed(program: &Program) -> Result<Option<(Value, SetId)>, Memory> {
    let Some(number) = written(program, RUN) else {
        return Ok(None);
    };
    let Some(Term::Call(_, arguments)) = body_of(program, number) else {
        return Ok(None);
    };
    let Some(argument) = arguments.get(0) else {
        return Ok(None);
    };
    let Term::Value(value) = argument.get() else {
        return Ok(None);
    };
    let Value::Function(closure) = value else {
        return Ok(None);
    };
    match closure.get().body.get() {
        Term::Call(own, _) => Ok(Some((value.share()?, *own))),
        _ => Ok(None),
    }
}
