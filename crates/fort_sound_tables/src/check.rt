//! Whether a program has all that the laws on runs with threads take of it.
ghost use Rattle.std.specs.Prelude.{◌≡◌, ◌∷◌, [], false, IsTrue, IfOk, IfSome};
ghost use Rattle.fort_core.specs.declared.term.Term as a_term;
ghost use Rattle.fort_core.specs.declared.term.Term.{Term as ATerm};
ghost use Rattle.fort_machine.specs.Ends.{is_thrown};
ghost use Rattle.fort_sound_tables.specs.Threads.{CallsOwn, HasThreads, RunsNumbers, RunsOwn, RunsPrelude, StandApart, StandPlaces, StartsTexts, TakesTexts, MakesThreads};
ghost use Rattle.fort_threads_law_tables.specs.Texts as text;
ghost use Rattle.fort_sound_tables.specs.Numbers.{names, start};
ghost use Rattle.fort_sound_tables.specs.Threads as threads;
ghost use Rattle.fort_sound_tables.specs.Threads.{IsSole, nothing_type};

use crate::apart::all_stands_apart;
use crate::calls::{
    has_one, is_nothing, is_sole, runs, runs_differs, runs_primitive, runs_text, takes_text,
};
use crate::forms::{one_type, two_types};
use crate::leaves::leaves;
use crate::numbers::{Numbers, Places, found_numbers};
use crate::opening::holds;
use crate::texts::{
    go_text, main_text, ready_text, run_text, serve_text, spawn_text, take_text, val_text,
    wait_text,
};
use crate::types::types_stand;
use fort_base::{Boxed, List, Memory, SetId, Ty};
use fort_core::{Closure, CoreBody, Primitive, Program, Term, Value};
use std::alloc::Global;

// Whether calls of the prelude's own sets and of `wait` run the prelude's bodies.
fn runs_prelude(alloc: Global, program: &Program, x: &Numbers) -> Result<bool, Memory>
    ensures { IfOk result (λ runs. IsTrue runs → RunsPrelude program.now x.now) }
{
    let none = List::new(alloc);
    let thread = one_type(alloc, Ty::Named(x.types.thread))?;
    let sets = &x.sets;
    let decls = &x.declarations;
    if !runs_text(
        program,
        sets.serve,
        &none,
        decls.serve,
        &serve_text(alloc, x)?,
    ) {
        return Ok(false);
    }
    if !runs_text(program, sets.take, &none, decls.take, &take_text(alloc, x)?) {
        return Ok(false);
    }
    if !runs_text(program, sets.go, &thread, decls.go, &go_text(alloc, x)?) {
        return Ok(false);
    }
    let wait = wait_text(alloc, x)?;
    Ok(runs_text(program, sets.wait, &thread, decls.wait, &wait))
}

// Whether the prelude's calls of operators of small numbers, and of `abort`, run the built-in ones.
fn runs_numbers(alloc: Global, program: &Program, x: &Numbers) -> Result<bool, Memory>
    ensures { IfOk result (λ runs. IsTrue runs → RunsNumbers program.now x.now) }
{
    let none = List::new(alloc);
    let small = program.built_in.small;
    let two = two_types(alloc, Ty::Named(small), Ty::Named(small))?;
    let sets = &x.sets;
    if !runs_primitive(program, sets.hash, &two, Primitive::RangeCount) {
        return Ok(false);
    }
    if !runs_primitive(program, sets.equal, &two, Primitive::EqualSmall) {
        return Ok(false);
    }
    if !runs_differs(program, sets.differs, &two) {
        return Ok(false);
    }
    if !runs_primitive(program, sets.plus, &two, Primitive::AddSmall) {
        return Ok(false);
    }
    if !runs_primitive(program, sets.minus, &two, Primitive::SubtractSmall) {
        return Ok(false);
    }
    if !runs_primitive(program, sets.greater, &two, Primitive::GreaterSmall) {
        return Ok(false);
    }
    Ok(runs_primitive(program, sets.abort, &none, Primitive::Abort))
}

// The parameters of `spawn'`: `() -> Any`.
fn one_function(alloc: Global) -> Result<List<Ty>, Memory>
    ensures { IfOk result (λ types. types ≡ threads.one_function) }
{
    let unit = Boxed::new(alloc, Ty::Tuple(List::new(alloc)))?;
    let any = Boxed::new(alloc, Ty::Any)?;
    one_type(alloc, Ty::Arrow(unit, any))
}

// Whether `spawn'`, `wait`, `val` and `ready` are the prelude's, and calls of `val` run that one.
fn takes_texts(alloc: Global, program: &Program, x: &Numbers) -> Result<bool, Memory>
    ensures { IfOk result (λ takes. IsTrue takes → TakesTexts program.now x.now) }
{
    let function = one_function(alloc)?;
    let thread = one_type(alloc, Ty::Named(x.types.thread))?;
    let decls = &x.declarations;
    if !takes_text(program, decls.spawn, &function, &spawn_text(alloc, x)?) {
        return Ok(false);
    }
    if !takes_text(program, decls.wait, &thread, &wait_text(alloc, x)?) {
        return Ok(false);
    }
    if !takes_text(program, decls.val, &thread, &val_text(alloc, x)?) {
        return Ok(false);
    }
    if !takes_text(program, decls.ready, &thread, &ready_text(alloc, x)?) {
        return Ok(false);
    }
    Ok(runs(program, x.sets.val, &thread, decls.val))
}

// Whether a set has one declaration, which makes objects of `Thread'`.
fn makes_threads(program: &Program, x: &Numbers) -> bool
    ensures { IsTrue result → MakesThreads program.now x.now }
{
    match program.decls.get(x.declarations.make.0 as usize) {
        None => false,
        Some(made) => match &made.body {
            CoreBody::New(ty) => {
                ty.0 == x.types.thread.0 && has_one(program, x.sets.make, x.declarations.make)
            }
            _ => false,
        },
    }
}

// The parameters of `main'`: `() -> ()`.
fn one_action(alloc: Global) -> Result<List<Ty>, Memory>
    ensures { IfOk result (λ types. types ≡ threads.one_action) }
{
    let unit = Boxed::new(alloc, Ty::Tuple(List::new(alloc)))?;
    let gives = Boxed::new(alloc, Ty::Tuple(List::new(alloc)))?;
    one_type(alloc, Ty::Arrow(unit, gives))
}

// Whether `main'` is the prelude's.
fn main_is_sole(alloc: Global, program: &Program, x: &Numbers) -> Result<bool, Memory>
    ensures { IfOk result (λ is. IsTrue is → IsSole program.now x.now.sets.main
        x.now.declarations.main threads.one_action (text.main_text (names x.now) (start x.now))) }
{
    let action = one_action(alloc)?;
    let main = main_text(alloc, x)?;
    Ok(is_sole(program, x.sets.main, x.declarations.main, &action, &main))
}

// Whether `run` is the prelude's.
fn run_is_sole(alloc: Global, program: &Program, x: &Numbers) -> Result<bool, Memory>
    ensures { IfOk result (λ is. IsTrue is → IsSole program.now x.now.sets.run
        x.now.declarations.run []
        (a_term.Call x.now.sets.main (a_term.Value x.now.function ∷ []))) }
{
    let none = List::new(alloc);
    let run = run_text(alloc, x)?;
    Ok(is_sole(program, x.sets.run, x.declarations.run, &none, &run))
}

// Whether `main'` and `run` are the prelude's, and `Thread'` makes its objects.
fn starts_texts(alloc: Global, program: &Program, x: &Numbers) -> Result<bool, Memory>
    ensures { IfOk result (λ starts. IsTrue starts → StartsTexts program.now x.now) }
{
    if !main_is_sole(alloc, program, x)? {
        return Ok(false);
    }
    if !run_is_sole(alloc, program, x)? {
        return Ok(false);
    }
    Ok(makes_threads(program, x))
}

// Whether a term is a call of a set without arguments.
fn is_call(term: &Term, set: SetId) -> bool
    ensures { IsTrue result → term.now ≡ a_term.Call set [] }
{
    match term {
        Term::Call(called, arguments) => called.0 == set.0 && arguments.is_empty(),
        _ => false,
    }
}

// Whether a function takes and holds nothing, gives `()`, and calls a set.
fn is_own_call(function: &Closure, own: SetId) -> bool
    ensures takes { IsTrue result → function.now.parameters ≡ [] }
    ensures held { IsTrue result → function.now.held ≡ [] }
    ensures gives { IsTrue result → function.now.result ≡ nothing_type }
    ensures calls { IsTrue result → function.now.body ≡ a_term.Call own [] }
{
    function.parameters.get().is_empty()
        && function.held.is_empty()
        && is_nothing(function.result.get())
        && is_call(function.body.get(), own)
}

// Whether the function that `main'` is given calls the component's own `run`.
fn calls_own(x: &Numbers) -> bool
    ensures { IsTrue result → CallsOwn x.now }
{
    match &x.function {
        Value::Function(closure) => is_own_call(closure.get(), x.sets.own),
        _ => false,
    }
}

// Whether the prelude's variables stand at places of their own.
fn stand_apart(places: &Places) -> bool
    ensures { IsTrue result → StandApart places.now }
{
    places.queue.0 != places.count.0
        && places.queue.0 != places.unended.0
        && places.queue.0 != places.started.0
        && places.count.0 != places.unended.0
        && places.count.0 != places.started.0
        && places.unended.0 != places.started.0
}

// Whether the prelude's variables stand at their opening values, and the call of `run` is first.
fn places_stand(alloc: Global, program: &Program, x: &Numbers) -> Result<bool, Memory>
    ensures { IfOk result (λ stand. IsTrue stand → StandPlaces program.now x.now) }
{
    let unit = Value::unit(alloc)?;
    let zero = Value::Small(0);
    let places = &x.places;
    Ok(
        is_call(program.first.get(), x.sets.run)
            && holds(program, places.queue, &unit)
            && holds(program, places.unended, &zero)
            && holds(program, places.count, &zero)
            && holds(program, places.started, &Value::Truth(false))
            && stand_apart(places),
    )
}

// Whether a term is no throw as it is written.
fn is_no_throw(term: &Term) -> bool
    ensures { IsTrue result → is_thrown term.now ≡ false }
{
    match term {
        Term::Throw(_) => false,
        _ => true,
    }
}

// The body of a declaration.
fn body_of<'a>(program: &'a Program, x: &Numbers) -> Option<&'a Term> {
    match &program.decls.get(x.declarations.own.0 as usize)?.body {
        CoreBody::Plain(body) => Some(body.get()),
        _ => None,
    }
}

// The body of the component's own `run`, where it leaves the prelude's own names alone.
fn own_body<'a>(alloc: Global, program: &'a Program, x: &Numbers) -> Option<&'a Term>
    ensures { IfSome result (λ text. RunsOwn program.now x.now text.now) }
{
    let none = List::new(alloc);
    let text = body_of(program, x)?;
    if !is_sole(program, x.sets.own, x.declarations.own, &none, text) {
        return None;
    }
    if !leaves(program, x, text) {
        return None;
    }
    if is_no_throw(text) { Some(text) } else { None }
}

// Whether the component's own `run` is there, and leaves the prelude's own names alone.
fn has_own(alloc: Global, program: &Program, x: &Numbers) -> bool
    ensures { IsTrue result → (t : ATerm) × RunsOwn program.now x.now t }
{
    match own_body(alloc, program, x) {
        None => false,
        Some(_text) => true,
    }
}

/// Whether a program has the prelude's declarations, and keeps the prelude's own names to them: all
/// that the laws on runs with threads take of a program by its tables. It takes time linear in the
/// program's terms, but for a look through the opening store for each location that stands in them.
/// It goes down terms by calls. The chapter "The machine with threads".
///
/// # Errors
///
/// `Memory` where memory is wanting.
pub fn has_threads(alloc: Global, program: &Program) -> Result<bool, Memory>
    ensures { IfOk result (λ has. IsTrue has → HasThreads program.now) }
{
    let Some(x) = found_numbers(program)? else {
        return Ok(false);
    };
    if !has_own(alloc, program, &x) {
        return Ok(false);
    }
    if !runs_prelude(alloc, program, &x)? {
        return Ok(false);
    }
    if !runs_numbers(alloc, program, &x)? {
        return Ok(false);
    }
    if !takes_texts(alloc, program, &x)? {
        return Ok(false);
    }
    if !starts_texts(alloc, program, &x)? {
        return Ok(false);
    }
    if !types_stand(alloc, program, &x)? {
        return Ok(false);
    }
    if !places_stand(alloc, program, &x)? {
        return Ok(false);
    }
    if !calls_own(&x) {
        return Ok(false);
    }
    Ok(all_stands_apart(program, &x))
}
