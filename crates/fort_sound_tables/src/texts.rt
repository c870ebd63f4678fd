//! The bodies of the prelude, as a program with these numbers has them.
ghost use Rattle.std.specs.Prelude.{◌≡◌, ◌∷◌, [], IfOk, None, pos};
ghost use Rattle.fort_core.specs.declared.form.Mode.TheVariants as mode;
ghost use Rattle.fort_core.specs.declared.form.Slot.TheVariants as slot;
ghost use Rattle.fort_core.specs.declared.term.Term as term;
ghost use Rattle.fort_core.specs.declared.term.Term.TheVariants.{Variable};
ghost use Rattle.fort_core.specs.declared.value.Value.{Small};
ghost use Rattle.fort_base.specs.declared.ty.Ty.TheVariants.{Any, Named};
ghost use Rattle.fort_machine.specs.Acts.{unit};
ghost use Rattle.fort_threads_law_servers.specs.Prelude.{adding_it, counting, linking, refusing, serving, taking, taking_else, taking_from};
ghost use Rattle.fort_threads_law_servers.specs.Roots.{making_first};
ghost use Rattle.fort_threads_law_servers.specs.Trees.{tree_term, unread};
ghost use Rattle.fort_threads_law_tables.specs.Texts as text;
ghost use Rattle.fort_sound_tables.specs.Numbers.{names, start};

use crate::forms::{
    apply, atomic, call, call_none, choice, local, nothing, number, operator, read, read_field,
    then, throw, try_with, two, typecase, write, write_field,
};
use crate::numbers::Numbers;
use fort_base::{Loc, Memory, SetId, Shared, Ty};
use fort_core::{Order, Span, Term, Value};
use std::alloc::Global;

/// `wait`: `atomic if state' = 0 then abort() end`.
pub(crate) fn wait_text(alloc: Global, x: &Numbers) -> Result<Term, Memory>
    ensures { IfOk result (λ t. t ≡ text.wait_text (names x.now)) }
{
    let state = read_field(alloc, Term::Variable(0), x.fields.state)?;
    let test = operator(alloc, x.sets.equal, state, number(0))?;
    let whole = choice(alloc, test, call_none(alloc, x.sets.abort), nothing(alloc)?)?;
    atomic(alloc, whole)
}

/// `ready`: `state' =/= 0`.
pub(crate) fn ready_text(alloc: Global, x: &Numbers) -> Result<Term, Memory>
    ensures { IfOk result (λ t. t ≡ text.ready_text (names x.now)) }
{
    let state = read_field(alloc, Term::Variable(0), x.fields.state)?;
    operator(alloc, x.sets.differs, state, number(0))
}

/// `val`: `self.wait()`, and behind it what was kept, or its throw.
pub(crate) fn val_text(alloc: Global, x: &Numbers) -> Result<Term, Memory>
    ensures { IfOk result (λ t. t ≡ text.val_text (names x.now)) }
{
    let state = read_field(alloc, Term::Variable(0), x.fields.state)?;
    let test = operator(alloc, x.sets.equal, state, number(2))?;
    let thrown = throw(alloc, Term::Variable(1))?;
    let kept = read_field(alloc, Term::Variable(0), x.fields.value)?;
    let exception = Ty::Named(x.types.exception);
    let again = typecase(alloc, kept, thrown, exception, Term::Variable(1))?;
    let value = read_field(alloc, Term::Variable(0), x.fields.value)?;
    let rest = choice(alloc, test, again, value)?;
    then(alloc, call(alloc, x.sets.wait, Term::Variable(0))?, rest)
}

// `if count' = 64 then throw TooManyThreads end`
fn refuses(alloc: Global, x: &Numbers) -> Result<Term, Memory>
    ensures { IfOk result (λ t. t ≡ refusing (names x.now)
        (term.Operator x.now.sets.equal (term.Read (slot.Location x.now.places.count)
        ∷ term.Value (Small (pos 64)) ∷ []))) }
{
    let full = operator(alloc, x.sets.equal, read(x.places.count), number(64))?;
    let refusal = Term::Value(Value::Object(x.types.refusal, x.places.refusal));
    choice(alloc, full, throw(alloc, refusal)?, nothing(alloc)?)
}

// `t'.next' := queue'; queue' := t'`
fn links(alloc: Global, x: &Numbers) -> Result<Term, Memory>
    ensures { IfOk result (λ t. t ≡ linking (names x.now) (Variable 1)) }
{
    let queue = read(x.places.queue);
    let behind = write_field(alloc, Term::Variable(1), x.fields.next, queue)?;
    then(
        alloc,
        behind,
        write(alloc, x.places.queue, Term::Variable(1))?,
    )
}

// `x += 1` of a variable at the top.
fn raise(alloc: Global, plus: SetId, x: Loc) -> Result<Term, Memory>
    ensures { IfOk result (λ t. t ≡ term.Write (slot.Location x)
        (term.Operator plus (term.Read (slot.Location x) ∷ term.Value (Small (pos 1)) ∷ []))) }
{
    write(alloc, x, operator(alloc, plus, read(x), number(1))?)
}

// What `spawn'` does with a new thread, which the variable 1 stands for.
fn adding(alloc: Global, x: &Numbers) -> Result<Term, Memory>
    ensures { IfOk result (λ t. t ≡ adding_it (names x.now) (Variable 1)) }
{
    let refused = refuses(alloc, x)?;
    let counted = raise(alloc, x.sets.plus, x.places.count)?;
    let opened = raise(alloc, x.sets.plus, x.places.unended)?;
    let last = then(alloc, opened, links(alloc, x)?)?;
    let rest = then(alloc, counted, last)?;
    then(alloc, refused, rest)
}

/// `spawn'`: `t': Thread' = Thread'(b'); atomic ..; t'`.
pub(crate) fn spawn_text(alloc: Global, x: &Numbers) -> Result<Term, Memory>
    ensures { IfOk result (λ t. t ≡ text.spawn_text (names x.now)) }
{
    let made = call(alloc, x.sets.make, Term::Variable(0))?;
    let added = atomic(alloc, adding(alloc, x)?)?;
    let rest = then(alloc, added, Term::Variable(1))?;
    local(alloc, 1, Ty::Named(x.types.thread), made, rest)
}

// `if open' > 0 then abort() end`
fn gives_up(alloc: Global, x: &Numbers) -> Result<Term, Memory>
    ensures { IfOk result (λ t. t ≡ taking_else (names x.now)) }
{
    let some = operator(alloc, x.sets.greater, read(x.places.unended), number(0))?;
    choice(alloc, some, call_none(alloc, x.sets.abort), nothing(alloc)?)
}

// `typecase x' = q' of Thread' => queue' := x'.next'; else => .. end`
fn takes_off(alloc: Global, x: &Numbers) -> Result<Term, Memory>
    ensures { IfOk result (λ t. t ≡ taking_from (names x.now) (Variable 0)) }
{
    let next = read_field(alloc, Term::Variable(1), x.fields.next)?;
    let goes_on = write(alloc, x.places.queue, next)?;
    let thread = Ty::Named(x.types.thread);
    typecase(
        alloc,
        Term::Variable(0),
        goes_on,
        thread,
        gives_up(alloc, x)?,
    )
}

/// `take'`: `atomic ..`.
pub(crate) fn take_text(alloc: Global, x: &Numbers) -> Result<Term, Memory>
    ensures { IfOk result (λ t. t ≡ term.Atomic mode.Atomic (taking (names x.now))) }
{
    let rest = then(alloc, takes_off(alloc, x)?, Term::Variable(0))?;
    atomic(alloc, local(alloc, 0, Ty::Any, read(x.places.queue), rest)?)
}

// `t'.value' := a; t'.state' := k`
fn storing(alloc: Global, x: &Numbers, a: u32, k: i32) -> Result<Term, Memory>
    ensures { IfOk result (λ t. t ≡ term.Then
        (term.WriteField (Variable 0) x.now.fields.value (Variable a))
        (term.WriteField (Variable 0) x.now.fields.state (term.Value (Small k)))) }
{
    let value = write_field(alloc, Term::Variable(0), x.fields.value, Term::Variable(a))?;
    let state = write_field(alloc, Term::Variable(0), x.fields.state, number(k))?;
    then(alloc, value, state)
}

// `try r': Any = (t'.body')(); .. catch e' Exception => .. end`
fn tries(alloc: Global, x: &Numbers) -> Result<Term, Memory>
    ensures { IfOk result (λ t. t ≡ term.Try
        (term.Let ((1, Any) ∷ [])
        (term.Apply (term.ReadField (Variable 0) x.now.fields.body) (term.Value unit))
        (text.storing_text (names x.now) (Variable 1) 1))
        2 ((text.storing_text (names x.now) (Variable 2) 2, Named x.now.types.exception) ∷ [])
        None) }
{
    let body = read_field(alloc, Term::Variable(0), x.fields.body)?;
    let called = apply(alloc, body, nothing(alloc)?)?;
    let kept = local(alloc, 1, Ty::Any, called, storing(alloc, x, 1, 1)?)?;
    try_with(
        alloc,
        kept,
        storing(alloc, x, 2, 2)?,
        Ty::Named(x.types.exception),
    )
}

// `atomic open' -= 1`
fn counts(alloc: Global, x: &Numbers) -> Result<Term, Memory>
    ensures { IfOk result (λ t. t ≡ counting (names x.now)) }
{
    let one_less = operator(alloc, x.sets.minus, read(x.places.unended), number(1))?;
    atomic(alloc, write(alloc, x.places.unended, one_less)?)
}

/// `go'`: `try r': Any = (t'.body')(); .. catch e' Exception => .. end; atomic open' -= 1`.
pub(crate) fn go_text(alloc: Global, x: &Numbers) -> Result<Term, Memory>
    ensures { IfOk result (λ t. t ≡ text.go_text (names x.now)) }
{
    let tried = tries(alloc, x)?;
    then(alloc, tried, counts(alloc, x)?)
}

/// `serve'`: `q': Any = take'(); typecase x' = q' of Thread' => go'(x'); else => () end`.
pub(crate) fn serve_text(alloc: Global, x: &Numbers) -> Result<Term, Memory>
    ensures { IfOk result (λ t. t ≡ serving (names x.now) (term.Call x.now.sets.take [])) }
{
    let goes = call(alloc, x.sets.go, Term::Variable(1))?;
    let thread = Ty::Named(x.types.thread);
    let chosen = typecase(alloc, Term::Variable(0), goes, thread, nothing(alloc)?)?;
    local(alloc, 0, Ty::Any, call_none(alloc, x.sets.take), chosen)
}

// `for i' <- 0#64 do serve'() end`
fn servers(alloc: Global, x: &Numbers) -> Result<Term, Memory>
    ensures { IfOk result (λ t. t ≡ tree_term (names x.now) unread) }
{
    let range = operator(alloc, x.sets.hash, number(0), number(64))?;
    Ok(Term::For(
        Order::Parallel,
        Span::Whole,
        2,
        Shared::new(alloc, range)?,
        Shared::new(alloc, call_none(alloc, x.sets.serve))?,
    ))
}

// `m': Thread' = Thread'(b')`, and what is behind it.
fn making(alloc: Global, x: &Numbers) -> Result<Term, Memory>
    ensures { IfOk result (λ t. t ≡ making_first (names x.now)
        (term.Call x.now.sets.make (Variable 0 ∷ []))) }
{
    let goes = call(alloc, x.sets.go, Term::Variable(1))?;
    let beside = Term::Also(two(alloc, goes, servers(alloc, x)?)?);
    let asked = call(alloc, x.sets.val, Term::Variable(1))?;
    let last = local(alloc, 3, Ty::Any, asked, nothing(alloc)?)?;
    let rest = then(alloc, beside, last)?;
    let made = call(alloc, x.sets.make, Term::Variable(0))?;
    local(alloc, 1, Ty::Named(x.types.thread), made, rest)
}

/// `main'`: `if started' then b'() else ..`.
pub(crate) fn main_text(alloc: Global, x: &Numbers) -> Result<Term, Memory>
    ensures { IfOk result (λ t. t ≡ text.main_text (names x.now) (start x.now)) }
{
    let again = apply(alloc, Term::Variable(0), nothing(alloc)?)?;
    let begun = write(alloc, x.places.started, Term::Value(Value::Truth(true)))?;
    let opened = write(alloc, x.places.unended, number(1))?;
    let first = then(alloc, opened, making(alloc, x)?)?;
    let otherwise = then(alloc, begun, first)?;
    choice(alloc, read(x.places.started), again, otherwise)
}

/// `run`: `main'(fn () => run'())`.
pub(crate) fn run_text(alloc: Global, x: &Numbers) -> Result<Term, Memory>
    ensures { IfOk result (λ t. t ≡ term.Call x.now.sets.main (term.Value x.now.function ∷ [])) }
{
    call(alloc, x.sets.main, Term::Value(x.function.share()?))
}
