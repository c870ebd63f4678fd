//! Whether terms and values leave the prelude's own names alone.
ghost use Rattle.std.specs.Prelude.{◌≡◌, IsTrue, false, []};
ghost use Rattle.fort_core.specs.declared.term.Term.TheOpen.{Value-F};
ghost use Rattle.std.specs.Option.{option_to_list};
ghost use Rattle.fort_machine.specs.Parts.{in_clauses};
ghost use Rattle.fort_machine.specs.Scopes.{is_among};
ghost use Rattle.fort_threads_law_private.specs.Private.{LeadsToOpen, SlotIsOpen};
ghost use Rattle.fort_threads_law_private.specs.Grounds.{AreOpen};
ghost use Rattle.fort_sound_tables.specs.Leaves.{AllLeave, AllLeaveValues, Leaves, LeavesValue, ground_of, own_fields, own_sets};
ghost use Rattle.fort_sound_tables.specs.Numbers.{names};

use crate::numbers::Numbers;
use crate::opening::is_open;
use fort_base::{List, Loc, NameId, SetId, Shared, Ty, TypeId};
use fort_core::{Closure, Program, Slot, Span, Term, Value};

/// Whether the prelude alone calls a set.
pub(crate) fn is_own_set(x: &Numbers, set: SetId) -> bool
    ensures { result ≡ is_among set.0 (own_sets x.now) }
{
    set.0 == x.sets.serve.0
        || set.0 == x.sets.take.0
        || set.0 == x.sets.go.0
        || set.0 == x.sets.make.0
        || set.0 == x.sets.main.0
}

// Whether the prelude alone uses a field.
fn is_own_field(x: &Numbers, field: NameId) -> bool
    ensures { result ≡ is_among field.0 (own_fields x.now) }
{
    field.0 == x.fields.body.0
        || field.0 == x.fields.state.0
        || field.0 == x.fields.value.0
        || field.0 == x.fields.next.0
}

// Whether a variable's location is for the component.
fn slot_is_open(program: &Program, x: &Numbers, slot: Slot) -> bool
    ensures { IsTrue result → SlotIsOpen (ground_of program.now x.now) slot }
{
    match slot {
        Slot::Variable(_) => true,
        Slot::Location(location) => is_open(program, x, location.0),
    }
}

fn is_whole(span: Span) -> bool
    ensures { IsTrue result → span ≡ Span.Whole }
{
    match span {
        Span::Whole => true,
        Span::Part(_, _) => false,
    }
}

// Whether a reduction is over all its items, by another set than the prelude's own.
fn is_free(x: &Numbers, span: Span, set: SetId) -> bool
    ensures whole { IsTrue result → span ≡ Span.Whole }
    ensures other { IsTrue result → is_among set.0 (own_sets x.now) ≡ false }
{
    is_whole(span) && !is_own_set(x, set)
}

/// Whether a term leaves the prelude's own names alone, by the numbers of a program. It goes down
/// the term by calls.
#[cycle(leaves)]
pub(crate) fn leaves(program: &Program, x: &Numbers, term: &Term) -> bool
    ensures { IsTrue result → Leaves program.now x.now term.now }
{
    match term {
        Term::Value(value) => value_leaves(program, x, value),
        Term::Variable(_) => true,
        Term::Read(slot) => slot_is_open(program, x, *slot),
        Term::Fn(closure) => body_leaves(program, x, closure.get()),
        Term::Throw(part) => leaves(program, x, part.get()),
        Term::Size(part) => leaves(program, x, part.get()),
        Term::Atomic(_, part) => leaves(program, x, part.get()),
        Term::Stepped(part) => leaves(program, x, part.get()),
        Term::Write(slot, part) => slot_is_open(program, x, *slot)
            && leaves(program, x, part.get()),
        Term::ReadField(part, field) => !is_own_field(x, *field) && leaves(program, x, part.get()),
        Term::Asleep(_, _) => false,
        Term::Group(parts) => all_leave(program, x, parts),
        Term::Also(parts) => all_leave(program, x, parts),
        Term::Call(set, parts) => !is_own_set(x, *set) && all_leave(program, x, parts),
        Term::Operator(set, parts) => !is_own_set(x, *set) && all_leave(program, x, parts),
        other => two_leave(program, x, other),
    }
}

// The same of a form with two parts, or more.
#[cycle(leaves)]
fn two_leave(program: &Program, x: &Numbers, term: &Term) -> bool
    ensures { IsTrue result → Leaves program.now x.now term.now }
{
    match term {
        Term::Apply(a, b) => leaves(program, x, a.get()) && leaves(program, x, b.get()),
        Term::Fill(_, a, b) => leaves(program, x, a.get()) && leaves(program, x, b.get()),
        Term::Let(_, a, b) => leaves(program, x, a.get()) && leaves(program, x, b.get()),
        Term::Mutable(_, _, a, b) => leaves(program, x, a.get()) && leaves(program, x, b.get()),
        Term::ReadElement(a, b) => leaves(program, x, a.get()) && leaves(program, x, b.get()),
        Term::Then(a, b) => leaves(program, x, a.get()) && leaves(program, x, b.get()),
        Term::While(a, b) => leaves(program, x, a.get()) && leaves(program, x, b.get()),
        Term::ForHalves(a, b) => leaves(program, x, a.get()) && leaves(program, x, b.get()),
        Term::WriteField(a, field, b) => {
            if is_own_field(x, *field) {
                return false;
            }
            leaves(program, x, a.get()) && leaves(program, x, b.get())
        }
        Term::For(_, span, _, a, b) => {
            if !is_whole(*span) {
                return false;
            }
            leaves(program, x, a.get()) && leaves(program, x, b.get())
        }
        Term::ReduceHalves(set, a, b) => {
            if is_own_set(x, *set) {
                return false;
            }
            leaves(program, x, a.get()) && leaves(program, x, b.get())
        }
        other => more_leave(program, x, other),
    }
}

// The same of a form with clauses, or with three parts.
#[cycle(leaves)]
fn more_leave(program: &Program, x: &Numbers, term: &Term) -> bool
    ensures { IsTrue result → Leaves program.now x.now term.now }
{
    match term {
        Term::Typecase(_, a, clauses, b) => {
            if !clauses_leave(program, x, clauses) {
                return false;
            }
            leaves(program, x, a.get()) && leaves(program, x, b.get())
        }
        Term::Try(a, _, clauses, last) => {
            if !clauses_leave(program, x, clauses) {
                return false;
            }
            leaves(program, x, a.get()) && last_leaves(program, x, last)
        }
        Term::WriteElement(_, _, _) => write_element_leaves(program, x, term),
        Term::If(_, _, _) => if_leaves(program, x, term),
        Term::Reduce(_, _, _, _, _, _, _) => reduce_leaves(program, x, term),
        _ => false,
    }
}

#[cycle(leaves)]
fn write_element_leaves(program: &Program, x: &Numbers, term: &Term) -> bool
    ensures { IsTrue result → Leaves program.now x.now term.now }
{
    let Term::WriteElement(a, b, c) = term else {
        return false;
    };
    if !leaves(program, x, a.get()) {
        return false;
    }
    leaves(program, x, b.get()) && leaves(program, x, c.get())
}

#[cycle(leaves)]
fn if_leaves(program: &Program, x: &Numbers, term: &Term) -> bool
    ensures { IsTrue result → Leaves program.now x.now term.now }
{
    let Term::If(a, b, c) = term else {
        return false;
    };
    if !leaves(program, x, a.get()) {
        return false;
    }
    leaves(program, x, b.get()) && leaves(program, x, c.get())
}

#[cycle(leaves)]
fn reduce_leaves(program: &Program, x: &Numbers, term: &Term) -> bool
    ensures { IsTrue result → Leaves program.now x.now term.now }
{
    let Term::Reduce(_, span, set, a, _, b, c) = term else {
        return false;
    };
    if !is_free(x, *span, *set) {
        return false;
    }
    if !leaves(program, x, a.get()) {
        return false;
    }
    leaves(program, x, b.get()) && leaves(program, x, c.get())
}

// Whether a `finally` does, where there is one.
#[cycle(leaves)]
fn last_leaves(program: &Program, x: &Numbers, last: &Option<Shared<Term>>) -> bool
    ensures { IsTrue result → AllLeave program.now x.now (option_to_list last.now) }
{
    match last {
        None => true,
        Some(last) => leaves(program, x, last.get()),
    }
}

#[cycle(leaves)]
fn all_leave(program: &Program, x: &Numbers, terms: &List<Shared<Term>>) -> bool
    ensures { IsTrue result → AllLeave program.now x.now terms.now }
{
    for term in terms.as_slice() {
        if !leaves(program, x, term.get()) {
            return false;
        }
    }
    true
}

#[cycle(leaves)]
fn clauses_leave(program: &Program, x: &Numbers, clauses: &List<(Shared<Term>, Shared<Ty>)>) -> bool
    ensures { IsTrue result → AllLeave program.now x.now (in_clauses clauses.now) }
{
    for clause in clauses.as_slice() {
        if !leaves(program, x, clause.0.get()) {
            return false;
        }
    }
    true
}

// A function leaves them alone where it holds nothing, and its body does.
#[cycle(leaves)]
fn body_leaves(program: &Program, x: &Numbers, closure: &Closure) -> bool
    ensures held { IsTrue result → closure.now.held ≡ [] }
    ensures body { IsTrue result → Leaves program.now x.now closure.now.body }
{
    closure.held.is_empty() && leaves(program, x, closure.body.get())
}

/// Whether a value leaves the prelude's own names alone.
#[cycle(leaves)]
pub(crate) fn value_leaves(program: &Program, x: &Numbers, value: &Value) -> bool
    ensures { IsTrue result → LeavesValue program.now x.now value.now }
{
    match value {
        Value::Small(_) => true,
        Value::Large(_) => true,
        Value::Truth(_) => true,
        Value::Text(_) => true,
        Value::Range(_, _) => true,
        Value::Tuple(parts) => values_leave(program, x, parts.get()),
        Value::Object(ty, base) => object_leaves(program, x, *ty, *base),
        Value::Array(_, _, _) => false,
        Value::Function(closure) => body_leaves(program, x, closure.get()),
    }
}

#[cycle(leaves)]
fn values_leave(program: &Program, x: &Numbers, values: &List<Value>) -> bool
    ensures { IsTrue result → AllLeaveValues program.now x.now values.now }
{
    for value in values.as_slice() {
        if !value_leaves(program, x, value) {
            return false;
        }
    }
    true
}

// Whether the object of a type at a location is none of a thread, and all its fields are for the
// component.
fn object_leaves(program: &Program, x: &Numbers, ty: TypeId, base: Loc) -> bool
    ensures { IsTrue result → LeadsToOpen program.now (names x.now) (ground_of program.now x.now)
        (Value-F.Object ty base) }
{
    if ty.0 == x.types.thread.0 {
        return false;
    }
    match program.shapes.get(ty.0 as usize) {
        None => true,
        Some(shape) => are_open(program, x, base.0, shape.fields.len()),
    }
}

/// Whether as many locations from one on are for the component.
pub(crate) fn are_open(program: &Program, x: &Numbers, from: u64, count: usize) -> bool
    ensures { IsTrue result → AreOpen (ground_of program.now x.now) from count }
{
    for i in 0..count {
        match from.checked_add(i as u64) {
            None => return false,
            Some(location) => {
                if !is_open(program, x, location) {
                    return false;
                }
            }
        }
    }
    true
}
