//! What is to be done for a form. The chapter "Forms" of docs/TRANSLATION.md, row by row.
ghost use Rattle.std.specs.Prelude.{◌≡◌, OnOk};
ghost use Rattle.fort_form_typed.specs.declared.typed_form.TypedForm.{out-TypedForm};
ghost use Rattle.fort_elab_tasks.specs.declared.state.State.{State};
ghost use Rattle.fort_elab_tasks.specs.Forms.{case_done, chain_done, does, reduce_done};
ghost use Rattle.fort_elab_tasks.specs.Tasks.{run};
ghost use Rattle.fort_elab_meaning.specs.Parts.{Given};

use crate::blocks::{attempt, function, local, locals, typecase};
use crate::pushing::{behind, build, many, one, two};
use crate::targets::{assign, update};
use crate::types::type_of;
use fort_base::{Boxed, List, Memory, NameId, SetId, Ty};
use fort_base_stack::Stack;
use fort_core::Mode;
use fort_elab_tasks::{Build, Leaf, One, Row, Task, Test, Two, Whole};
use fort_form::Reduction;
use fort_form_typed::{Chosen, TypedForm};

/// What is to be done for a form.
pub(crate) fn inside<'a>(form: &'a TypedForm, tasks: &mut Stack<Task<'a>>) -> Result<(), Memory>
    ensures { OnOk result ((g : Given) (s : State)
        → run g tasks.new s ≡ run g tasks.old (does g (out-TypedForm form.now) s)) }
{
    match form {
        TypedForm::Number(_, n) => build(Build::Leaf(Leaf::Number(*n)), tasks),
        TypedForm::Text(_, n) => build(Build::Leaf(Leaf::Text(*n)), tasks),
        TypedForm::Truth(_, truth) => build(Build::Leaf(Leaf::Truth(*truth)), tasks),
        TypedForm::Tuple(_, parts) => many(Whole::Group, parts, tasks),
        TypedForm::Local(_, name, mutable) => {
            build(Build::Leaf(Leaf::Variable(*mutable)), tasks)?;
            tasks.push(Task::Find(*name))
        }
        TypedForm::Top(_, n) => build(Build::Leaf(Leaf::Top(*n)), tasks),
        TypedForm::Single(_, id) => build(Build::Leaf(Leaf::Single(*id)), tasks),
        TypedForm::Receiver(_) => build(Build::Leaf(Leaf::Receiver), tasks),
        TypedForm::ReadField(_, object, field) => one(One::ReadField(*field), object.get(), tasks),
        TypedForm::ReadElement(_, array, index) => {
            two(Two::ReadElement, array.get(), index.get(), tasks)
        }
        TypedForm::Size(_, array) => one(One::Size, array.get(), tasks),
        TypedForm::Fill(_, elements, size, value) => {
            two(Two::Fill(elements), size.get(), value.get(), tasks)
        }
        TypedForm::Call(_, chosen, parts) => many(Whole::Call(chosen), parts, tasks),
        TypedForm::Operation(_, chosen, parts) => many(Whole::Operation(chosen), parts, tasks),
        TypedForm::Chain(_, set, calls, sides) => chain(*set, calls, sides, tasks),
        TypedForm::Apply(_, function, argument) => {
            two(Two::Apply, function.get(), argument.get(), tasks)
        }
        TypedForm::Fn(_, parameters, body) => function(parameters, body.get(), tasks),
        TypedForm::Block(_, items) => tasks.push(Task::Row(Row::Items, items.as_slice())),
        TypedForm::Bind(_, name, mutable, ty, initial) => {
            local(*name, *mutable, ty, initial.get(), &[], tasks)
        }
        TypedForm::Binds(_, names, tuple) => locals(names, tuple.get(), &[], tasks),
        TypedForm::Also(_, blocks) => many(Whole::Also, blocks, tasks),
        TypedForm::If(_, tests, blocks, other) => {
            let (tests, blocks) = (tests.as_slice(), blocks.as_slice());
            tasks.push(Task::Tests(Test::True, tests, blocks, other))
        }
        TypedForm::While(_, test, block) => two(Two::While, test.get(), block.get(), tasks),
        TypedForm::For(_, names, sources, block) => {
            tasks.push(Task::Loops(names.as_slice(), sources.as_slice(), block.get()))
        }
        TypedForm::Case(_, subject, calls, tests, values, other) => {
            case(subject.get(), calls, tests, values, other, tasks)
        }
        TypedForm::Typecase(_, name, subject, types, values, other) => {
            typecase(*name, subject.get(), types, values, other, tasks)
        }
        TypedForm::Try(_, block, name, types, values, last) => {
            attempt(block.get(), *name, types, values, last, tasks)
        }
        TypedForm::Atomic(_, body) => one(One::Atomic(Mode::Atomic), body.get(), tasks),
        TypedForm::Tryatomic(_, body) => one(One::Atomic(Mode::Try), body.get(), tasks),
        TypedForm::Throw(_, thrown) => one(One::Throw, thrown.get(), tasks),
        TypedForm::Reduce(ty, reduction, set, name, sequential, source, body) => {
            let how = Two::Reduce(*sequential, *set, *reduction, ty);
            reduce(how, *name, source.get(), body.get(), tasks)
        }
        TypedForm::Assign(_, target, value) => assign(target.get(), value.get(), tasks),
        TypedForm::Update(_, target, chosen, value) => {
            update(target.get(), chosen, value.get(), tasks)
        }
    }
}

/// A chain of one relation is a call of its operator; one of two or more has a local for each
/// side.
fn chain<'a>(
    set: SetId,
    calls: &'a List<Chosen>,
    sides: &'a List<TypedForm>,
    tasks: &mut Stack<Task<'a>>,
) -> Result<(), Memory>
    ensures { OnOk result ((g : Given) (s : State)
        → run g tasks.new s ≡ run g tasks.old (chain_done g set calls.now sides.now s)) }
{
    match calls.as_slice() {
        [call] => many(Whole::Operation(call), sides, tasks),
        _ => {
            let row = Row::Sides(set, calls.as_slice(), 0);
            tasks.push(Task::Row(row, sides.as_slice()))
        }
    }
}

/// A `case`: its subject is a local, and then come its clauses.
fn case<'a>(
    subject: &'a TypedForm,
    calls: &'a List<Chosen>,
    tests: &'a List<TypedForm>,
    values: &'a List<TypedForm>,
    other: &'a Option<Boxed<TypedForm>>,
    tasks: &mut Stack<Task<'a>>,
) -> Result<(), Memory>
    ensures { OnOk result ((g : Given) (s : State)
        → run g tasks.new s
        ≡ run g tasks.old
        (case_done g subject.now calls.now tests.now values.now other.now s)) }
{
    tasks.push(Task::Build(Build::Two(Two::Let(type_of(subject)))))?;
    let (tests, values) = (tests.as_slice(), values.as_slice());
    tasks.push(Task::Tests(Test::Equal(calls.as_slice()), tests, values, other))?;
    behind(subject, Task::Number, tasks)
}

/// A reduction.
fn reduce<'a>(
    how: Two<'a>,
    name: NameId,
    source: &'a TypedForm,
    body: &'a TypedForm,
    tasks: &mut Stack<Task<'a>>,
) -> Result<(), Memory>
    ensures { OnOk result ((g : Given) (s : State)
        → run g tasks.new s
        ≡ run g tasks.old (reduce_done g how.entry name source.now body.now s)) }
{
    tasks.push(Task::Build(Build::Two(how)))?;
    tasks.push(Task::Leave(1))?;
    tasks.push(Task::See(body))?;
    behind(source, Task::Name(name), tasks)
}
