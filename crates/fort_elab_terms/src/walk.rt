//! The walk over a form: a stack of tasks, and one loop.
ghost use Rattle.std.specs.Prelude.{◌≡◌, IfOk, OnOk};
ghost use Rattle.fort_elab_tasks.specs.Builds.{built};
ghost use Rattle.fort_elab_tasks.specs.Forms.{see};
ghost use Rattle.fort_elab_tasks.specs.States.{scope_of};
ghost use Rattle.fort_elab_tasks.specs.Tasks.{on, run};
ghost use Rattle.fort_elab_meaning.specs.Read.{given_of};
ghost use Rattle.fort_elab_meaning.specs.Translated.{translated};

use crate::inside::inside;
use crate::rows::{loops, row, tests};
use fort_base::{Memory, Shared};
use fort_base_stack::Stack;
use fort_core::Term;
use fort_elab_build::{build_leaf, build_list, build_one, build_three, build_two};
use fort_elab_meaning::{Counter, Known};
use fort_elab_tasks::{Build, Names, State, Task};
use fort_form_typed::TypedForm;
use std::alloc::Global;

/// A term is built of the last finished ones.
fn build(alloc: Global, known: &Known, build: Build, state: &mut State) -> Result<(), Memory>
    ensures { OnOk result (state.new ≡ built (given_of known.now) build.entry state.old) }
{
    match build {
        Build::Leaf(leaf) => build_leaf(alloc, known, leaf, state),
        Build::One(one) => build_one(alloc, known, one, state),
        Build::Two(two) => build_two(alloc, known, two, state),
        Build::Three(three) => build_three(alloc, known, three, state),
        Build::Whole(whole) => build_list(alloc, known, whole, state),
    }
}

/// Does a task.
#[tactic(auto, using(fort_elab_tasks::proofs::Done::sees))]
fn step<'a>(
    alloc: Global,
    known: &Known,
    task: Task<'a>,
    tasks: &mut Stack<Task<'a>>,
    state: &mut State,
) -> Result<(), Memory>
    ensures { OnOk result (run (given_of known.now) tasks.new state.new
        ≡ run (given_of known.now) tasks.old (on (given_of known.now) task.entry state.old)) }
{
    match task {
        Task::See(form) => inside(form, tasks),
        Task::Row(what, forms) => row(what, forms, tasks),
        Task::Loops(names, sources, body) => loops(names, sources, body, tasks),
        Task::Tests(test, asked, values, other) => tests(test, asked, values, other, tasks),
        Task::Open => state.open(alloc),
        Task::Gather => state.gather(),
        Task::Number => state.number(),
        Task::Function => state.function(),
        Task::Find(name) => state.find(name),
        Task::Name(name) => state.name(name),
        Task::Names(names) => state.names(names),
        Task::Parameters(parameters) => state.parameters(parameters),
        Task::Leave(count) => {
            state.leave(count);
            Ok(())
        }
        Task::Build(what) => build(alloc, known, what, state),
    }
}

/// Goes through a form, whose term comes on top.
fn walk(alloc: Global, known: &Known, form: &TypedForm, state: &mut State) -> Result<(), Memory>
    ensures { OnOk result (state.new ≡ see (given_of known.now) form.now state.old) }
{
    let mut tasks = Stack::new(alloc);
    tasks.push(Task::See(form))?;
    'tasks: for _ in 0..u64::MAX {
        match tasks.pop() {
            None => return Ok(()),
            Some(task) => step(alloc, known, task, &mut tasks, state)?,
        }
    }
    Err(Memory)
}

/// The term of a form with these names in scope, this variable of the receiver, and these next
/// numbers; and the number of the next function behind it.
///
/// # Errors
///
/// `Memory` where memory is wanting, where a number in the form is no ZZ64, or where it has more
/// variables or functions than there are numbers for them.
pub fn term(
    alloc: Global,
    known: &Known,
    names: Names,
    receiver: u32,
    counter: Counter,
    form: &TypedForm,
) -> Result<(Shared<Term>, u32), Memory>
    ensures { IfOk result
        (λ made. (made.0
        ≡ (translated (given_of known.now) form.now
        (record { names = names; receiver = receiver }) counter).term)
        × (made.1
        ≡ (translated (given_of known.now) form.now
        (record { names = names; receiver = receiver }) counter).counter.function)) }
{
    let mut state = State::new(alloc, names, receiver, counter);
    walk(alloc, known, form, &mut state)?;
    let term = state.take()?;
    Ok((term, state.counter.function))
}
