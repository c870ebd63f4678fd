//! Tasks of several forms: the first of them, and a task for the others.
ghost use Rattle.std.specs.Prelude.{◌≡◌, ◌+◌, OnOk};
ghost use Rattle.fort_elab_tasks.specs.declared.state.State.{State};
ghost use Rattle.fort_elab_tasks.specs.States.{each, latest, newest, said};
ghost use Rattle.fort_elab_tasks.specs.Forms.{items_done};
ghost use Rattle.fort_elab_tasks.specs.Tasks.{makers, other, parts, row_done, run, tests_done};
ghost use Rattle.fort_elab_meaning.specs.Calls.{sides as sides_of};
ghost use Rattle.fort_elab_meaning.specs.Choices.{branches as branches_of, clauses as clauses_of};
ghost use Rattle.fort_elab_meaning.specs.Items.{loops as loops_of};
ghost use Rattle.fort_elab_meaning.specs.Parts.{Given};
ghost use Rattle.fort_elab_meaning.specs.Translated.{translated};
ghost use Rattle.fort_elab_meaning.specs.Values.{no_match, unit_term};

use crate::blocks::item;
use crate::pushing::{behind, build, one, or_leaf};
use crate::types::type_of;
use fort_base::{Boxed, Memory, NameId, SetId};
use fort_base_stack::Stack;
use fort_elab_tasks::{Build, Leaf, One, Row, Task, Test, Three, Two};
use fort_form_typed::{Chosen, TypedForm};

/// Forms one after another.
pub(crate) fn row<'a>(
    row: Row<'a>,
    forms: &'a [TypedForm],
    tasks: &mut Stack<Task<'a>>,
) -> Result<(), Memory>
    ensures { OnOk result ((g : Given) (s : State)
        → run g tasks.new s ≡ run g tasks.old (row_done g row.entry forms.now s)) }
{
    match row {
        Row::List => list(forms, tasks),
        Row::Items => items(forms, tasks),
        Row::Sides(set, calls, count) => sides(set, calls, count, forms, tasks),
    }
}

/// Forms whose terms go to the last list.
#[tactic(auto, using(fort_elab_tasks::proofs::Done::none_each, fort_elab_tasks::proofs::Done::more_each))]
fn list<'a>(forms: &'a [TypedForm], tasks: &mut Stack<Task<'a>>) -> Result<(), Memory>
    ensures { OnOk result ((g : Given) (s : State)
        → run g tasks.new s ≡ run g tasks.old (each (makers g forms.now) s)) }
{
    match forms.split_first() {
        None => Ok(()),
        Some((form, rest)) => {
            tasks.push(Task::Row(Row::List, rest))?;
            tasks.push(Task::Gather)?;
            tasks.push(Task::See(form))
        }
    }
}

/// The items of a block.
#[tactic(auto, using(fort_elab_tasks::proofs::Done::item_is))]
fn items<'a>(items: &'a [TypedForm], tasks: &mut Stack<Task<'a>>) -> Result<(), Memory>
    ensures { OnOk result ((g : Given) (s : State)
        → run g tasks.new s ≡ run g tasks.old (items_done g items.now s)) }
{
    match items.split_first() {
        None => build(Build::Leaf(Leaf::Unit), tasks),
        Some((first, rest)) => match rest.split_first() {
            None => tasks.push(Task::See(first)),
            Some(_) => item(first, rest, tasks),
        },
    }
}

/// The sides of a chain that are left, behind so many.
#[tactic(auto, using(crate::proofs::Sides::next_side))]
fn sides<'a>(
    set: SetId,
    calls: &'a [Chosen],
    count: usize,
    forms: &'a [TypedForm],
    tasks: &mut Stack<Task<'a>>,
) -> Result<(), Memory>
    ensures { OnOk result ((g : Given) (s : State)
        → run g tasks.new s
        ≡ run g tasks.old
        (said (sides_of g set calls.now (parts g forms.now) (latest count s.numbers)) s)) }
{
    match forms.split_first() {
        None => build(Build::Leaf(Leaf::Comparisons(set, calls, count)), tasks),
        Some((form, rest)) => {
            let next = match count.checked_add(1) {
                Some(next) => next,
                None => return Err(Memory),
            };
            tasks.push(Task::Build(Build::Two(Two::Let(type_of(form)))))?;
            tasks.push(Task::Row(Row::Sides(set, calls, next), rest))?;
            behind(form, Task::Number, tasks)
        }
    }
}

/// Tests with what each gives, and the `else`.
pub(crate) fn tests<'a>(
    test: Test<'a>,
    tests: &'a [TypedForm],
    values: &'a [TypedForm],
    other: &'a Option<Boxed<TypedForm>>,
    tasks: &mut Stack<Task<'a>>,
) -> Result<(), Memory>
    ensures { OnOk result ((g : Given) (s : State)
        → run g tasks.new s
        ≡ run g tasks.old (tests_done g test.entry tests.now values.now other.now s)) }
{
    match test {
        Test::True => branches(tests, values, other, tasks),
        Test::Equal(calls) => clauses(calls, tests, values, other, tasks),
    }
}

/// Conditions with their blocks, and the `else`.
#[tactic(auto, using(fort_elab_tasks::proofs::Done::unit_else))]
fn branches<'a>(
    tests: &'a [TypedForm],
    blocks: &'a [TypedForm],
    last: &'a Option<Boxed<TypedForm>>,
    tasks: &mut Stack<Task<'a>>,
) -> Result<(), Memory>
    ensures { OnOk result ((g : Given) (s : State)
        → run g tasks.new s
        ≡ run g tasks.old
        (said (branches_of (parts g tests.now) (parts g blocks.now)
        (other g last.now unit_term)) s)) }
{
    match tests.split_first() {
        None => or_leaf(last, Leaf::Unit, tasks),
        Some((test, tests)) => match blocks.split_first() {
            None => or_leaf(last, Leaf::Unit, tasks),
            Some((block, blocks)) => {
                tasks.push(Task::Build(Build::Three(Three::If)))?;
                tasks.push(Task::Tests(Test::True, tests, blocks, last))?;
                tasks.push(Task::See(block))?;
                tasks.push(Task::See(test))
            }
        },
    }
}

/// The clauses of a `case` whose subject is the variable of the newest number.
#[tactic(auto, using(fort_elab_tasks::proofs::Done::throw_else))]
fn clauses<'a>(
    calls: &'a [Chosen],
    tests: &'a [TypedForm],
    values: &'a [TypedForm],
    last: &'a Option<Boxed<TypedForm>>,
    tasks: &mut Stack<Task<'a>>,
) -> Result<(), Memory>
    ensures { OnOk result ((g : Given) (s : State)
        → run g tasks.new s
        ≡ run g tasks.old
        (said (clauses_of g calls.now (parts g tests.now) (parts g values.now)
        (other g last.now (no_match g)) (newest s.numbers)) s)) }
{
    match (
        calls.split_first(),
        tests.split_first(),
        values.split_first(),
    ) {
        (Some((call, calls)), Some((test, tests)), Some((value, values))) => {
            tasks.push(Task::Build(Build::Three(Three::If)))?;
            tasks.push(Task::Tests(Test::Equal(calls), tests, values, last))?;
            tasks.push(Task::See(value))?;
            one(One::Compare(call), test, tasks)
        }
        _ => or_leaf(last, Leaf::NoMatch, tasks),
    }
}

/// Generators, and the body.
pub(crate) fn loops<'a>(
    names: &'a [(NameId, bool)],
    sources: &'a [TypedForm],
    body: &'a TypedForm,
    tasks: &mut Stack<Task<'a>>,
) -> Result<(), Memory>
    ensures { OnOk result ((g : Given) (s : State)
        → run g tasks.new s
        ≡ run g tasks.old
        (said (loops_of names.now (parts g sources.now) (translated g body.now)) s)) }
{
    match names.split_first() {
        None => tasks.push(Task::See(body)),
        Some((name, names)) => match sources.split_first() {
            None => tasks.push(Task::See(body)),
            Some((source, sources)) => {
                tasks.push(Task::Build(Build::Two(Two::For(name.1))))?;
                tasks.push(Task::Leave(1))?;
                tasks.push(Task::Loops(names, sources, body))?;
                behind(source, Task::Name(name.0), tasks)
            }
        },
    }
}
