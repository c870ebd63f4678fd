//! Forms of one part, of two, and of several.
ghost use Rattle.std.specs.Prelude.{◌≡◌, OnOk};
ghost use Rattle.fort_core.specs.declared.term.Term.{Term};
ghost use Rattle.fort_elab_tasks.specs.declared.state.State.{State};
ghost use Rattle.fort_elab_tasks.specs.Builds.{built, list_built, one_built, two_built};
ghost use Rattle.fort_elab_tasks.specs.Forms.{else_done, see};
ghost use Rattle.fort_elab_tasks.specs.States.{each, opened};
ghost use Rattle.fort_elab_tasks.specs.Tasks.{makers, on, run};
ghost use Rattle.fort_elab_meaning.specs.Parts.{Given};

use fort_base::{Boxed, List, Memory};
use fort_base_stack::Stack;
use fort_elab_tasks::{Build, Leaf, One, Row, Task, Two, Whole};
use fort_form_typed::TypedForm;

/// A term is built.
pub(crate) fn build<'a>(build: Build<'a>, tasks: &mut Stack<Task<'a>>) -> Result<(), Memory>
    ensures { OnOk result ((g : Given) (s : State)
        → run g tasks.new s ≡ run g tasks.old (built g build.entry s)) }
{
    tasks.push(Task::Build(build))
}

/// A part, and what goes on behind it.
pub(crate) fn behind<'a>(
    part: &'a TypedForm,
    task: Task<'a>,
    tasks: &mut Stack<Task<'a>>,
) -> Result<(), Memory>
    ensures { OnOk result ((g : Given) (s : State)
        → run g tasks.new s ≡ run g tasks.old (on g task.entry (see g part.now s))) }
{
    tasks.push(task)?;
    tasks.push(Task::See(part))
}

/// A form of one part.
pub(crate) fn one<'a>(
    one: One<'a>,
    part: &'a TypedForm,
    tasks: &mut Stack<Task<'a>>,
) -> Result<(), Memory>
    ensures { OnOk result ((g : Given) (s : State)
        → run g tasks.new s ≡ run g tasks.old (one_built g one.entry (see g part.now s))) }
{
    tasks.push(Task::Build(Build::One(one)))?;
    tasks.push(Task::See(part))
}

/// A form of two parts.
pub(crate) fn two<'a>(
    two: Two<'a>,
    first: &'a TypedForm,
    second: &'a TypedForm,
    tasks: &mut Stack<Task<'a>>,
) -> Result<(), Memory>
    ensures { OnOk result ((g : Given) (s : State)
        → run g tasks.new s
        ≡ run g tasks.old (two_built g two.entry (see g second.now (see g first.now s)))) }
{
    tasks.push(Task::Build(Build::Two(two)))?;
    tasks.push(Task::See(second))?;
    tasks.push(Task::See(first))
}

/// A form of several parts.
pub(crate) fn many<'a>(
    whole: Whole<'a>,
    parts: &'a List<TypedForm>,
    tasks: &mut Stack<Task<'a>>,
) -> Result<(), Memory>
    ensures { OnOk result ((g : Given) (s : State)
        → run g tasks.new s
        ≡ run g tasks.old (list_built g whole.entry (each (makers g parts.now) (opened s)))) }
{
    tasks.push(Task::Build(Build::Whole(whole)))?;
    tasks.push(Task::Row(Row::List, parts.as_slice()))?;
    tasks.push(Task::Open)
}

/// What stands behind `else`, or a term without parts where nothing does.
pub(crate) fn or_leaf<'a>(
    form: &'a Option<Boxed<TypedForm>>,
    leaf: Leaf<'a>,
    tasks: &mut Stack<Task<'a>>,
) -> Result<(), Memory>
    ensures { OnOk result ((g : Given) (s : State)
        → run g tasks.new s ≡ run g tasks.old (else_done g leaf.entry form.now s)) }
{
    match form {
        None => tasks.push(Task::Build(Build::Leaf(leaf))),
        Some(part) => tasks.push(Task::See(part.get())),
    }
}
