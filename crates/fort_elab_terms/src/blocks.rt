//! Blocks, functions, and what binds names. The chapter "Forms" of docs/TRANSLATION.md.
ghost use Rattle.std.specs.Prelude.{◌≡◌, OnOk};
ghost use Rattle.fort_form_typed.specs.declared.typed_form.TypedForm.{out-TypedForm};
ghost use Rattle.fort_elab_tasks.specs.declared.state.State.{State};
ghost use Rattle.fort_elab_tasks.specs.Forms.{catches, caught, fn_done, item_done, items_done, local_done, locals_done, released, see, try_done, types_done};
ghost use Rattle.fort_elab_tasks.specs.Tasks.{run};
ghost use Rattle.fort_elab_meaning.specs.Parts.{Given};

use crate::pushing::{behind, or_leaf};
use crate::types::type_of;
use fort_base::{Boxed, List, Memory, NameId, Ty};
use fort_base_stack::Stack;
use fort_elab_tasks::{Build, Leaf, One, Row, Task, Two, Whole};
use fort_form::Parameter;
use fort_form_typed::TypedForm;

/// A local variable, and the rest of its block.
pub(crate) fn local<'a>(
    name: NameId,
    mutable: bool,
    ty: &'a Ty,
    initial: &'a TypedForm,
    rest: &'a [TypedForm],
    tasks: &mut Stack<Task<'a>>,
) -> Result<(), Memory>
    ensures { OnOk result ((g : Given) (s : State)
        → run g tasks.new s
        ≡ run g tasks.old
        (local_done name mutable ty.now (items_done g rest.now) (see g initial.now s))) }
{
    if mutable {
        tasks.push(Task::Build(Build::Two(Two::Mutable(ty))))?;
    } else {
        tasks.push(Task::Build(Build::Two(Two::Let(ty))))?;
    }
    tasks.push(Task::Leave(1))?;
    tasks.push(Task::Row(Row::Items, rest))?;
    behind(initial, Task::Name(name), tasks)
}

/// Variables for the parts of a tuple, and the rest of their block.
pub(crate) fn locals<'a>(
    names: &'a List<(NameId, Ty)>,
    tuple: &'a TypedForm,
    rest: &'a [TypedForm],
    tasks: &mut Stack<Task<'a>>,
) -> Result<(), Memory>
    ensures { OnOk result ((g : Given) (s : State)
        → run g tasks.new s
        ≡ run g tasks.old (locals_done names.now (items_done g rest.now) (see g tuple.now s))) }
{
    tasks.push(Task::Build(Build::Two(Two::Lets(names.as_slice()))))?;
    tasks.push(Task::Leave(names.len()))?;
    tasks.push(Task::Row(Row::Items, rest))?;
    behind(tuple, Task::Names(names.as_slice()), tasks)
}

/// An item of a block, and the rest.
pub(crate) fn item<'a>(
    item: &'a TypedForm,
    rest: &'a [TypedForm],
    tasks: &mut Stack<Task<'a>>,
) -> Result<(), Memory>
    ensures { OnOk result ((g : Given) (s : State)
        → run g tasks.new s
        ≡ run g tasks.old (item_done g item.now rest.now (out-TypedForm item.now) s)) }
{
    match item {
        TypedForm::Bind(_, name, mutable, ty, initial) => {
            local(*name, *mutable, ty, initial.get(), rest, tasks)
        }
        TypedForm::Binds(_, names, tuple) => locals(names, tuple.get(), rest, tasks),
        _ => {
            tasks.push(Task::Build(Build::Two(Two::Then)))?;
            behind(item, Task::Row(Row::Items, rest), tasks)
        }
    }
}

/// A function.
pub(crate) fn function<'a>(
    parameters: &'a List<Parameter>,
    body: &'a TypedForm,
    tasks: &mut Stack<Task<'a>>,
) -> Result<(), Memory>
    ensures { OnOk result ((g : Given) (s : State)
        → run g tasks.new s ≡ run g tasks.old (fn_done g parameters.now body.now s)) }
{
    let slice = parameters.as_slice();
    tasks.push(Task::Build(Build::One(One::Function(slice, type_of(body)))))?;
    tasks.push(Task::Leave(parameters.len()))?;
    tasks.push(Task::See(body))?;
    tasks.push(Task::Parameters(slice))?;
    tasks.push(Task::Function)
}

/// A `typecase`.
pub(crate) fn typecase<'a>(
    name: NameId,
    subject: &'a TypedForm,
    types: &'a List<Ty>,
    values: &'a List<TypedForm>,
    other: &'a Option<Boxed<TypedForm>>,
    tasks: &mut Stack<Task<'a>>,
) -> Result<(), Memory>
    ensures { OnOk result ((g : Given) (s : State)
        → run g tasks.new s
        ≡ run g tasks.old (types_done g name subject.now types.now values.now other.now s)) }
{
    tasks.push(Task::Build(Build::Whole(Whole::Typecase(types.as_slice()))))?;
    tasks.push(Task::Leave(1))?;
    or_leaf(other, Leaf::NoMatch, tasks)?;
    tasks.push(Task::Row(Row::List, values.as_slice()))?;
    tasks.push(Task::Open)?;
    behind(subject, Task::Name(name), tasks)
}

/// What ends a `try`: its `finally`, where it has one.
fn ends<'a>(
    types: &'a List<Ty>,
    last: &'a Option<Boxed<TypedForm>>,
    tasks: &mut Stack<Task<'a>>,
) -> Result<(), Memory>
    ensures { OnOk result ((g : Given) (s : State)
        → run g tasks.new s ≡ run g tasks.old (try_done g types.now last.now s)) }
{
    match last {
        None => tasks.push(Task::Build(Build::Whole(Whole::Try(types.as_slice())))),
        Some(form) => {
            tasks.push(Task::Build(Build::Whole(Whole::TryFinally(types.as_slice()))))?;
            tasks.push(Task::See(form.get()))
        }
    }
}

/// The name of a `catch` goes out of scope, where there is one.
fn release<'a>(name: Option<NameId>, tasks: &mut Stack<Task<'a>>) -> Result<(), Memory>
    ensures { OnOk result ((g : Given) (s : State)
        → run g tasks.new s ≡ run g tasks.old (released name s)) }
{
    match name {
        None => Ok(()),
        Some(_) => tasks.push(Task::Leave(1)),
    }
}

/// The variable of a `catch` has the next number, with its name where there is one.
fn catch<'a>(name: Option<NameId>, tasks: &mut Stack<Task<'a>>) -> Result<(), Memory>
    ensures { OnOk result ((g : Given) (s : State)
        → run g tasks.new s ≡ run g tasks.old (caught name s)) }
{
    match name {
        None => tasks.push(Task::Number),
        Some(name) => tasks.push(Task::Name(name)),
    }
}

/// A `try`.
pub(crate) fn attempt<'a>(
    block: &'a TypedForm,
    name: Option<NameId>,
    types: &'a List<Ty>,
    values: &'a List<TypedForm>,
    last: &'a Option<Boxed<TypedForm>>,
    tasks: &mut Stack<Task<'a>>,
) -> Result<(), Memory>
    ensures { OnOk result ((g : Given) (s : State)
        → run g tasks.new s
        ≡ run g tasks.old (catches g block.now name types.now values.now last.now s)) }
{
    ends(types, last, tasks)?;
    release(name, tasks)?;
    tasks.push(Task::Row(Row::List, values.as_slice()))?;
    tasks.push(Task::Open)?;
    catch(name, tasks)?;
    tasks.push(Task::See(block))
}
