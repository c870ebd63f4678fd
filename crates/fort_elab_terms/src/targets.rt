//! Assignments. The chapter "Forms" of docs/TRANSLATION.md, its last rows.
ghost use Rattle.std.specs.Prelude.{◌≡◌, OnOk};
ghost use Rattle.fort_form_typed.specs.declared.typed_form.TypedForm.{out-TypedForm};
ghost use Rattle.fort_elab_tasks.specs.declared.state.State.{State};
ghost use Rattle.fort_elab_tasks.specs.Forms.{assigns, updates};
ghost use Rattle.fort_elab_tasks.specs.Tasks.{run};
ghost use Rattle.fort_elab_meaning.specs.Parts.{Given};

use crate::pushing::{behind, build, one, two};
use crate::types::type_of;
use fort_base::Memory;
use fort_base_stack::Stack;
use fort_elab_tasks::{Build, Leaf, One, Task, Three, Two};
use fort_form_typed::{Chosen, TypedForm};

/// `t := e`
pub(crate) fn assign<'a>(
    target: &'a TypedForm,
    value: &'a TypedForm,
    tasks: &mut Stack<Task<'a>>,
) -> Result<(), Memory>
    ensures { OnOk result ((g : Given) (s : State)
        → run g tasks.new s
        ≡ run g tasks.old (assigns g value.now (out-TypedForm target.now) s)) }
{
    match target {
        TypedForm::Local(_, name, _) => {
            one(One::Write, value, tasks)?;
            tasks.push(Task::Find(*name))
        }
        TypedForm::Top(_, n) => one(One::WriteTop(*n), value, tasks),
        TypedForm::ReadField(_, object, field) => {
            two(Two::WriteField(*field), object.get(), value, tasks)
        }
        TypedForm::ReadElement(_, array, index) => {
            tasks.push(Task::Build(Build::Three(Three::WriteElement)))?;
            tasks.push(Task::See(value))?;
            tasks.push(Task::See(index.get()))?;
            tasks.push(Task::See(array.get()))
        }
        _ => build(Build::Leaf(Leaf::Unit), tasks),
    }
}

/// `t += e`, `t -= e`
pub(crate) fn update<'a>(
    target: &'a TypedForm,
    chosen: &'a Chosen,
    value: &'a TypedForm,
    tasks: &mut Stack<Task<'a>>,
) -> Result<(), Memory>
    ensures { OnOk result ((g : Given) (s : State)
        → run g tasks.new s
        ≡ run g tasks.old (updates g chosen.now value.now (out-TypedForm target.now) s)) }
{
    match target {
        TypedForm::Local(_, name, _) => {
            one(One::Raise(chosen), value, tasks)?;
            tasks.push(Task::Find(*name))
        }
        TypedForm::Top(_, n) => one(One::RaiseTop(chosen, *n), value, tasks),
        TypedForm::ReadField(_, object, field) => {
            let ty = type_of(object.get());
            tasks.push(Task::Build(Build::Two(Two::UpdateField(ty, chosen, *field))))?;
            tasks.push(Task::See(value))?;
            behind(object.get(), Task::Number, tasks)
        }
        TypedForm::ReadElement(_, array, index) => {
            let (ty, of) = (type_of(array.get()), type_of(index.get()));
            tasks.push(Task::Build(Build::Three(Three::UpdateElement(ty, of, chosen))))?;
            tasks.push(Task::See(value))?;
            behind(index.get(), Task::Number, tasks)?;
            behind(array.get(), Task::Number, tasks)
        }
        _ => build(Build::Leaf(Leaf::Unit), tasks),
    }
}
