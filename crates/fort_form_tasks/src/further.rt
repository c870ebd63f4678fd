//! Further tasks.
ghost use Rattle.std.specs.Prelude.{◌≡◌, ◌∷◌, [], OnOk};
ghost use Rattle.fort_form_meaning.specs.Source.{Source};
ghost use Rattle.fort_form_tasks.specs.Tasks.{Sees, formed_part};

use crate::task::{Part, Task};
use fort_base::Memory;
use fort_base_stack::Stack;

/// Puts the task on the stack that sees a part.
pub fn see<'a>(part: Part<'a>, tasks: &mut Stack<Task<'a>>) -> Result<(), Memory>
    ensures { OnOk result ((k : Source)
        → Sees k (formed_part k part.entry ∷ []) tasks.old tasks.new) }
{
    tasks.push(Task::See(part))?;
    Ok(())
}
