//! Clauses.
ghost use Rattle.std.specs.Prelude.{◌≡◌, OnOk, map, List as Seq};
ghost use Rattle.fort_typing_known.specs.Known.{Facts};
ghost use Rattle.fort_typing_meaning.specs.Parts.{State, arms as on_arms, cases as on_cases, clauses as on_clauses};
ghost use Rattle.fort_typing_meaning.specs.Judging.{judged_branch, judged_clause};
ghost use Rattle.fort_typing_tasks.specs.Tasks.{run};

use crate::asking::ask;
use crate::task::{Asking, Branching, Casing, Taking, Task};
use fort_base::{Memory, NameId, Place};
use fort_base_stack::Stack;
use fort_form::{Branch, TypeBranch};
use fort_typing_meaning::{Slot, Want};

/// The clauses of an `if` are asked in their order; their blocks are as wanted.
#[tactic(auto, using(crate::proofs::Levels::clauses), unfolding(fort_typing_meaning::specs::Parts::arms))]
pub fn arms<'a>(
    want: Want<'a>,
    branches: &'a [Branch],
    tasks: &mut Stack<Task<'a>>,
) -> Result<(), Memory>
    ensures { OnOk result ((k : Facts) (s : State)
        → run k tasks.new s
        ≡ run k tasks.old (on_arms k want.entry (map (judged_branch k) branches.now) s)) }
{
    match branches.split_first() {
        None => Ok(()),
        Some((first, rest)) => {
            tasks.push(Task::Branches(Branching::Arms(want), rest))?;
            ask(Slot::Second, want, &first.value, tasks)?;
            ask(Slot::First, Want::Truth, &first.test, tasks)
        }
    }
}

/// The clauses of a `case` are asked in their order.
#[tactic(auto, using(crate::proofs::Levels::clauses), unfolding(fort_typing_meaning::specs::Parts::clauses))]
pub fn clauses<'a>(branches: &'a [Branch], tasks: &mut Stack<Task<'a>>) -> Result<(), Memory>
    ensures { OnOk result ((k : Facts) (s : State)
        → run k tasks.new s
        ≡ run k tasks.old (on_clauses k (map (judged_branch k) branches.now) s)) }
{
    match branches.split_first() {
        None => Ok(()),
        Some((first, rest)) => {
            tasks.push(Task::Branches(Branching::Clauses, rest))?;
            ask(Slot::Second, Want::Value, &first.value, tasks)?;
            tasks.push(Task::Take(Taking::Test, &first.test))?;
            tasks.push(Task::See(&first.test))
        }
    }
}

/// The clauses of a `typecase` or of a `catch` are asked in their order.
#[tactic(auto, using(crate::proofs::Levels::clauses), unfolding(fort_typing_meaning::specs::Parts::cases))]
pub fn cases<'a>(
    name: Option<(Place, NameId)>,
    branches: &'a [TypeBranch],
    tasks: &mut Stack<Task<'a>>,
) -> Result<(), Memory>
    ensures { OnOk result ((k : Facts) (s : State)
        → run k tasks.new s
        ≡ run k tasks.old (on_cases k name (map (judged_clause k) branches.now) s)) }
{
    match branches.split_first() {
        None => Ok(()),
        Some((first, rest)) => {
            tasks.push(Task::Cases(Casing::Values(name), rest))?;
            tasks.push(Task::Ask(Asking::Case(name, &first.ty), &first.value))
        }
    }
}
