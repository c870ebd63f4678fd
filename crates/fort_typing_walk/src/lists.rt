//! Parts and clauses that are asked in their order.
ghost use Rattle.std.specs.Prelude.{◌≡◌, OnOk, map};
ghost use Rattle.fort_typing_known.specs.Known.{Facts};
ghost use Rattle.fort_typing_meaning.specs.Parts.{State};
ghost use Rattle.fort_typing_meaning.specs.Judging.{judged, judged_branch};
ghost use Rattle.fort_typing_tasks.specs.Tasks.{branching as on_branches, listing as on_list, run};

use fort_base::Memory;
use fort_base_stack::Stack;
use fort_form::{Branch, Form};
use fort_typing_tasks::{Branching, Listing, Task, arms, ask_each, clauses, elements, sides};

/// Parts are asked in their order.
pub fn ask_list<'a>(
    listing: Listing<'a>,
    forms: &'a [Form],
    tasks: &mut Stack<Task<'a>>,
) -> Result<(), Memory>
    ensures { OnOk result ((k : Facts) (s : State)
        → run k tasks.new s
        ≡ run k tasks.old (on_list k listing.entry (map (judged k) forms.now) s)) }
{
    match listing {
        Listing::Kept(slot, want) => ask_each(slot, want, forms, tasks),
        Listing::Elements => elements(forms, tasks),
        Listing::Sides(op, ops) => sides(op, ops, forms, tasks),
    }
}

/// Clauses are asked in their order.
pub fn ask_branches<'a>(
    branching: Branching<'a>,
    branches: &'a [Branch],
    tasks: &mut Stack<Task<'a>>,
) -> Result<(), Memory>
    ensures { OnOk result ((k : Facts) (s : State)
        → run k tasks.new s
        ≡ run k tasks.old
        (on_branches k branching.entry (map (judged_branch k) branches.now) s)) }
{
    match branching {
        Branching::Arms(want) => arms(want, branches, tasks),
        Branching::Clauses => clauses(branches, tasks),
    }
}
