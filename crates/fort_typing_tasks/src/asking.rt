//! Parts that are asked.
ghost use Rattle.std.specs.Prelude.{◌≡◌, OnOk, map, option_map, List as Seq};
ghost use Rattle.fort_typing_known.specs.Known.{Facts};
ghost use Rattle.fort_typing_meaning.specs.Parts.{State, ask as on_ask, ask_below as on_ask_below, ask_if as on_ask_if, asks, elements as on_elements, said, sides as on_sides, take_side};
ghost use Rattle.fort_typing_meaning.specs.Judging.{judged};
ghost use Rattle.fort_typing_tasks.specs.Tasks.{run};

use crate::task::{Listing, Taking, Task};
use fort_base::{Boxed, Memory, Ty};
use fort_base_stack::Stack;
use fort_form::Form;
use fort_ops::Op;
use fort_typing_meaning::{Slot, Want};

/// A part is asked.
#[tactic(auto, unfolding(fort_typing_meaning::specs::Parts::ask))]
pub fn ask<'a>(
    slot: Slot,
    want: Want<'a>,
    form: &'a Form,
    tasks: &mut Stack<Task<'a>>,
) -> Result<(), Memory>
    ensures { OnOk result ((k : Facts) (s : State)
        → run k tasks.new s
        ≡ run k tasks.old (on_ask k slot want.entry (judged k form.now) s)) }
{
    tasks.push(Task::Take(Taking::Kept(slot, want), form))?;
    tasks.push(Task::See(form))
}

/// A part is asked that may be lacking.
pub fn ask_if<'a>(
    slot: Slot,
    want: Want<'a>,
    form: &'a Option<Boxed<Form>>,
    tasks: &mut Stack<Task<'a>>,
) -> Result<(), Memory>
    ensures { OnOk result ((k : Facts) (s : State)
        → run k tasks.new s
        ≡ run k tasks.old (on_ask_if k slot want.entry (option_map (judged k) form.now) s)) }
{
    match form {
        None => Ok(()),
        Some(part) => ask(slot, want, part.get(), tasks),
    }
}

/// A part is asked that is to be below a type.
#[tactic(auto, unfolding(fort_typing_meaning::specs::Parts::ask_below))]
pub fn ask_below<'a>(ty: &'a Ty, form: &'a Form, tasks: &mut Stack<Task<'a>>) -> Result<(), Memory>
    ensures { OnOk result ((k : Facts) (s : State)
        → run k tasks.new s ≡ run k tasks.old (on_ask_below k ty.now (judged k form.now) s)) }
{
    tasks.push(Task::Take(Taking::Below(ty), form))?;
    tasks.push(Task::See(form))
}

/// Parts are asked in their order.
#[tactic(auto, unfolding(fort_typing_meaning::specs::Parts::asks))]
pub fn ask_each<'a>(
    slot: Slot,
    want: Want<'a>,
    forms: &'a [Form],
    tasks: &mut Stack<Task<'a>>,
) -> Result<(), Memory>
    ensures { OnOk result ((k : Facts) (s : State)
        → run k tasks.new s
        ≡ run k tasks.old (asks k slot want.entry (map (judged k) forms.now) s)) }
{
    match forms.split_first() {
        None => Ok(()),
        Some((form, rest)) => {
            tasks.push(Task::AskEach(Listing::Kept(slot, want), rest))?;
            ask(slot, want, form, tasks)
        }
    }
}

/// The elements of a run or of a juxtaposition are asked in their order.
#[tactic(auto, unfolding(fort_typing_meaning::specs::Parts::elements))]
pub fn elements<'a>(forms: &'a [Form], tasks: &mut Stack<Task<'a>>) -> Result<(), Memory>
    ensures { OnOk result ((k : Facts) (s : State)
        → run k tasks.new s ≡ run k tasks.old (on_elements (map (judged k) forms.now) s)) }
{
    match forms.split_first() {
        None => Ok(()),
        Some((form, rest)) => {
            tasks.push(Task::AskEach(Listing::Elements, rest))?;
            tasks.push(Task::Take(Taking::Element, form))?;
            tasks.push(Task::See(form))
        }
    }
}

/// A side of a chain is asked, and then the others: the operator before it, those behind it.
fn side<'a>(
    before: Option<Op>,
    form: &'a Form,
    next: Option<Op>,
    ops: &'a [Op],
    forms: &'a [Form],
    tasks: &mut Stack<Task<'a>>,
) -> Result<(), Memory>
    ensures { OnOk result ((k : Facts) (s : State)
        → run k tasks.new s
        ≡ run k tasks.old
        (on_sides k next ops.now (map (judged k) forms.now)
        (take_side k before (judged k form.now).place (said (judged k form.now) s)))) }
{
    tasks.push(Task::AskEach(Listing::Sides(next, ops), forms))?;
    tasks.push(Task::Take(Taking::Compared(before), form))?;
    tasks.push(Task::See(form))
}

/// The sides of a chain are asked in their order: the operator before the first one, if there is
/// one, and the operators between them.
#[tactic(auto, unfolding(fort_typing_meaning::specs::Parts::sides))]
pub fn sides<'a>(
    before: Option<Op>,
    ops: &'a [Op],
    forms: &'a [Form],
    tasks: &mut Stack<Task<'a>>,
) -> Result<(), Memory>
    ensures { OnOk result ((k : Facts) (s : State)
        → run k tasks.new s
        ≡ run k tasks.old (on_sides k before ops.now (map (judged k) forms.now) s)) }
{
    match forms.split_first() {
        None => Ok(()),
        Some((form, rest)) => match ops.split_first() {
            None => side(before, form, None, ops, rest, tasks),
            Some((next, others)) => side(before, form, Some(*next), others, rest, tasks),
        },
    }
}
