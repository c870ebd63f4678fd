//! Items and generators: what binds names for what stands behind it.
ghost use Rattle.std.specs.Prelude.{◌≡◌, OnOk, map, List as Seq};
ghost use Rattle.fort_typing_known.specs.Known.{Facts};
ghost use Rattle.fort_typing_meaning.specs.Parts.{State, item as on_item, items as on_items, sources as on_sources};
ghost use Rattle.fort_typing_meaning.specs.Judging.{judged, judged_generator, judged_item};
ghost use Rattle.fort_typing_meaning.specs.declared.frame.Slot.TheVariants as a_slot;
ghost use Rattle.fort_typing_tasks.specs.Tasks.{on_source, run};

use crate::asking::ask;
use crate::task::{Scoping, Taking, Task};
use fort_base::Memory;
use fort_base_stack::Stack;
use fort_form::{Generator, Item};
use fort_typing_meaning::{Slot, Want};

/// An item is gone through, which is as wanted where it is an expression.
#[tactic(auto, using(crate::proofs::Levels::pieces))]
fn item<'a>(want: Want<'a>, item: &'a Item, tasks: &mut Stack<Task<'a>>) -> Result<(), Memory>
    ensures { OnOk result ((k : Facts) (s : State)
        → run k tasks.new s
        ≡ run k tasks.old (on_item k want.entry (judged_item k item.now) s)) }
{
    match item {
        Item::Local(place, name, mutable, ty, form) => {
            tasks.push(Task::Scope(Scoping::Name(*place, *name, *mutable, ty)))?;
            tasks.push(Task::Take(Taking::Initial(*name, *mutable, ty), form))?;
            tasks.push(Task::See(form))
        }
        Item::Locals(place, names, ty, form) => {
            tasks.push(Task::Scope(Scoping::Names(names.as_slice(), ty)))?;
            tasks.push(Task::Take(Taking::Initials(*place, names.as_slice(), ty), form))?;
            tasks.push(Task::See(form))
        }
        Item::Expression(form) => ask(Slot::First, want, form, tasks),
    }
}

/// The items of a block are gone through in their order.
#[tactic(auto, unfolding(fort_typing_meaning::specs::Parts::items))]
pub fn items<'a>(items: &'a [Item], tasks: &mut Stack<Task<'a>>) -> Result<(), Memory>
    ensures { OnOk result ((k : Facts) (s : State)
        → run k tasks.new s ≡ run k tasks.old (on_items k (map (judged_item k) items.now) s)) }
{
    match items.split_first() {
        None => Ok(()),
        Some((first, rest)) => {
            if rest.is_empty() {
                return item(Want::Value, first, tasks);
            }
            tasks.push(Task::Items(rest))?;
            item(Want::Unit, first, tasks)
        }
    }
}

/// A generator's source is asked, and its name is bound.
#[tactic(auto, using(crate::proofs::Levels::clauses))]
pub fn source<'a>(generator: &'a Generator, tasks: &mut Stack<Task<'a>>) -> Result<(), Memory>
    ensures { OnOk result ((k : Facts) (s : State)
        → run k tasks.new s
        ≡ run k tasks.old (on_source k (judged_generator k generator.now) s)) }
{
    tasks.push(Task::Take(
        Taking::Source(generator.place, generator.name),
        &generator.source,
    ))?;
    tasks.push(Task::See(&generator.source))?;
    tasks.push(Task::Scope(Scoping::Watch(generator.place, generator.name)))
}

/// Generators are gone through in their order.
#[tactic(auto, unfolding(fort_typing_meaning::specs::Parts::sources))]
pub fn sources<'a>(generators: &'a [Generator], tasks: &mut Stack<Task<'a>>) -> Result<(), Memory>
    ensures { OnOk result ((k : Facts) (s : State)
        → run k tasks.new s
        ≡ run k tasks.old (on_sources k (map (judged_generator k) generators.now) s)) }
{
    match generators.split_first() {
        None => Ok(()),
        Some((first, rest)) => {
            tasks.push(Task::Sources(rest))?;
            source(first, tasks)
        }
    }
}
