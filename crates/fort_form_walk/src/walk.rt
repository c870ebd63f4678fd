//! The walk over an expression: a stack of tasks, a stack of forms, and one loop.
ghost use Rattle.std.specs.Prelude.{◌≡◌, ◌∷◌, [], IfOk, OnOk};
ghost use Rattle.fort_form_meaning.specs.Source.{Source};
ghost use Rattle.fort_form_meaning.specs.Formed.{formed_expr, formed_flat};
ghost use Rattle.fort_form_tasks.specs.Tasks.{Leads, Sees, formed_part, inside};
ghost use Rattle.fort_form_build.specs.Taking.{Gives};

use crate::places::unit_place;
use fort_base::Memory;
use fort_base_stack::Stack;
use fort_form::Form;
use fort_form_build::{atom, block, delimited, expression, group, postfix, run, take, unit};
use fort_form_meaning::Lookup;
use fort_form_tasks::{
    Part, Task, see, see_in_atom, see_in_expr, see_in_form, see_in_group, see_in_postfix,
    see_in_run, see_items,
};
use fort_tree::{Expr, Flat};
use std::alloc::Global;

/// The form of an expression, or want of memory.
pub fn form<L: Lookup>(alloc: Global, lookup: &L, expr: &Expr) -> Result<Form, Memory>
    ensures { IfOk result (λ form. form ≡ formed_expr (L.source lookup.now) expr.now) }
{
    let mut tasks = Stack::new(alloc);
    let mut forms = Stack::new(alloc);
    tasks.push(Task::See(Part::Expr(expr)))?;
    for turn in 0..u64::MAX {
        match tasks.pop() {
            None => {
                let form = take(&mut forms)?;
                return Ok(form);
            }
            Some(task) => step(alloc, lookup, task, &mut tasks, &mut forms)?,
        }
    }
    Err(Memory)
}

/// Does a task.
fn step<'a, L: Lookup>(
    alloc: Global,
    lookup: &'a L,
    task: Task<'a>,
    tasks: &mut Stack<Task<'a>>,
    forms: &mut Stack<Form>,
) -> Result<(), Memory>
    ensures { OnOk result ((goal : _)
        → Leads (L.source lookup.now) (task.entry ∷ tasks.old) forms.old goal
        → Leads (L.source lookup.now) tasks.new forms.new goal) }
{
    match task {
        Task::See(part) => open(lookup, part, tasks)?,
        Task::Build(part) => {
            let made = build(alloc, lookup, part, forms)?;
            forms.push(made)?;
        }
    }
    Ok(())
}

/// Puts the tasks on the stack that see what stands in a part and then build it.
fn open<'a, L: Lookup>(
    lookup: &'a L,
    part: Part<'a>,
    tasks: &mut Stack<Task<'a>>,
) -> Result<(), Memory>
    ensures { OnOk result
        (Sees (L.source lookup.now) (formed_part (L.source lookup.now) part.entry ∷ []) tasks.old
        tasks.new) }
{
    tasks.push(Task::Build(part))?;
    see_in(lookup, part, tasks)?;
    Ok(())
}

/// What stands in a part.
fn see_in<'a, L: Lookup>(
    lookup: &'a L,
    part: Part<'a>,
    tasks: &mut Stack<Task<'a>>,
) -> Result<(), Memory>
    ensures { OnOk result
        (Sees (L.source lookup.now) (inside (L.source lookup.now) part.entry) tasks.old tasks.new) }
{
    match part {
        Part::Expr(expr) => see_in_expr(expr, tasks)?,
        Part::Flat(flat) => see_in_flat(lookup, flat, tasks)?,
        Part::Group(flat, grouped) => see_in_group(flat, grouped, tasks)?,
        Part::Unit(operand) => see(Part::Run(&operand.run), tasks)?,
        Part::Run(run) => see_in_run(run, tasks)?,
        Part::Atom(atom) => see_in_atom(atom, tasks)?,
        Part::Postfix(postfix) => see_in_postfix(postfix, tasks)?,
        Part::Form(form) => see_in_form(form, tasks)?,
        Part::Block(_, items) => see_items(items, tasks)?,
    }
    Ok(())
}

/// A flat expression by its grouping; without one it is its first unit.
fn see_in_flat<'a, L: Lookup>(
    lookup: &'a L,
    flat: &'a Flat,
    tasks: &mut Stack<Task<'a>>,
) -> Result<(), Memory>
    ensures { OnOk result
        (Sees (L.source lookup.now) (formed_flat (L.source lookup.now) flat.now ∷ []) tasks.old
        tasks.new) }
{
    match lookup.grouping_at(unit_place(&flat.first)) {
        Some(grouped) => see(Part::Group(flat, grouped), tasks)?,
        None => see(Part::Unit(&flat.first), tasks)?,
    }
    Ok(())
}

/// Makes the form of a part of the forms that stand in it.
fn build<L: Lookup>(
    alloc: Global,
    lookup: &L,
    part: Part<'_>,
    forms: &mut Stack<Form>,
) -> Result<Form, Memory>
    ensures { IfOk result
        (Gives (inside (L.source lookup.now) part.entry)
        (formed_part (L.source lookup.now) part.entry) forms.old forms.new) }
{
    match part {
        Part::Expr(expr) => Ok(expression(alloc, lookup, expr, forms)?),
        Part::Flat(_) => Ok(take(forms)?),
        Part::Group(flat, grouped) => Ok(group(alloc, flat, grouped, forms)?),
        Part::Unit(operand) => Ok(unit(alloc, operand, forms)?),
        Part::Run(tree) => Ok(run(alloc, tree, forms)?),
        Part::Atom(tree) => Ok(atom(alloc, lookup, tree, forms)?),
        Part::Postfix(tree) => Ok(postfix(alloc, tree, forms)?),
        Part::Form(tree) => Ok(delimited(alloc, lookup, tree, forms)?),
        Part::Block(word, items) => Ok(block(alloc, lookup, word, items, forms)?),
    }
}
