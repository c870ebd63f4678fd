//! The tasks that see what stands in an expression, a head and a generator.
ghost use Rattle.std.specs.Prelude.{◌≡◌, ◌∷◌, [], map, OnOk};
ghost use Rattle.fort_tree.specs.declared.expr.Expr.{out-Expr};
ghost use Rattle.fort_form_meaning.specs.Source.{Source};
ghost use Rattle.fort_form_tasks.specs.Tasks.{Sees, expr_at, inside_head, inside_maybe_head, next_source, source_form};

use crate::further::see;
use crate::task::{Part, Task};
use fort_base::{Boxed, Memory};
use fort_base_stack::Stack;
use fort_tree::{Expr, Generator, Head, NextGenerator};

/// What stands in an expression.
pub fn see_in_expr<'a>(expr: &'a Expr, tasks: &mut Stack<Task<'a>>) -> Result<(), Memory>
    ensures { OnOk result ((k : Source)
        → Sees k (expr_at k (out-Expr expr.now)) tasks.old tasks.new) }
{
    match expr {
        Expr::Flat(flat) => see(Part::Flat(flat), tasks)?,
        Expr::Assign {
            target,
            head,
            value,
            ..
        } => {
            see(Part::Flat(target.get()), tasks)?;
            see(Part::Flat(value.get()), tasks)?;
            see_in_maybe_head(head, tasks)?;
        }
        Expr::Open { head, body } => {
            see(Part::Flat(body.get()), tasks)?;
            see_in_head(head.get(), tasks)?;
        }
        Expr::OpenAssign {
            head,
            target,
            value,
            ..
        } => {
            see(Part::Flat(target.get()), tasks)?;
            see(Part::Flat(value.get()), tasks)?;
            see_in_head(head.get(), tasks)?;
        }
    }
    Ok(())
}

/// The source of a head that may be left out, where it is a reduction.
fn see_in_maybe_head<'a>(
    head: &'a Option<Boxed<Head>>,
    tasks: &mut Stack<Task<'a>>,
) -> Result<(), Memory>
    ensures { OnOk result ((k : Source)
        → Sees k (inside_maybe_head k head.now) tasks.old tasks.new) }
{
    if let Some(head) = head {
        see_in_head(head.get(), tasks)?;
    }
    Ok(())
}

/// The source of a head, where it is a reduction.
fn see_in_head<'a>(head: &'a Head, tasks: &mut Stack<Task<'a>>) -> Result<(), Memory>
    ensures { OnOk result ((k : Source) → Sees k (inside_head k head.now) tasks.old tasks.new) }
{
    match head {
        Head::Atomic(_) => {}
        Head::Tryatomic(_) => {}
        Head::Throw(_) => {}
        Head::Spawn(_) => {}
        Head::Fn { .. } => {}
        Head::Big { generator, .. } => see_source(generator, tasks)?,
    }
    Ok(())
}

/// The source of a generator.
pub fn see_source<'a>(generator: &'a Generator, tasks: &mut Stack<Task<'a>>) -> Result<(), Memory>
    ensures { OnOk result ((k : Source)
        → Sees k (source_form k generator.now ∷ []) tasks.old tasks.new) }
{
    match generator {
        Generator::Parallel { source, .. } => see(Part::Flat(source), tasks)?,
        Generator::Sequential { source, .. } => see(Part::Flat(source), tasks)?,
    }
    Ok(())
}

/// The sources of further generators.
pub fn see_sources<'a>(
    others: &'a [NextGenerator],
    tasks: &mut Stack<Task<'a>>,
) -> Result<(), Memory>
    ensures { OnOk result ((k : Source)
        → Sees k (map (next_source k) others.now) tasks.old tasks.new) }
{
    for next in others {
        see_source(&next.generator, tasks)?;
    }
    Ok(())
}
