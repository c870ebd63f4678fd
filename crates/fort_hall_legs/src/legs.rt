//! A form goes on in a hall.
ghost use Rattle.std.specs.Prelude.{◌≡◌, ◌<◌, false, [], length, IfOk};
ghost use Rattle.fort_machine.specs.Written.{WrittenProgram};
ghost use Rattle.fort_disp.specs.Rows.{MayPick};
ghost use Rattle.fort_store_effects.specs.Levels.{effect_of, levels_of};
ghost use Rattle.fort_walk_turns.specs.Defined.{AlwaysOne};
ghost use Rattle.fort_port_output.specs.Written.{Writes};
ghost use Rattle.fort_hall_program.specs.Machines.{IsMachine};
ghost use Rattle.fort_hall_program.specs.States.{StandsIn};
ghost use Rattle.fort_hall_legs.specs.Made.{IsMadeBy, form_origin};

use fort_base::{Memory, Shared};
use fort_core::Term;
use fort_disp::Tables;
use fort_hall::{Settled, run};
use fort_hall_books::Closed;
use fort_hall_program::{Naming, Setting, TermMachine};
use fort_port::{Gate, Sink};
use fort_port_output::Progress;
use fort_store_effects::Layers;
use std::alloc::Global;
use std::marker::Brand;
use std::sync::Wait;
use std::thread::Threads;

// What one leg may cost at most. The machine's own slices are shorter.
const LEG_COST: u64 = 1 << 24;

/// A form of a program that is to go on in a hall.
#[derive(Drop)]
pub struct HallForm {
    /// Whether it stands in an attempt's machine.
    pub inner: bool,
    /// The layers that show its store, which stay as they are; no attempt is open in them.
    pub view: Shared<Layers>,
    /// The form, as a term.
    pub first: Shared<Term>,
    /// What all legs together may cost.
    pub most: u64,
}

/// Who works on a form.
#[derive(Drop, Clone, Copy)]
pub struct Crew {
    /// How many workers there are; worker 0 is the caller's thread.
    pub workers: u32,
    /// Where new locations begin in each worker's range of 2^50 numbers, modulo 2^50: a hall that
    /// follows another one over the same store begins behind it, so that no number is given twice.
    pub base: u64,
}

/// A form, and who works on it.
#[derive(Drop)]
pub struct Assignment {
    pub form: HallForm,
    pub crew: Crew,
}

/// What the workers of a hall made of a form.
#[derive(Drop)]
pub struct HallLegs {
    /// The picks, what they did, and the term to which they led.
    pub closed: Closed,
    /// How many legs each worker has in them.
    pub legs: Vec<u64>,
    /// How far their output was written.
    pub progress: Progress,
}

/// The form goes on by the workers of a crew, until no task of it can go on in the hall. The gate
/// is told of each leg as it begins. The chapter "Books" of docs/THREADS.md.
///
/// Whatever the schedule, the picks are legs from the form to the term that is handed out, which
/// cost no more than the form may; each stands in the entry of one worker, and of each worker there
/// are as many as is told.
///
/// What the legs print is written meanwhile, from its first byte on, as far as is told, or the
/// output has failed; where it had failed before, nothing is written (`failed`). What is left at
/// the end the caller may write.
///
/// It needs a worker at least, an output that may be written to unless it had failed, and a form
/// that stands in a term of a run of the tables' program, in whose runs each call has its one
/// definition.
///
/// # Errors
///
/// `Memory` where memory is wanting.
pub fn legs_by<R: Threads + Wait + Sync, G: Gate + Sync, K: Sink>(
    rt: &R,
    gate: &G,
    alloc: Global,
    tables: &Tables,
    work: Assignment,
    out: &mut K,
    failed: bool,
) -> Result<HallLegs, Memory>
    requires workers { 0 < work.crew.workers }
    requires written { WrittenProgram tables.now.program.now }
    requires tables { MayPick tables.now }
    requires one { AlwaysOne tables.now.program.now }
    requires stands { StandsIn tables.now.program.now (form_origin work.form) }
    requires alone { (levels_of work.form.view).attempts ≡ [] }
    requires out { failed ≡ false → K.can_write out.old }
    ensures made { IfOk result
        (IsMadeBy tables.now.program.now (form_origin work.form) work.form.most) }
    ensures long { IfOk result (λ r. length r.legs.items ≡ work.crew.workers) }
    ensures writes { IfOk result (λ r. Writes failed (K.can_write out.new) (record {
      was = K.written out.old;
      is = K.written out.new;
      faults_were = K.faults out.old;
      faults_are = K.faults out.new;
    }) (effect_of r.closed.done).output r.progress) }
{
    legs_of::<Brand, _, _, _>(rt, gate, alloc, tables, work, out, failed)
}

// The same for each program, beginning and bound that the caller names.
#[tactic(auto, using(crate::proofs::Made::kept_own, crate::proofs::Made::made_own, crate::proofs::Made::writes_closed))]
fn legs_of<J: Naming + Send + Sync, R: Threads + Wait + Sync, G: Gate + Sync, K: Sink>(
    rt: &R,
    gate: &G,
    alloc: Global,
    tables: &Tables,
    work: Assignment,
    out: &mut K,
    failed: bool,
) -> Result<HallLegs, Memory>
    requires workers { 0 < work.crew.workers }
    requires machine { IsMachine J.program J.start J.most tables.now work.form.inner work.form.view
        work.form.first work.form.most }
    requires out { failed ≡ false → K.can_write out.old }
    ensures made { IfOk result (IsMadeBy J.program J.start J.most) }
    ensures long { IfOk result (λ r. length r.legs.items ≡ work.crew.workers) }
    ensures writes { IfOk result (λ r. Writes failed (K.can_write out.new) (record {
      was = K.written out.old;
      is = K.written out.new;
      faults_were = K.faults out.old;
      faults_are = K.faults out.new;
    }) (effect_of r.closed.done).output r.progress) }
{
    let Assignment { form, crew } = work;
    let HallForm {
        inner,
        view,
        first,
        most,
    } = form;
    let setting = Setting {
        inner,
        most,
        base: crew.base,
    };
    let machine: TermMachine<'_, J, G> = TermMachine::new(
        alloc, tables, gate, view, first, setting,
    );
    let settled = run(rt, alloc, &machine, crew.workers, LEG_COST, out, failed)?;
    let Settled {
        book,
        legs,
        progress,
    } = settled;
    let closed = book.close(alloc, tables.program)?;
    Ok(HallLegs {
        closed,
        legs,
        progress,
    })
}
