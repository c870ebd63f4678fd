//! The walk: the form that was asked last, the frame of the form that is open, the bindings in
//! scope, and the first broken rule so far.
ghost use Rattle.std.specs.Prelude.{◌≡◌, IfOk, OnOk, [], map, Some, None};
ghost use Rattle.fort_typing_known.specs.Known.{Facts};
ghost use Rattle.fort_typing_known.specs.Read.{facts};
ghost use Rattle.fort_typing_meaning.specs.Parts.{begin, said, side_of};
ghost use Rattle.fort_typing_meaning.specs.Judging.{judged, level};
ghost use Rattle.fort_typing_meaning.specs.Judging.{judged_clause, judged_generator, judged_item};
ghost use Rattle.fort_typing_meaning.specs.Parts.{items as on_items, sources as on_sources, unless_lost};
ghost use Rattle.fort_typing_tasks.specs.Tasks.{asking as on_ask, casing as on_cases, closing, on, run, taking as on_take};
ghost use Rattle.fort_typing_walk.specs.Walks.{state};

use crate::elements::{let_part_go, side_of};
use crate::flags::{is_listed, is_parens, is_postfix};
use crate::keeps::opened;
use crate::lists::{ask_branches, ask_list};
use fort_base::{Memory, Place};
use fort_base_stack::Stack;
use fort_form::{Form, Generator, Item, TypeBranch};
use fort_form_typed::TypedForm;
use fort_scope::Scope;
use fort_typing_build::close;
use fort_typing_known::{Fault, Known};
use fort_typing_meaning::{Frame, Outcome, Side, Slot};
use fort_typing_parts::place_of;
use fort_typing_rules::Meaning;
use fort_typing_tasks::{
    Asking, Casing, Taking, Task, ask, ask_below, cases, inside, items, sources,
};
use std::alloc::Global;
use std::mem;

/// A walk over forms.
#[derive(Drop)]
pub struct Walk {
    pub(crate) alloc: Global,
    pub(crate) scope: Scope,
    pub(crate) seen: Meaning,
    pub(crate) frame: Frame,
    pub(crate) found: Option<Fault>,
}

impl Walk {
    /// A walk with nothing in scope.
    pub fn new(alloc: Global, found: Option<Fault>) -> Walk
        ensures { state result ≡ begin [] found }
    {
        Walk {
            alloc,
            scope: Scope::new(alloc),
            seen: Meaning::Unknown,
            frame: opened(alloc),
            found,
        }
    }

    /// Opens a frame, and hands out the one around it.
    fn open(&mut self) -> Frame
        ensures opened { state self.new ≡ begin self.old.scope self.old.found }
        ensures outer { result ≡ self.old.frame }
    {
        self.seen = Meaning::Unknown;
        mem::replace(&mut self.frame, opened(self.alloc))
    }

    /// A part, with what the next comparison has at its left by it.
    pub(crate) fn sided(
        &self,
        place: Place,
        node: Option<TypedForm>,
    ) -> Result<(Option<TypedForm>, Option<Side>), Memory>
        ensures { IfOk result (λ it. it ≡ (node, side_of place node)) }
    {
        match side_of(self.alloc, place, &node) {
            Ok(side) => Ok((node, side)),
            Err(error) => {
                let_part_go(node);
                Err(error)
            }
        }
    }

    /// Closes a form, and goes back to the frame around it.
    #[tactic(auto, unfolding(fort_typing_tasks::specs::Tasks::closing))]
    fn close(&mut self, known: &Known, form: &Form, outer: Frame, mark: usize) -> Result<(), Memory>
        ensures { OnOk result (state self.new
            ≡ closing (facts known.now) (level (facts known.now) form.now) outer mark
            (state self.old)) }
    {
        self.scope.leave(mark);
        let frame = mem::replace(&mut self.frame, outer);
        let Outcome { seen, found } = close(
            self.alloc,
            known,
            &self.scope,
            form,
            frame,
            self.found,
        )?;
        self.seen = seen;
        self.found = found;
        Ok(())
    }

    /// Opens a form: its parts are to be asked, and then it is closed.
    fn see<'a>(
        &mut self,
        known: &Known,
        form: &'a Form,
        tasks: &mut Stack<Task<'a>>,
    ) -> Result<(), Memory>
        ensures { OnOk result (run (facts known.now) tasks.new (state self.new)
            ≡ run (facts known.now) tasks.old
            (said (judged (facts known.now) form.now) (state self.old))) }
    {
        let mark = self.scope.enter();
        let outer = self.open();
        tasks.push(Task::Close(form, outer, mark))?;
        inside(form, tasks)
    }

    /// Takes the form that was asked.
    #[tactic(auto, using(crate::proofs::Told::flags_told))]
    fn take(&mut self, known: &Known, taking: Taking, form: &Form) -> Result<(), Memory>
        ensures { OnOk result (state self.new
            ≡ on_take (facts known.now) taking.entry (judged (facts known.now) form.now)
            (state self.old)) }
    {
        let place = place_of(form);
        match taking {
            Taking::Kept(slot, want) => self.take_part(known, slot, want, place),
            Taking::Below(ty) => self.take_below(known, ty, place),
            Taking::Initial(name, mutable, ty) => {
                self.take_initial(known, name, mutable, ty, place)
            }
            Taking::Initials(at, names, ty) => self.take_initials(known, at, names, ty, place),
            Taking::Source(at, name) => self.take_source(known, at, name, place),
            Taking::Compared(op) => self.take_side(known, op, place),
            Taking::Subject => self.take_subject(known, place),
            Taking::Test => self.take_test(known, place),
            Taking::Element => {
                self.take_element(place, is_parens(form), is_listed(form), is_postfix(form))
            }
            Taking::Target => {
                self.take_target(known, form);
                Ok(())
            }
            Taking::Assigned => self.take_assigned(known, place),
        }
    }

    /// Asks a part.
    fn ask<'a>(
        &mut self,
        asking: Asking<'a>,
        form: &'a Form,
        tasks: &mut Stack<Task<'a>>,
    ) -> Result<(), Memory>
        ensures { OnOk result ((k : Facts)
            → run k tasks.new (state self.new)
            ≡ run k tasks.old (on_ask k asking.entry (judged k form.now) (state self.old))) }
    {
        match asking {
            Asking::Kept(slot, want) => {
                if self.frame.lost {
                    return Ok(());
                }
                ask(slot, want, form, tasks)
            }
            Asking::Below(ty) => {
                if self.frame.lost {
                    return Ok(());
                }
                ask_below(ty, form, tasks)
            }
            Asking::Case(name, ty) => {
                let own = ty.copy(self.alloc)?;
                self.ask_with(name, own, Slot::Second, form, tasks)
            }
            Asking::Otherwise(place, name) => self.ask_otherwise((place, name), form, tasks),
        }
    }

    /// Goes through the items of a block, unless the scope isn't known.
    fn items<'a>(&self, list: &'a [Item], tasks: &mut Stack<Task<'a>>) -> Result<(), Memory>
        ensures { OnOk result ((k : Facts)
            → run k tasks.new (state self.now)
            ≡ run k tasks.old
            (unless_lost (on_items k (map (judged_item k) list.now)) (state self.now))) }
    {
        if self.frame.lost {
            return Ok(());
        }
        items(list, tasks)
    }

    /// Goes through generators, unless the scope isn't known.
    fn sources<'a>(&self, list: &'a [Generator], tasks: &mut Stack<Task<'a>>) -> Result<(), Memory>
        ensures { OnOk result ((k : Facts)
            → run k tasks.new (state self.now)
            ≡ run k tasks.old
            (unless_lost (on_sources k (map (judged_generator k) list.now)) (state self.now))) }
    {
        if self.frame.lost {
            return Ok(());
        }
        sources(list, tasks)
    }

    /// Goes through the clauses of a `typecase` or of a `catch`.
    fn cases<'a>(
        &mut self,
        known: &Known,
        casing: Casing,
        branches: &'a [TypeBranch],
        tasks: &mut Stack<Task<'a>>,
    ) -> Result<(), Memory>
        ensures { OnOk result (run (facts known.now) tasks.new (state self.new)
            ≡ run (facts known.now) tasks.old
            (on_cases (facts known.now) casing
            (map (judged_clause (facts known.now)) branches.now) (state self.old))) }
    {
        match casing {
            Casing::Exceptions => self.exceptions(known, branches, tasks),
            Casing::Values(name) => cases(name, branches, tasks),
            Casing::KnownValues(name) => {
                if self.frame.lost {
                    return Ok(());
                }
                cases(name, branches, tasks)
            }
        }
    }

    /// Does a task.
    fn step<'a>(
        &mut self,
        known: &Known,
        task: Task<'a>,
        tasks: &mut Stack<Task<'a>>,
    ) -> Result<(), Memory>
        ensures { OnOk result (run (facts known.now) tasks.new (state self.new)
            ≡ run (facts known.now) tasks.old
            (on (facts known.now) task.entry (state self.old))) }
    {
        match task {
            Task::See(form) => self.see(known, form, tasks),
            Task::Take(taking, form) => self.take(known, taking, form),
            Task::Ask(asking, form) => self.ask(asking, form, tasks),
            Task::AskEach(listing, forms) => ask_list(listing, forms, tasks),
            Task::Items(list) => self.items(list, tasks),
            Task::Sources(list) => self.sources(list, tasks),
            Task::Branches(branching, branches) => ask_branches(branching, branches, tasks),
            Task::Cases(casing, branches) => self.cases(known, casing, branches, tasks),
            Task::Scope(scoping) => self.change(known, scoping, tasks),
            Task::Close(form, outer, mark) => self.close(known, form, outer, mark),
        }
    }

    /// Does tasks until none is left.
    pub fn run<'a>(&mut self, known: &Known, tasks: &mut Stack<Task<'a>>) -> Result<(), Memory>
        ensures { OnOk result (state self.new ≡ run (facts known.now) tasks.old (state self.old)) }
    {
        'tasks: for _ in 0..u64::MAX {
            match tasks.pop() {
                None => return Ok(()),
                Some(task) => self.step(known, task, tasks)?,
            }
        }
        Err(Memory)
    }
}
