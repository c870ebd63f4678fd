//! How bindings change.
ghost use Rattle.std.specs.Prelude.{◌≡◌, ◌++◌, ◌∷◌, [], OnOk, map, Some};
ghost use Rattle.fort_typing_known.specs.Known.{Facts};
ghost use Rattle.fort_typing_known.specs.Read.{facts};
ghost use Rattle.fort_typing_meaning.specs.Parts.{ask_with, bind, bind_all, bind_parts, catches, gives, lose, shadows, take_source, watch, with_bindings};
ghost use Rattle.fort_typing_meaning.specs.Judging.{judged, judged_clause};
ghost use Rattle.fort_typing_rules.specs.Typing.{named_parts, parameter_binding};
ghost use Rattle.fort_typing_tasks.specs.Tasks.{bindings_of, on_otherwise, run, scoping as on_change};
ghost use Rattle.fort_typing_walk.specs.Walks.{caught, state};

use crate::elements::{given_by, head_type, let_part_go};
use crate::names::types_for;
use crate::walk::Walk;
use fort_base::rules::{NOT_A_GENERATOR, NOT_AN_EXCEPTION, SHADOWS};
use fort_base::{Memory, NameId, Place, Ty};
use fort_base_stack::Stack;
use fort_form::{Form, Parameter, TypeBranch};
use fort_form_typed::TypedForm;
use fort_types_builtin::EXCEPTION;
use fort_typing_known::{Known, is_below, is_visible};
use fort_typing_meaning::{Slot, Valued, Want};
use fort_typing_parts::{breaks, taken};
use fort_typing_rules::Meaning;
use fort_typing_tasks::{Casing, Scoping, Task, ask};
use std::mem;

impl Walk {
    /// The scope behind isn't known.
    fn lose(&mut self)
        ensures { state self.new ≡ lose (state self.old) }
    {
        self.frame.broken = true;
        self.frame.lost = true;
    }

    /// A name that is to be bound is visible: 613.
    fn shadows(&mut self, place: Place)
        ensures { state self.new ≡ shadows place (state self.old) }
    {
        self.lose();
        self.found = breaks(SHADOWS, place, self.found);
    }

    /// A binding more.
    fn add(&mut self, place: Place, name: NameId, mutable: bool, ty: Ty) -> Result<(), Memory>
        ensures { OnOk result (state self.new
            ≡ with_bindings
            (self.old.scope ++ record { name = name; place = place; ty = ty; mutable = mutable }
            ∷ []) (state self.old)) }
    {
        match self.scope.bind(name, place, ty, mutable) {
            Ok(()) => Ok(()),
            Err(_) => Err(Memory),
        }
    }

    /// A name is bound, where it isn't visible.
    #[tactic(auto, unfolding(fort_typing_meaning::specs::Parts::bind))]
    fn bind(
        &mut self,
        known: &Known,
        place: Place,
        name: NameId,
        mutable: bool,
        ty: &Ty,
    ) -> Result<(), Memory>
        ensures { OnOk result (state self.new
            ≡ bind (facts known.now)
            (record { name = name; place = place; ty = ty.now; mutable = mutable })
            (state self.old)) }
    {
        if is_visible(known, &self.scope, name) {
            self.shadows(place);
            return Ok(());
        }
        let own = ty.copy(self.alloc)?;
        self.add(place, name, mutable, own)
    }

    /// Parameters are bound one after another.
    #[tactic(auto, unfolding(fort_typing_meaning::specs::Parts::bind_all))]
    fn bind_parameters<'a>(
        &mut self,
        known: &Known,
        parameters: &'a [Parameter],
        tasks: &mut Stack<Task<'a>>,
    ) -> Result<(), Memory>
        ensures { OnOk result (run (facts known.now) tasks.new (state self.new)
            ≡ run (facts known.now) tasks.old
            (bind_all (facts known.now) (map parameter_binding parameters.now)
            (state self.old))) }
    {
        let Some((first, rest)) = parameters.split_first() else {
            return Ok(());
        };
        self.bind(known, first.place, first.name, false, &first.ty)?;
        if self.frame.lost {
            return Ok(());
        }
        tasks.push(Task::Scope(Scoping::Parameters(rest)))
    }

    /// Names are bound one after another, each with the type at its place.
    #[tactic(auto, unfolding(fort_typing_meaning::specs::Parts::bind_all))]
    fn bind_typed<'a>(
        &mut self,
        known: &Known,
        names: &'a [(Place, NameId)],
        types: &'a [Ty],
        tasks: &mut Stack<Task<'a>>,
    ) -> Result<(), Memory>
        ensures { OnOk result (run (facts known.now) tasks.new (state self.new)
            ≡ run (facts known.now) tasks.old
            (bind_all (facts known.now) (bindings_of names.now types.now) (state self.old))) }
    {
        let Some((name, rest)) = names.split_first() else {
            return Ok(());
        };
        let Some((ty, others)) = types.split_first() else {
            return Ok(());
        };
        self.bind(known, name.0, name.1, false, ty)?;
        if self.frame.lost {
            return Ok(());
        }
        tasks.push(Task::Scope(Scoping::Typed(rest, others)))
    }

    /// The names of a local tuple are bound, with the parts of its type.
    fn bind_names<'a>(
        &mut self,
        names: &'a [(Place, NameId)],
        ty: &'a Ty,
        tasks: &mut Stack<Task<'a>>,
    ) -> Result<(), Memory>
        ensures { OnOk result ((k : Facts)
            → run k tasks.new (state self.new)
            ≡ run k tasks.old (bind_parts k (named_parts names.now ty.now) (state self.old))) }
    {
        match types_for(names, ty) {
            Some(types) => tasks.push(Task::Scope(Scoping::Typed(names, types))),
            None => {
                self.lose();
                Ok(())
            }
        }
    }

    /// A name has to be free where it is to be bound later.
    #[tactic(auto, unfolding(fort_typing_meaning::specs::Parts::watch))]
    fn watch(&mut self, known: &Known, place: Place, name: NameId)
        ensures { state self.new ≡ watch (facts known.now) (Some (place, name)) (state self.old) }
    {
        if is_visible(known, &self.scope, name) {
            self.shadows(place);
        }
    }

    /// Changes the bindings.
    pub fn change<'a>(
        &mut self,
        known: &Known,
        scoping: Scoping<'a>,
        tasks: &mut Stack<Task<'a>>,
    ) -> Result<(), Memory>
        ensures { OnOk result (run (facts known.now) tasks.new (state self.new)
            ≡ run (facts known.now) tasks.old
            (on_change (facts known.now) scoping.entry (state self.old))) }
    {
        match scoping {
            Scoping::Name(place, name, mutable, ty) => self.bind(known, place, name, mutable, ty),
            Scoping::Names(names, ty) => self.bind_names(names, ty, tasks),
            Scoping::Typed(names, types) => self.bind_typed(known, names, types, tasks),
            Scoping::Parameters(parameters) => self.bind_parameters(known, parameters, tasks),
            Scoping::Watch(place, name) => {
                self.watch(known, place, name);
                Ok(())
            }
            Scoping::LoseIfBroken => {
                self.frame.lost = self.frame.broken;
                Ok(())
            }
            Scoping::Leave(mark) => {
                self.scope.leave(mark);
                Ok(())
            }
        }
    }

    /// The type of a clause has to be an exception: else 612 at it.
    fn exception(&mut self, known: &Known, place: Place, ty: &Ty)
        ensures { state self.new ≡ caught (facts known.now) place ty.now (state self.old) }
    {
        if !is_below(known, ty, &Ty::Named(EXCEPTION)) {
            self.frame.broken = true;
            self.found = breaks(NOT_AN_EXCEPTION, place, self.found);
        }
    }

    /// The types of clauses have to be exceptions.
    #[tactic(auto, using(crate::proofs::Clauses::clauses), unfolding(fort_typing_meaning::specs::Parts::catches))]
    pub fn exceptions<'a>(
        &mut self,
        known: &Known,
        branches: &'a [TypeBranch],
        tasks: &mut Stack<Task<'a>>,
    ) -> Result<(), Memory>
        ensures { OnOk result (run (facts known.now) tasks.new (state self.new)
            ≡ run (facts known.now) tasks.old
            (catches (facts known.now) (map (judged_clause (facts known.now)) branches.now)
            (state self.old))) }
    {
        let Some((first, rest)) = branches.split_first() else {
            return Ok(());
        };
        self.exception(known, first.place, &first.ty);
        tasks.push(Task::Cases(Casing::Exceptions, rest))
    }

    /// A part is asked with one binding more.
    #[tactic(auto, unfolding(fort_typing_meaning::specs::Parts::ask_with))]
    pub fn ask_with<'a>(
        &mut self,
        name: Option<(Place, NameId)>,
        ty: Ty,
        slot: Slot,
        form: &'a Form,
        tasks: &mut Stack<Task<'a>>,
    ) -> Result<(), Memory>
        ensures { OnOk result ((k : Facts)
            → run k tasks.new (state self.new)
            ≡ run k tasks.old (ask_with k name ty slot (judged k form.now) (state self.old))) }
    {
        let mark = self.scope.enter();
        tasks.push(Task::Scope(Scoping::Leave(mark)))?;
        ask(slot, Want::Value, form, tasks)?;
        match name {
            None => Ok(()),
            Some((place, name)) => self.add(place, name, false, ty),
        }
    }

    /// What stands behind the `else` of a `typecase` is asked, unless the scope isn't known.
    pub fn ask_otherwise<'a>(
        &mut self,
        name: (Place, NameId),
        form: &'a Form,
        tasks: &mut Stack<Task<'a>>,
    ) -> Result<(), Memory>
        ensures { OnOk result ((k : Facts)
            → run k tasks.new (state self.new)
            ≡ run k tasks.old
            (on_otherwise k (Some name) (Some (judged k form.now)) (state self.old))) }
    {
        if self.frame.lost {
            return Ok(());
        }
        let ty = head_type(self.alloc, &self.frame.head)?;
        self.ask_with(Some(name), ty, Slot::Last, form, tasks)
    }

    /// What a generator gives is bound to its name.
    fn gives(
        &mut self,
        at: Place,
        name: NameId,
        place: Place,
        node: Option<TypedForm>,
        given: Option<Ty>,
    ) -> Result<(), Memory>
        ensures { OnOk result ((k : Facts)
            → state self.new ≡ gives k at name place node given (state self.old)) }
    {
        let Some(typed) = node else {
            self.lose();
            return Ok(());
        };
        match given {
            None => {
                let_part_go(Some(typed));
                self.lose();
                self.found = breaks(NOT_A_GENERATOR, place, self.found);
                Ok(())
            }
            Some(ty) => {
                self.frame.first.push(typed)?;
                if self.frame.lost {
                    return Ok(());
                }
                self.add(at, name, false, ty)
            }
        }
    }

    /// As the source of a generator.
    #[tactic(auto, unfolding(fort_typing_meaning::specs::Parts::take_source))]
    pub fn take_source(
        &mut self,
        known: &Known,
        at: Place,
        name: NameId,
        place: Place,
    ) -> Result<(), Memory>
        ensures { OnOk result (state self.new
            ≡ take_source (facts known.now) at name place (state self.old)) }
    {
        let seen = mem::replace(&mut self.seen, Meaning::Unknown);
        let Valued { node, found } = taken(
            self.alloc,
            known,
            Want::Operand,
            place,
            seen,
            self.found,
        );
        self.found = found;
        match given_by(self.alloc, &node) {
            Ok(given) => self.gives(at, name, place, node, given),
            Err(error) => {
                let_part_go(node);
                Err(error)
            }
        }
    }
}
