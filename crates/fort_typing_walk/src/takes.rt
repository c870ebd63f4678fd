//! What the form that was asked is taken as.
ghost use Rattle.std.specs.Prelude.{◌≡◌, OnOk, Some, None, true};
ghost use Rattle.fort_typing_known.specs.Read.{facts};
ghost use Rattle.fort_base.specs.declared.rules.TheConstants.{NOT_ASSIGNABLE as BARRED};
ghost use Rattle.fort_typing_meaning.specs.Faults.{breaks as breaks_by};
ghost use Rattle.fort_typing_meaning.specs.Parts.{take_assigned, take_below, take_element, take_initial, take_initials, take_part, take_subject};
ghost use Rattle.fort_typing_meaning.specs.Judging.{judged, take_target};
ghost use Rattle.fort_typing_rules.specs.Typing.{named_parts};
ghost use Rattle.fort_typing_tasks.specs.Tasks.{forgotten};
ghost use Rattle.fort_typing_walk.specs.Walks.{assigned_by, state};

use crate::elements::{element, let_part_go, takes, wanted_below};
use crate::flags::is_target;
use crate::keeps::{declare, declare_all, keep};
use crate::names::types_for;
use crate::walk::Walk;
use fort_base::rules::{MISMATCH, NOT_ASSIGNABLE};
use fort_base::{Memory, NameId, Place, Ty};
use fort_form::Form;
use fort_form_typed::TypedForm;
use fort_typing_known::{Fault, Known};
use fort_typing_meaning::{Outcome, Slot, Valued, Want};
use fort_typing_parts::{breaks, place_of, taken, type_of, valued};
use fort_typing_rules::{Meaning, Part};
use std::mem;

/// What an assigned value has become: below the type of the target, where there is a target.
fn assigned_valued(
    known: &Known,
    target: &Option<TypedForm>,
    place: Place,
    seen: Meaning,
    found: Option<Fault>,
) -> Valued
    ensures { result ≡ assigned_by (facts known.now) place target.now seen found }
{
    match target {
        Some(typed) => wanted_below(known, type_of(typed), place, seen, found),
        None => valued(place, seen, found),
    }
}

impl Walk {
    /// As a part, as wanted.
    #[tactic(auto, unfolding(fort_typing_meaning::specs::Parts::take_part))]
    pub fn take_part(
        &mut self,
        known: &Known,
        slot: Slot,
        want: Want,
        place: Place,
    ) -> Result<(), Memory>
        ensures { OnOk result (state self.new
            ≡ take_part (facts known.now) slot want.entry place (state self.old)) }
    {
        let seen = mem::replace(&mut self.seen, Meaning::Unknown);
        let Valued { node, found } = taken(self.alloc, known, want, place, seen, self.found);
        self.found = found;
        keep(&mut self.frame, slot, node)
    }

    /// As the last part, below a type.
    #[tactic(auto, unfolding(fort_typing_meaning::specs::Parts::take_below, fort_typing_meaning::specs::Parts::as_wanted_below))]
    pub fn take_below(&mut self, known: &Known, ty: &Ty, place: Place) -> Result<(), Memory>
        ensures { OnOk result (state self.new
            ≡ take_below (facts known.now) ty.now place (state self.old)) }
    {
        let seen = mem::replace(&mut self.seen, Meaning::Unknown);
        let Valued { node, found } = wanted_below(known, ty, place, seen, self.found);
        self.found = found;
        keep(&mut self.frame, Slot::Last, node)
    }

    /// As the initial of a local variable.
    #[tactic(auto, unfolding(fort_typing_meaning::specs::Parts::take_initial, fort_typing_meaning::specs::Parts::as_wanted_below))]
    pub fn take_initial(
        &mut self,
        known: &Known,
        name: NameId,
        mutable: bool,
        ty: &Ty,
        place: Place,
    ) -> Result<(), Memory>
        ensures { OnOk result (state self.new
            ≡ take_initial (facts known.now) name mutable ty.now place (state self.old)) }
    {
        let seen = mem::replace(&mut self.seen, Meaning::Unknown);
        let Valued { node, found } = wanted_below(known, ty, place, seen, self.found);
        self.found = found;
        declare(self.alloc, &mut self.frame, name, mutable, ty, node)
    }

    /// As the initial of several local variables.
    #[tactic(auto, unfolding(fort_typing_meaning::specs::Parts::take_initials, fort_typing_meaning::specs::Parts::as_wanted_below))]
    pub fn take_initials(
        &mut self,
        known: &Known,
        at: Place,
        names: &[(Place, NameId)],
        ty: &Ty,
        place: Place,
    ) -> Result<(), Memory>
        ensures { OnOk result (state self.new
            ≡ take_initials (facts known.now) at ty.now (named_parts names.now ty.now) place
            (state self.old)) }
    {
        let seen = mem::replace(&mut self.seen, Meaning::Unknown);
        let Valued { node, found } = wanted_below(known, ty, place, seen, self.found);
        match types_for(names, ty) {
            Some(types) => {
                self.found = found;
                declare_all(self.alloc, &mut self.frame, names, types, node)
            }
            None => {
                let_part_go(node);
                self.found = breaks(MISMATCH, at, found);
                self.frame.broken = true;
                Ok(())
            }
        }
    }

    /// As the subject of a `case`.
    #[tactic(auto, unfolding(fort_typing_meaning::specs::Parts::take_subject))]
    pub fn take_subject(&mut self, known: &Known, place: Place) -> Result<(), Memory>
        ensures { OnOk result (state self.new
            ≡ take_subject (facts known.now) place (state self.old)) }
    {
        let seen = mem::replace(&mut self.seen, Meaning::Unknown);
        let Valued { node, found } = taken(
            self.alloc,
            known,
            Want::Operand,
            place,
            seen,
            self.found,
        );
        self.found = found;
        let (node, side) = self.sided(place, node)?;
        keep(&mut self.frame, Slot::Head, node)?;
        self.frame.side = side;
        Ok(())
    }

    /// As an element of a run or of a juxtaposition.
    #[tactic(auto, unfolding(fort_typing_meaning::specs::Parts::take_element))]
    pub fn take_element(
        &mut self,
        place: Place,
        parens: bool,
        listed: bool,
        postfix: bool,
    ) -> Result<(), Memory>
        ensures { OnOk result (state self.new
            ≡ take_element place parens listed postfix (state self.old)) }
    {
        let asked = mem::replace(&mut self.seen, Meaning::Unknown);
        let Outcome { seen, found } = element(place, asked, self.found);
        self.found = found;
        self.frame.parts.push(Part {
            place,
            parens,
            listed,
            postfix,
            meaning: seen,
        })
    }

    /// What can't be assigned to: 604.
    fn bars_target(&mut self, place: Place)
        ensures { state self.new
            ≡ record (state self.old) {
              frame = record self.old.frame { broken = true };
              found = breaks_by BARRED place self.old.found;
            } }
    {
        self.frame.broken = true;
        self.found = breaks(NOT_ASSIGNABLE, place, self.found);
    }

    /// As the target of an assignment.
    #[tactic(auto, using(crate::proofs::Told::flags_told), unfolding(fort_typing_meaning::specs::Judging::take_target))]
    pub fn take_target(&mut self, known: &Known, form: &Form)
        ensures { state self.new
            ≡ forgotten
            (take_target (facts known.now) (judged (facts known.now) form.now) (state self.old)) }
    {
        let place = place_of(form);
        let target = is_target(form);
        match mem::replace(&mut self.seen, Meaning::Unknown) {
            Meaning::Value(typed) => {
                if target && takes(known, &typed) {
                    self.frame.head = Some(typed);
                } else {
                    let_part_go(Some(typed));
                    self.bars_target(place);
                }
            }
            Meaning::Functions(_) => self.bars_target(place),
            _ => {
                self.frame.broken = true;
            }
        }
    }

    /// As an assigned value.
    #[tactic(auto, unfolding(fort_typing_meaning::specs::Parts::take_assigned, fort_typing_meaning::specs::Parts::as_wanted_below))]
    pub fn take_assigned(&mut self, known: &Known, place: Place) -> Result<(), Memory>
        ensures { OnOk result (state self.new
            ≡ take_assigned (facts known.now) place (state self.old)) }
    {
        let seen = mem::replace(&mut self.seen, Meaning::Unknown);
        let Valued { node, found } = assigned_valued(
            known,
            &self.frame.head,
            place,
            seen,
            self.found,
        );
        self.found = found;
        keep(&mut self.frame, Slot::Last, node)
    }
}
