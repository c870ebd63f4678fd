//! Comparisons: the sides of a chain, and what the subject of a `case` is compared with.
ghost use Rattle.std.specs.Prelude.{◌≡◌, IfOk, OnOk, ◌∷◌, [], true};
ghost use Rattle.fort_typing_known.specs.Read.{facts};
ghost use Rattle.fort_typing_known.specs.Sets.{operator_set};
ghost use Rattle.fort_typing_meaning.specs.Faults.{breaks as breaks_by};
ghost use Rattle.fort_typing_meaning.specs.Parts.{compared_by, take_side, take_test};
ghost use Rattle.fort_typing_walk.specs.Walks.{behind_side, compared_types, state};

use crate::elements::{side_place, side_type};
use crate::keeps::keep;
use crate::walk::Walk;
use fort_base::rules::MISMATCH;
use fort_base::{List, Memory, Place, Rule, SetId, Ty};
use fort_form_typed::Chosen;
use fort_ops::Op;
use fort_types_builtin::BOOLEAN;
use fort_typing_call::{Called, call_of};
use fort_typing_known::{Known, is_below, operator_spelling, set_of};
use fort_typing_meaning::{Slot, Valued, Want};
use fort_typing_parts::{breaks, taken};
use fort_typing_rules::Meaning;
use std::alloc::Global;
use std::mem;

/// The set of an operator of two operands.
fn infix_set(known: &Known, op: Op) -> Result<SetId, Memory>
    ensures { IfOk result (λ set. set ≡ operator_set (facts known.now) op 2) }
{
    set_of(known, operator_spelling(known, op), false, 2)
}

/// A list of two types.
fn two(alloc: Global, left: Ty, right: Ty) -> Result<List<Ty>, Memory>
    ensures { IfOk result (λ list. list ≡ left ∷ right ∷ []) }
{
    let mut list = List::new(alloc);
    list.push(left)?;
    list.push(right)?;
    Ok(list)
}

impl Walk {
    /// A rule is broken, and the form that is open has no type.
    fn bars(&mut self, rule: Rule, place: Place)
        ensures { state self.new
            ≡ record (state self.old) {
              frame = record self.old.frame { broken = true };
              found = breaks_by rule place self.old.found;
            } }
    {
        self.frame.broken = true;
        self.found = breaks(rule, place, self.found);
    }

    /// A comparison has this for its call: its result is below `Boolean`.
    fn compared_by(
        &mut self,
        known: &Known,
        op: Op,
        place: Place,
        called: Called,
    ) -> Result<(), Memory>
        ensures { OnOk result (state self.new
            ≡ compared_by (facts known.now) op place called (state self.old)) }
    {
        match called {
            Called::Result(result, widened) => {
                if is_below(known, &result, &Ty::Named(BOOLEAN)) {
                    let set = infix_set(known, op)?;
                    self.frame.calls.push(Chosen { set, widened })
                } else {
                    self.bars(MISMATCH, place);
                    Ok(())
                }
            }
            Called::Refused(rule) => {
                self.bars(rule, place);
                Ok(())
            }
        }
    }

    /// Two types, where there are both, are compared by an operator.
    fn compare(
        &mut self,
        known: &Known,
        op: Op,
        place: Place,
        left: Option<Ty>,
        right: Option<Ty>,
    ) -> Result<(), Memory>
        ensures { OnOk result (state self.new
            ≡ compared_types (facts known.now) op place left right (state self.old)) }
    {
        let Some(left) = left else {
            return Ok(());
        };
        let Some(right) = right else {
            return Ok(());
        };
        let types = two(self.alloc, left, right)?;
        let set = infix_set(known, op)?;
        let called = call_of(self.alloc, known, set, &types)?;
        self.compared_by(known, op, place, called)
    }

    /// The next side of a chain has this type, behind an operator or none.
    fn behind_side(
        &mut self,
        known: &Known,
        op: Option<Op>,
        place: Place,
        right: Option<Ty>,
    ) -> Result<(), Memory>
        ensures { OnOk result (state self.new
            ≡ behind_side (facts known.now) op place right (state self.old)) }
    {
        match op {
            None => Ok(()),
            Some(op) => {
                let at = side_place(place, &self.frame.side);
                let left = side_type(self.alloc, &self.frame.side)?;
                self.compare(known, op, at, left, right)
            }
        }
    }

    /// As the next side of a chain, behind an operator or none.
    #[tactic(auto, using(crate::proofs::Sides::sides), unfolding(fort_typing_meaning::specs::Parts::take_side))]
    pub fn take_side(&mut self, known: &Known, op: Option<Op>, place: Place) -> Result<(), Memory>
        ensures { OnOk result (state self.new
            ≡ take_side (facts known.now) op place (state self.old)) }
    {
        let seen = mem::replace(&mut self.seen, Meaning::Unknown);
        let Valued { node, found } = taken(
            self.alloc,
            known,
            Want::Operand,
            place,
            seen,
            self.found,
        );
        self.found = found;
        let (node, side) = self.sided(place, node)?;
        keep(&mut self.frame, Slot::First, node)?;
        let right = side_type(self.alloc, &side)?;
        self.behind_side(known, op, place, right)?;
        self.frame.side = side;
        Ok(())
    }

    /// As what the subject of a `case` is compared with.
    #[tactic(auto, using(crate::proofs::Sides::sides), unfolding(fort_typing_meaning::specs::Parts::take_test))]
    pub fn take_test(&mut self, known: &Known, place: Place) -> Result<(), Memory>
        ensures { OnOk result (state self.new
            ≡ take_test (facts known.now) place (state self.old)) }
    {
        let left = side_type(self.alloc, &self.frame.side)?;
        let seen = mem::replace(&mut self.seen, Meaning::Unknown);
        let Valued { node, found } = taken(
            self.alloc,
            known,
            Want::Operand,
            place,
            seen,
            self.found,
        );
        self.found = found;
        let (node, side) = self.sided(place, node)?;
        keep(&mut self.frame, Slot::First, node)?;
        let right = side_type(self.alloc, &side)?;
        self.compare(known, Op::Eq, place, left, right)
    }
}
