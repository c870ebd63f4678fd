//! What an attempt watches once it was aborted.
ghost use Rattle.std.specs.Prelude.{◌≡◌, slice_get, IfOk};
ghost use Rattle.fort_machine.specs.Attempts.{AreRead, Rising};
ghost use Rattle.fort_store_effects.specs.Levels.{HasAttempt, effect_of, levels_of};
ghost use Rattle.fort_store_effects.specs.Calls.{AreMarks, MarksAdded, MarksNoted, reads_of};

use crate::cell::Cell;
use crate::layer::Layer;
use crate::layers::Layers;
use fort_base::{List, Loc, Memory};
use fort_core::Value;
use std::alloc::Global;

impl Layers {
    /// What the innermost attempt read while no write of its own stood, with the values, in rising
    /// order of the locations, each once.
    ///
    /// # Errors
    ///
    /// `Memory` where memory is wanting; the layers stand for what they stood for.
    #[tactic(auto, using(crate::proofs::InOrder::marks_top, crate::proofs::InOrder::kept_levels))]
    pub fn marks(&mut self, alloc: Global) -> Result<List<(Loc, Value)>, Memory>
        requires { HasAttempt (levels_of self.old).attempts }
        ensures ok { IfOk result (λ marks. AreMarks marks (levels_of self.old).attempts) }
        ensures kept { levels_of self.new ≡ levels_of self.old }
    {
        match &mut self.top {
            None => unreachable!(),
            Some(top) => top.marks(alloc),
        }
    }
}

impl Layer {
    // The marks of the attempt, whose cells are put in the order of their locations.
    #[tactic(auto, using(crate::proofs::InOrder::marks_rise, crate::proofs::InOrder::same_effect))]
    fn marks(&mut self, alloc: Global) -> Result<List<(Loc, Value)>, Memory>
        ensures read { IfOk result (λ marks. AreRead marks (effect_of self.old)) }
        ensures rising { IfOk result (λ marks. Rising marks) }
        ensures kept { effect_of self.new ≡ effect_of self.old }
    {
        self.cells.sort_keys()?;
        let marks = self.marks_in_order(alloc)?;
        Ok(marks)
    }

    #[tactic(auto, using(crate::proofs::InOrder::reads_at))]
    fn marks_in_order(&self, alloc: Global) -> Result<List<(Loc, Value)>, Memory>
        ensures { IfOk result (λ marks. marks ≡ reads_of self.now.cells.entries) }
    {
        let mut marks = List::new(alloc);
        for i in 0..self.cells.len() {
            self.note_at(&mut marks, i)?;
        }
        Ok(marks)
    }

    // A mark for the location of a number among the cells, if it was read.
    #[tactic(auto, using(crate::proofs::InOrder::noted_none, crate::proofs::InOrder::noted_some))]
    fn note_at(&self, marks: &mut List<(Loc, Value)>, at: usize) -> Result<(), Memory>
        ensures { IfOk result
            (λ _. MarksNoted marks.old (slice_get self.now.cells.entries at) marks.new) }
    {
        match self.cells.get_index(at) {
            None => Ok(()),
            Some((loc, cell)) => {
                note(marks, *loc, cell)?;
                Ok(())
            }
        }
    }
}

// A mark for a location that was read.
fn note(marks: &mut List<(Loc, Value)>, loc: u64, cell: &Cell) -> Result<(), Memory>
    ensures { IfOk result (λ _. MarksAdded marks.old loc cell.now marks.new) }
{
    match cell {
        Cell::Found(Some(value), _) => {
            marks.push((Loc(loc), value.share()?))?;
            Ok(())
        }
        _ => Ok(()),
    }
}
