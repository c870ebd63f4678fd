//! Marks on names.
ghost use Rattle.std.specs.Prelude.{◌≡◌, ◌∷◌, [], OnOk};
ghost use Rattle.fort_link_rules.specs.Marks as spec;

use fort_base::{List, Memory, NameId};
use fort_tree::Name;
use std::alloc::Global;

/// Marks on names, by their numbers; 0 where a name has none.
#[derive(Drop)]
pub(crate) struct Marks {
    marks: List<usize>,
}

impl Marks {
    /// No marks.
    pub(crate) fn new(alloc: Global) -> Marks
        ensures { result.marks ≡ [] }
    {
        Marks {
            marks: List::new(alloc),
        }
    }

    /// The mark of a name.
    pub(crate) fn get(&self, id: NameId) -> usize
        ensures { result ≡ spec.mark_of self.now id }
    {
        match self.marks.get(id.0 as usize) {
            Some(mark) => *mark,
            None => 0,
        }
    }

    /// Gives a name a mark.
    pub(crate) fn set(&mut self, id: NameId, mark: usize) -> Result<(), Memory>
        ensures { OnOk result (spec.Sets id mark self.old self.new) }
    {
        let at = id.0 as usize;
        'grow: while self.marks.len() <= at {
            self.marks.push(0)?;
        }
        self.marks.set(at, mark);
        Ok(())
    }

    /// Whether a name has a mark.
    pub(crate) fn has(&self, name: Name) -> bool
        ensures { result ≡ spec.is_marked self.now name }
    {
        0 < self.get(name.id)
    }

    /// Marks a name.
    pub(crate) fn add(&mut self, name: Name) -> Result<(), Memory>
        ensures { OnOk result (spec.MarksNames (name ∷ []) self.old self.new) }
    {
        self.set(name.id, 1)
    }
}
