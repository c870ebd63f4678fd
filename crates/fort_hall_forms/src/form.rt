//! An atomic form in a part.

use fort_base::{List, Loc, Shared};
use fort_core::{Mode, Term, Value};
use fort_frames::Place;

/// An atomic form that stands in a part of a book's term.
#[derive(Drop)]
pub struct AtForm {
    /// The frames round it in the part, and its path there.
    pub place: Place,
    /// The form, before an attempt or asleep after one.
    pub form: Shared<Term>,
    pub mode: Mode,
    pub body: Shared<Term>,
    /// The marks of the form, if it slept before.
    pub watched: Option<List<(Loc, Value)>>,
}
