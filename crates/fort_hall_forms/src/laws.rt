//! Parts in which forms may be sought. The law is named by a function that does nothing.
ghost use Rattle.fort_hall_forms.specs.Laws.{PartOfRun};

/// A part of which a leg may be taken stands in a term of a run.
pub fn part_of_run()
    ensures { PartOfRun }
{}
