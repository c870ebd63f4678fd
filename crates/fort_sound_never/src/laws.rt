ghost use Rattle.fort_sound_never.specs.Never.{AcceptedGoesThrough, AcceptedHasText, AcceptedNeverStops, FoundedGoesThrough, FoundedNeverStops};

use fort_sound::accepted_is_sound;
use fort_sound_typed::{run_is_typed, someone_may_go, stays_typed, thrown_is_object};

/// A law: no run of a program that is sound and complete stops short of its end. The chapter is
/// "What is claimed" of docs/SOUNDNESS.md.
pub fn founded_never_stops()
    ensures { FoundedNeverStops }
{
    stays_typed();
    someone_may_go();
}

/// A law: in such a program a type below one that is below a third is below the third. The chapter
/// is "Dispatch" of docs/SOUNDNESS.md.
pub fn founded_goes_through()
    ensures { FoundedGoesThrough }
{}

/// A law: each run of the program of an accepted file goes on to its end, `()`, a throw that nobody
/// catches, or the end of the fuel. The chapter is "What is claimed" of docs/SOUNDNESS.md.
pub fn accepted_never_stops()
    ensures { AcceptedNeverStops }
{
    accepted_is_sound();
    founded_never_stops();
}

/// A law: in the program of an accepted file a type below one that is below a third is below the
/// third, as a machine asks that finds its declarations by tables. The chapter is "Dispatch" of
/// docs/SOUNDNESS.md.
pub fn accepted_goes_through()
    ensures { AcceptedGoesThrough }
{
    accepted_is_sound();
    founded_goes_through();
}

/// A law: what a run of the program of an accepted file throws and nobody catches is an object, so
/// the ending of each journal of it has a text. The chapter is "What is claimed" of
/// docs/SOUNDNESS.md.
pub fn accepted_has_text()
    ensures { AcceptedHasText }
{
    accepted_is_sound();
    run_is_typed();
    thrown_is_object();
}
