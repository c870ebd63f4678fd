//! What every list of events on books leaves of them: the books of a run by several workers, in
//! whatever order legs are offered, attempts opened, ended and dropped. Each law is named by a
//! function that does nothing. The chapter "Plays" of docs/THREADS.md.
#![tactic(auto)]

ghost use Rattle.fort_hall_law_plays.specs.Laws.{AttemptIsLeg, FreshLegSuits, PlayIsRun, PlaysGoOn, PlaysKeep, ProgramBegan, SubmitIsEvent, TakenExactly};
ghost use Rattle.fort_hall_law_plays.specs.Worked.{AttemptGoesIn, OneIsTaken};

/// A play of a written program may begin with the program.
pub fn program_began()
    ensures { ProgramBegan }
{}

/// Every list of events leaves books that are runs of their machines, within what they may cost,
/// and have just the legs that they took in, once each and in order; of each pass just its own.
pub fn plays_keep()
    ensures { PlaysKeep }
{}

/// A book goes on by the legs that it takes in, behind all that it had, and by nothing else.
pub fn plays_go_on()
    ensures { PlaysGoOn }
{}

/// The picks of the root's book are a run of the program within its fuel, by every list of events.
pub fn play_is_run()
    ensures { PlayIsRun }
{}

/// An attempt that has ended is a leg of the task that opened it.
pub fn attempt_is_leg()
    ensures { AttemptIsLeg }
{}

/// What `submit` of fort_hall_books requires and ensures is an event of a play.
pub fn submit_is_event()
    ensures { SubmitIsEvent }
{}

/// Unless memory is wanting, a book takes a leg in exactly where the leg's part still stands and the
/// leg suits the book.
pub fn taken_exactly()
    ensures { TakenExactly }
{}

/// A leg that was taken on the store of a book, or that suits the book, does so until the book
/// takes another one in.
pub fn fresh_leg_suits()
    ensures { FreshLegSuits }
{}

/// A worked play: of two workers who offer one leg, the first has it taken in and the second is
/// refused.
pub fn one_is_taken()
    ensures { OneIsTaken }
{}

/// Another one: an attempt is opened, comes to its value, and goes in as one leg.
pub fn attempt_goes_in()
    ensures { AttemptGoesIn }
{}
