//! What holds of the frames, each law named by a function that does nothing.
ghost use Rattle.fort_frames.specs.Laws.{SameTerm, NotPassed, SameThread, ClockMarks, NodeIsForm};

/// The term that frames make of a part is the machine's.
pub fn same_term()
    ensures { SameTerm }
{}

/// A part to which frames lead isn't passed over.
pub fn not_passed()
    ensures { NotPassed }
{}

/// The thread to which frames lead is the machine's.
pub fn same_thread()
    ensures { SameThread }
{}

/// Where the clock rises each part on the way has its mark, as after a step of the machine, and
/// what the part became may go on.
pub fn clock_marks()
    ensures { ClockMarks }
{}

/// A node with a part in its place is its form.
pub fn node_is_form()
    ensures { NodeIsForm }
{}
