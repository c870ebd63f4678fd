//! What a replay's answer excludes.
ghost use Rattle.fort_plain.specs.Replays.{BrokenIsNone};

/// A journal that breaks is none of a run.
pub fn broken_is_none()
    ensures { BrokenIsNone }
{}
