//! A worked program, typed whole: what an accepted program has is met by one.
ghost use Rattle.fort_machine_law_worked.specs.Guarded.{GuardedIsAccepted, GuardedGoesOn};

/// A program with an object of one field, which an atomic form adds to until the sum is too large,
/// and with all built-in types, is sound, complete and keeps the rules on overloading; so no run of
/// it is stuck.
pub fn guarded_is_accepted()
    ensures accepted { GuardedIsAccepted }
    ensures goes { GuardedGoesOn }
{}
