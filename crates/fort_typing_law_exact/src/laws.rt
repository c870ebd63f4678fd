//! Laws of typing, of whole components.
ghost use Rattle.fort_typing_law_exact.specs.Exact.{OneOfTwo, TypingIsExact};

/// A law, of an accepted component whose forms are of the shapes that the grammar gives and write
/// its own types: it has a typing by the rules exactly where one is computed, and then that one;
/// and a broken rule is reported by the rules exactly where it is computed. So it has one typing or
/// one reported broken rule, and never both.
pub fn typing_is_exact()
    ensures computed { TypingIsExact }
    ensures one { OneOfTwo }
{}
