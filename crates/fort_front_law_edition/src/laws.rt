//! The law of edition 1, of whole files.
ghost use Rattle.fort_front_law_edition.specs.Accepted.{ComponentIsKept, TokensAreKept, TreeIsKept};

/// A law: the tokens of a file that is accepted by edition 1 of the rules of typing, where no call
/// was widened, are accepted, with the same program; and so is a component, be its threads rewritten
/// or still to be. The chapter is "Typing".
pub fn edition_one_files_are_kept()
    ensures tokens { TokensAreKept }
    ensures component { ComponentIsKept }
    ensures tree { TreeIsKept }
{}
