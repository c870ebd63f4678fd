//! Laws of the rules of typing.
ghost use Rattle.fort_typing_rules.specs.EditionOne.{EditionOneIsKept};

/// A law: what a form becomes in edition 1, where no call was widened, it becomes now.
pub fn edition_one_is_kept()
    ensures { EditionOneIsKept }
{}
