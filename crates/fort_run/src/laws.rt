ghost use Rattle.fort_run.specs.Laws.{LinkedOrBroken, OneWhole};

use fort_link_units::never_both;

/// A law of files that are linked: they are one component at most, and then they break no rule of
/// linking. The chapter is "Components and APIs".
pub(crate) fn one_whole()
    ensures one { OneWhole }
    ensures apart { LinkedOrBroken }
{
    never_both();
}
