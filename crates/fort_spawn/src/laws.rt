ghost use Rattle.fort_spawn.specs.Laws.{OneRewriting, RewrittenNumbersFit, RewrittenObeys, RewrittenStandsApart};

use fort_syntax::tree_goes_over;

/// A component is rewritten as one component. The chapter is "Threads that are spawned".
pub fn one_rewriting()
    ensures { OneRewriting }
{}

/// A rewritten component keeps the rules on gaps and names, where the component does and the
/// numbers of its names are in its table. The chapter is "Threads that are spawned".
pub fn rewritten_obeys()
    ensures { RewrittenObeys }
{
    tree_goes_over();
}

/// The tokens of a rewritten component stand apart, where those of the component do and stand on
/// lines from 1 on. The chapter is "Threads that are spawned".
pub fn rewritten_stands_apart()
    ensures { RewrittenStandsApart }
{}

/// The numbers of a rewritten component are ZZ64, where those of the component are. The chapter is
/// "Threads that are spawned".
pub fn rewritten_numbers_fit()
    ensures { RewrittenNumbersFit }
{}
