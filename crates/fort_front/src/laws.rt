ghost use Rattle.fort_front.specs.Front.{NeverBoth, NeverBothInGrammar, NeverBothOfComponent, NeverBothOfTree, OneProgram, OneProgramOfComponent, OneProgramOfTree};
ghost use Rattle.fort_front.specs.Calls.{ExactlyOne, NeverAbstract};
ghost use Rattle.fort_front.specs.Written.{AcceptedComponentIsWritten, AcceptedIsWritten, AcceptedTreeIsWritten};

use fort_elab_law_matched::component_is_written;
use fort_spawn::{rewritten_obeys, rewritten_stands_apart};

/// A law: no token list is accepted and breaks a rule too, and no component, be its threads
/// rewritten or still to be.
pub fn never_both()
    ensures tokens { NeverBoth }
    ensures component { NeverBothOfComponent }
    ensures tree { NeverBothOfTree }
{}

/// A law of token lists: none keeps the rules of the grammar and breaks one of them too.
pub fn never_both_in_grammar()
    ensures { NeverBothInGrammar }
{}

/// A law: a token list that is accepted is one program, and a component is.
pub fn one_program()
    ensures tokens { OneProgram }
    ensures component { OneProgramOfComponent }
    ensures tree { OneProgramOfTree }
{}

/// A law of token lists whose tokens are in order, as those of a file are, and of the components
/// whose tokens they are: the program of such a one that is accepted is as it is written.
/// The chapter is "Programs as written" of docs/MACHINE.md.
pub fn accepted_is_written()
    ensures tokens { AcceptedIsWritten }
    ensures component { AcceptedComponentIsWritten }
    ensures tree { AcceptedTreeIsWritten }
{
    component_is_written();
    rewritten_obeys();
    rewritten_stands_apart();
}

/// A law of components that keep the rules: of each overload set exactly one declaration is most
/// specific for all types of values to which one of its declarations is applicable, and it isn't
/// abstract. For types that an expression has, traits among them, there is exactly one too. The
/// chapter is "Overload rules".
pub fn one_declaration_for_each_call()
    ensures one { ExactlyOne }
    ensures concrete { NeverAbstract }
{}
