ghost use Rattle.fort_link_law_whole.specs.Laws.{OneFileIsItself, WholeIsInOrder};

use fort_lex_law_tokens::{
    file_names_are_in, file_numbers_fit, file_stands_on_lines, tokens_stand_apart,
};
use fort_link_table::{
    first_is_as_it_is, joined_names_are_in, joined_numbers_fit, joined_stands_apart,
    joined_stands_behind, names_go_on,
};
use fort_syntax::tree_goes_over;

/// The whole of files keeps the rules on gaps and names, so that it is the tree of its own tokens;
/// these stand apart, on lines from 1 on, the numbers of their names are in its table, and its
/// numbers are ZZ64. The chapter is "Components and APIs".
pub fn whole_is_in_order()
    ensures { WholeIsInOrder }
{
    tree_goes_over();
    names_go_on();
    joined_names_are_in();
    joined_numbers_fit();
    joined_stands_apart();
    joined_stands_behind();
    file_names_are_in();
    file_numbers_fit();
    file_stands_on_lines();
    tokens_stand_apart();
}

/// The whole of one file that is a component with `export Executable` is this component. The
/// chapter is "Components and APIs".
pub fn one_file_is_itself()
    ensures { OneFileIsItself }
{
    first_is_as_it_is();
}
