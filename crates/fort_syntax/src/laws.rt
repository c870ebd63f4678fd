ghost use Rattle.fort_syntax.specs.Answer.{AtMostOne, TreeGoesOver};

/// A token list has at most one tree. The chapter is "Grammar".
pub fn at_most_one_tree()
    ensures { AtMostOne }
{}

/// The tree of tokens over a table of names is their tree over each table that goes on, with
/// whatever texts. The chapter is "Grammar".
pub fn tree_goes_over()
    ensures { TreeGoesOver }
{}
