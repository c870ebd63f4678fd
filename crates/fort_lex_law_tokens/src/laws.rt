//! Laws of the tokens of a file.
ghost use Rattle.fort_lex_law_tokens.specs.Numerals.{FileNumbersFit};
ghost use Rattle.fort_lex_law_tokens.specs.Apart.{TokensStandApart};
ghost use Rattle.fort_lex_law_tokens.specs.Standing.{FileNamesAreIn, FileStandsOnLines};

/// A law: each number among the tokens of a file is a ZZ64. The chapter is "Tokens".
pub fn file_numbers_fit()
    ensures { FileNumbersFit }
{}

/// A law: no two tokens of a file stand at one place. The chapter is "Tokens".
pub fn tokens_stand_apart()
    ensures { TokensStandApart }
{}

/// A law: each number of a name among the tokens of a file is in its table. The chapter is
/// "Tokens".
pub fn file_names_are_in()
    ensures { FileNamesAreIn }
{}

/// A law: the tokens of a file stand on lines from 1 on. The chapter is "Tokens".
pub fn file_stands_on_lines()
    ensures { FileStandsOnLines }
{}
