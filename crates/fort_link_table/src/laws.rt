ghost use Rattle.fort_link_table.specs.Laws.{FirstIsAsItIs, JoinedNamesAreIn, JoinedNumbersFit, JoinedStandsApart, JoinedStandsBehind, JoinedTextsAreIn, NamesGoOn, NamesStayOnce};

/// The names of the files so far stay where they are when a file is added. The chapter is
/// "Components and APIs", as it is of each law here.
pub fn names_go_on()
    ensures { NamesGoOn }
{}

/// No spelling stands twice among the names of files.
pub fn names_stay_once()
    ensures { NamesStayOnce }
{}

/// The numbers of names among a file's tokens in the whole are in the table, where those of the
/// file are in its own.
pub fn joined_names_are_in()
    ensures { JoinedNamesAreIn }
{}

/// The same of numbers of texts.
pub fn joined_texts_are_in()
    ensures { JoinedTextsAreIn }
{}

/// A file's tokens stand apart in the whole, where they do in the file.
pub fn joined_stands_apart()
    ensures { JoinedStandsApart }
{}

/// A file's tokens stand on the lines behind those of the files before it.
pub fn joined_stands_behind()
    ensures { JoinedStandsBehind }
{}

/// Numbers that are ZZ64 in a file are so in the whole.
pub fn joined_numbers_fit()
    ensures { JoinedNumbersFit }
{}

/// The first file's tokens are in the whole as they are.
pub fn first_is_as_it_is()
    ensures { FirstIsAsItIs }
{}
