//! How a book begins, what it takes in, and what it is in the end.
ghost use Rattle.fort_hall_law_books.specs.BookLaws.{BeginsBook, BookCompletes, BookIsReached, BookThrows, FinishedIsTried, OpensBook, OutputGrows, SubmitsAttempt, SubmitsSteps, SuitsIsMeets};

/// The root's book begins with the program.
pub fn begins_book()
    ensures { BeginsBook }
{}

/// The book of an attempt begins at the body of its form, in which no form sleeps.
pub fn opens_book()
    ensures { OpensBook }
{}

/// Steps of a task go on in a book where its store suits what they do.
pub fn submits_steps()
    ensures { SubmitsSteps }
{}

/// So does an attempt, where its form may be tried in the book.
pub fn submits_attempt()
    ensures { SubmitsAttempt }
{}

/// A leg suits the store of a book exactly where it may follow what the book did, and the store on
/// which the book began suits both.
pub fn suits_is_meets()
    ensures { SuitsIsMeets }
{}

/// The book of an attempt that has ended is one leg, on the store on which it began.
pub fn finished_is_tried()
    ensures { FinishedIsTried }
{}

/// The root's book at `()` is a completed run.
pub fn book_completes()
    ensures { BookCompletes }
{}

/// At a throw it is a run that ends with what nobody catches.
pub fn book_throws()
    ensures { BookThrows }
{}

/// Machines of the program come to a book's term.
pub fn book_is_reached()
    ensures { BookIsReached }
{}

/// A book that goes on has all the output that it had, first.
pub fn output_grows()
    ensures { OutputGrows }
{}
