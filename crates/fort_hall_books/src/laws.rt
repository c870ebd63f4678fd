//! What a kept book is, and what it has printed.
ghost use Rattle.fort_hall_books.specs.Laws.{BookGrows, KeptIsBook};

/// A kept book whose origin machines of the program come to is a book: a run from there.
pub fn kept_is_book()
    ensures { KeptIsBook }
{}

/// A kept book that goes on from another one has all the output of that one first.
pub fn book_grows()
    ensures { BookGrows }
{}
