//! What the two tables say, each law named by a function that does nothing.
ghost use Rattle.fort_types_builtin.specs.Laws.{NumbersNameTypes, ObjectsHavePlaces, TableHasRows};

/// A law: each constant of a built-in type's number is that of the type with its name. The chapter
/// is "Types".
pub fn numbers_name_types()
    ensures { NumbersNameTypes }
{}

/// A law: the built-in declarations have the names, parameters and results of the table in the
/// chapter "Members", in its order.
pub fn table_has_rows()
    ensures { TableHasRows }
{}

/// A law: the built-in single objects have, in the order of their types, the locations that the
/// opening store has for them. The chapter is "Types".
pub fn objects_have_places()
    ensures { ObjectsHavePlaces }
{}
