//! What holds of an accepted component's sets, each law named by a function that does nothing.
ghost use Rattle.fort_member.specs.Laws.{BuiltInsStandFirst, SetsAreWellMade};

/// A law: each overload set of a component whose types are an accepted hierarchy is well made. Its
/// declarations have one number of parameters, a dotted method's first parameter is its receiver's
/// declared type, an owner's type stands at its position, an abstract declaration has an owner, and
/// all declared types in parameters and results are those of the hierarchy. The chapter is
/// "Members".
pub fn sets_are_well_made()
    ensures { SetsAreWellMade }
{}

/// A law: in each overload set of a component the built-in declarations of its name and number of
/// parameters stand first, in the order of their table, and no other one is built in; among dotted
/// methods none is. So what a built-in member is to the machine is told by the name of its set, its
/// number of parameters, and its position there (`primitive` of fort_types_builtin). The chapter is
/// "Members".
pub fn built_ins_stand_first()
    ensures { BuiltInsStandFirst }
{}
