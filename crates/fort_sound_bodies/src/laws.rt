//! Laws of bodies and their terms.
ghost use Rattle.fort_sound_bodies.specs.Bodies.{BodiesHaveTypes};
ghost use Rattle.fort_sound_bodies.specs.Members.{MembersHaveBodies};

/// A law: of an accepted component and a program that suits it, where a body has a type by the
/// rules of typing, its term has the written result, with the parameters of its declaration as
/// variables.
pub fn bodies_have_types()
    ensures { BodiesHaveTypes }
{}

/// A law: of such a component and program, the term at the place of a declaration with a body has
/// the declaration's result, with its parameters as variables.
pub fn members_have_bodies()
    ensures { MembersHaveBodies }
{}
