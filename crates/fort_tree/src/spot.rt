use fort_base::{Gap, NameId, Place};
use fort_ops::Op;

/// Where a token of a tree stands: the gap before it, and the place of its first character.
#[derive(Clone, Copy, Debug, PartialEq, Eq)]
pub struct Spot {
    pub gap: Gap,
    pub place: Place,
}

/// A name, by its number, and where it stands.
#[derive(Clone, Copy, Debug, PartialEq, Eq)]
pub struct Name {
    pub id: NameId,
    pub spot: Spot,
}

/// An operator, and where it stands.
#[derive(Clone, Copy, Debug, PartialEq, Eq)]
pub struct Sign {
    pub op: Op,
    pub spot: Spot,
}

/// `"," Name`, a further name of a list.
#[derive(Clone, Copy, Debug, PartialEq, Eq)]
pub struct NextName {
    pub comma: Spot,
    pub name: Name,
}
