//! What the built-in types are made of, and the locations of the single objects among them.
ghost use Rattle.std.specs.Prelude.{◌≡◌, ◌<◌, ◌+◌, ◌^◌, IfOk};
ghost use Rattle.fort_types_builtin.specs.Objects.{opening_from, opening_types_from, place_behind, shape_at, shapes_from};

use crate::types::table;
use fort_base::{List, Loc, Memory, Ty};
use fort_core::{CoreKind, CoreShape, Value};
use fort_types::TypeKind;
use std::alloc::Global;

/// How many single objects are built in: the exceptions.
pub const OBJECT_COUNT: u64 = 10;

/// What the built-in types are made of, in the order of their numbers. Each single object has one
/// location: they have `first` and those behind it, in the order of their types.
///
/// # Errors
///
/// `Memory` where memory is wanting.
pub fn shapes(alloc: Global, first: Loc) -> Result<List<CoreShape>, Memory>
    requires { first.0 < 2 ^ 63 }
    ensures { IfOk result (λ shapes. shapes ≡ shapes_from first.0) }
{
    let mut shapes = List::new(alloc);
    let mut place = first.0;
    for row in table() {
        shapes.push(shape(alloc, row.1, place))?;
        place = behind(row.1, place);
    }
    Ok(shapes)
}

/// What a built-in type of a kind is made of; an object is a single one at a location.
fn shape(alloc: Global, kind: TypeKind, place: u64) -> CoreShape
    ensures { result ≡ shape_at place kind }
{
    let kind = match kind {
        TypeKind::Trait => CoreKind::Trait,
        TypeKind::Leaf => CoreKind::Leaf,
        TypeKind::Object => CoreKind::Single(Loc(place)),
    };
    CoreShape {
        kind,
        fields: List::new(alloc),
    }
}

/// The first location that is left behind a type of a kind.
fn behind(kind: TypeKind, place: u64) -> u64
    requires { place < 2 ^ 63 + 2 ^ 62 }
    ensures { result ≡ place_behind place kind }
{
    match kind {
        TypeKind::Object => place + 1,
        TypeKind::Trait | TypeKind::Leaf => place,
    }
}

/// The opening store of the single objects: each of their locations holds `()`.
///
/// # Errors
///
/// `Memory` where memory is wanting.
pub fn opening(alloc: Global, first: Loc) -> Result<List<(Loc, Value)>, Memory>
    requires { first.0 < 2 ^ 63 }
    ensures { IfOk result (λ opening. opening ≡ opening_from first.0) }
{
    let mut opening = List::new(alloc);
    for number in 0..OBJECT_COUNT {
        opening.push((Loc(first.0 + number), Value::unit(alloc)?))?;
    }
    Ok(opening)
}

/// The types of the locations of the single objects, in the same order.
///
/// # Errors
///
/// `Memory` where memory is wanting.
pub fn opening_types(alloc: Global, first: Loc) -> Result<List<(Loc, Ty)>, Memory>
    requires { first.0 < 2 ^ 63 }
    ensures { IfOk result (λ types. types ≡ opening_types_from first.0) }
{
    let mut types = List::new(alloc);
    for number in 0..OBJECT_COUNT {
        types.push((Loc(first.0 + number), Ty::Tuple(List::new(alloc))))?;
    }
    Ok(types)
}
