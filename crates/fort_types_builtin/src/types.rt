//! The built-in declared types. The chapter "Types" of docs/LANGUAGE.md.
ghost use Rattle.std.specs.Prelude.{◌≡◌, [], get_or, length, map, IfOk};
ghost use Rattle.fort_types_builtin.specs.Types.{built_in_declared, declared_by_row, declared_spellings, row_of, type_spellings, types};

use fort_base::{Bytes, List, Memory, TypeId};
use fort_core::BuiltIn;
use fort_types::{DeclaredType, TypeKind};
use std::alloc::Global;

/// `Object`
pub const OBJECT: TypeId = TypeId(0);
/// `Exception`
pub const EXCEPTION: TypeId = TypeId(1);
/// `ZZ32`
pub const ZZ32: TypeId = TypeId(2);
/// `ZZ64`
pub const ZZ64: TypeId = TypeId(3);
/// `String`
pub const STRING: TypeId = TypeId(4);
/// `Boolean`
pub const BOOLEAN: TypeId = TypeId(5);
/// `Range`
pub const RANGE: TypeId = TypeId(6);
/// `IntegerOverflow`
pub const INTEGER_OVERFLOW: TypeId = TypeId(7);
/// `DivisionByZero`
pub const DIVISION_BY_ZERO: TypeId = TypeId(8);
/// `NegativeExponent`
pub const NEGATIVE_EXPONENT: TypeId = TypeId(9);
/// `IndexOutOfRange`
pub const INDEX_OUT_OF_RANGE: TypeId = TypeId(10);
/// `NegativeSize`
pub const NEGATIVE_SIZE: TypeId = TypeId(11);
/// `EmptyReduction`
pub const EMPTY_REDUCTION: TypeId = TypeId(12);
/// `MatchFailure`
pub const MATCH_FAILURE: TypeId = TypeId(13);
/// `DepthExceeded`
pub const DEPTH_EXCEEDED: TypeId = TypeId(14);
/// `TryAtomicFailure`
pub const TRY_ATOMIC_FAILURE: TypeId = TypeId(15);
/// `AbortOutside`
pub const ABORT_OUTSIDE: TypeId = TypeId(16);

/// How many declared types are built in; a component's are numbered from here on.
pub const TYPE_COUNT: usize = 17;

/// How many names of types are built in: those of the declared types, and `Any`.
pub const TYPE_NAME_COUNT: usize = TYPE_COUNT + 1;

/// The name of the one type that is no declared one and can be written by a name.
pub const ANY: &[u8] = b"Any";

/// A row of the table of types: the name in UTF-8, the kind, and the type that it extends, `None`
/// for `Object` alone. A built-in type excludes nothing and has no list; an object is a single one,
/// without fields.
pub type TypeRow = (&'static [u8], TypeKind, Option<TypeId>);

/// The built-in declared types, in the order of their numbers.
pub const TYPES: [TypeRow; TYPE_COUNT] = [
    (b"Object", TypeKind::Trait, None),
    (b"Exception", TypeKind::Trait, Some(OBJECT)),
    (b"ZZ32", TypeKind::Leaf, Some(OBJECT)),
    (b"ZZ64", TypeKind::Leaf, Some(OBJECT)),
    (b"String", TypeKind::Leaf, Some(OBJECT)),
    (b"Boolean", TypeKind::Leaf, Some(OBJECT)),
    (b"Range", TypeKind::Leaf, Some(OBJECT)),
    (b"IntegerOverflow", TypeKind::Object, Some(EXCEPTION)),
    (b"DivisionByZero", TypeKind::Object, Some(EXCEPTION)),
    (b"NegativeExponent", TypeKind::Object, Some(EXCEPTION)),
    (b"IndexOutOfRange", TypeKind::Object, Some(EXCEPTION)),
    (b"NegativeSize", TypeKind::Object, Some(EXCEPTION)),
    (b"EmptyReduction", TypeKind::Object, Some(EXCEPTION)),
    (b"MatchFailure", TypeKind::Object, Some(EXCEPTION)),
    (b"DepthExceeded", TypeKind::Object, Some(EXCEPTION)),
    (b"TryAtomicFailure", TypeKind::Object, Some(EXCEPTION)),
    (b"AbortOutside", TypeKind::Object, Some(EXCEPTION)),
];

/// The numbers of the built-in types that values and steps name.
pub const BUILT_IN: BuiltIn = BuiltIn {
    object: OBJECT,
    exception: EXCEPTION,
    small: ZZ32,
    large: ZZ64,
    text: STRING,
    truth: BOOLEAN,
    range: RANGE,
    integer_overflow: INTEGER_OVERFLOW,
    division_by_zero: DIVISION_BY_ZERO,
    negative_exponent: NEGATIVE_EXPONENT,
    index_out_of_range: INDEX_OUT_OF_RANGE,
    negative_size: NEGATIVE_SIZE,
    depth_exceeded: DEPTH_EXCEEDED,
    try_atomic_failure: TRY_ATOMIC_FAILURE,
    abort_outside: ABORT_OUTSIDE,
};

/// The rows of the table.
#[tactic(auto, unfolding(crate::specs::Types::types))]
pub(crate) fn table() -> &'static [TypeRow]
    ensures rows { map row_of result.now ≡ types }
    ensures long { length result.now ≡ TYPE_COUNT }
{
    &TYPES
}

/// The name of a built-in type by its number; behind the declared types `Any`, and past it no
/// bytes.
pub fn type_name(number: usize) -> &'static [u8]
    ensures { result.now ≡ get_or type_spellings number [] }
{
    match table().get(number) {
        Some(row) => row.0,
        None if number == TYPE_COUNT => ANY,
        None => b"",
    }
}

/// The names of the built-in declared types, in the order of their numbers.
///
/// # Errors
///
/// `Memory` where memory is wanting.
pub fn names(alloc: Global) -> Result<List<Bytes>, Memory>
    ensures { IfOk result (λ names. names ≡ declared_spellings) }
{
    let mut names = List::new(alloc);
    for row in table() {
        names.push(List::from_slice(alloc, row.0)?)?;
    }
    Ok(names)
}

/// The built-in declared types, in the order of their numbers.
///
/// # Errors
///
/// `Memory` where memory is wanting.
pub fn declared_types(alloc: Global) -> Result<List<DeclaredType>, Memory>
    ensures { IfOk result (λ types. types ≡ built_in_declared) }
{
    let mut types = List::new(alloc);
    for row in table() {
        types.push(declared_type(alloc, row)?)?;
    }
    Ok(types)
}

/// What a row of the table declares.
fn declared_type(alloc: Global, row: &TypeRow) -> Result<DeclaredType, Memory>
    ensures { IfOk result (λ declared. declared ≡ declared_by_row (row_of row.now)) }
{
    let mut extends = List::new(alloc);
    if let Some(above) = row.2 {
        extends.push(above.0 as usize)?;
    }
    Ok(DeclaredType {
        kind: row.1,
        extends,
        excludes: List::new(alloc),
        comprises: List::new(alloc),
    })
}
