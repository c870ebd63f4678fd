//! The built-in types and the built-in declarations: one table of each.
#![tactic(auto)]

mod laws;
mod objects;
mod table;
mod types;

pub use laws::{numbers_name_types, objects_have_places, table_has_rows};
pub use objects::{OBJECT_COUNT, opening, opening_types, shapes};
pub use table::{
    BuiltInDeclaration, DECLARATION_COUNT, FUNCTION_COUNT, OPERATOR_COUNT, declarations,
    function_name, primitive,
};
pub use types::{
    ABORT_OUTSIDE, ANY, BOOLEAN, BUILT_IN, DEPTH_EXCEEDED, DIVISION_BY_ZERO, EMPTY_REDUCTION,
    EXCEPTION, INDEX_OUT_OF_RANGE, INTEGER_OVERFLOW, MATCH_FAILURE, NEGATIVE_EXPONENT,
    NEGATIVE_SIZE, OBJECT, RANGE, STRING, TRY_ATOMIC_FAILURE, TYPE_COUNT, TYPE_NAME_COUNT, ZZ32,
    ZZ64, declared_types, names, type_name,
};
