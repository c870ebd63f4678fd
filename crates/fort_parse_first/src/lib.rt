//! What the parts of expressions and of declarations begin with, over tokens and trees.
#![tactic(auto)]

mod beginnings;
mod declarations;
mod endings;
mod plain;

pub use beginnings::{
    begins_case_clause, begins_else, begins_flat_part, begins_item, begins_run_part,
    begins_type_clause, is_next_tight, sees_arguments, sees_assign, sees_head, sees_infix,
    sees_postfix, sees_prefix,
};
pub use declarations::{
    begins_declared, begins_object_entry, begins_trait_entry, ends_without_body,
};
pub use endings::semicolon;
pub use plain::{PlainNames, plain_name, plain_names};
