//! The text of a record: a journal and an output as bytes, written and read. The chapter "The text
//! of a record" of docs/RECORDS.md.
#![tactic(auto)]

mod laws;
mod reader;
mod reading;
mod writing;

pub use laws::one_record;
pub use reading::{AuditFault, Record, parsed};
pub use writing::record_of;
