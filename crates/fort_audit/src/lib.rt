//! Audits of records: whether a record is that of a run of a program. The journal is replayed, and
//! what the run printed is held against what was recorded. The chapter "Audits" of docs/RECORDS.md.
#![tactic(auto)]

mod answer;
mod laws;
mod parting;
mod refusal;

pub use answer::{Audited, audit};
pub use laws::{one_answer, one_output, one_parting};
pub use refusal::{Why, note};

#[cfg(test)]
mod tests;
