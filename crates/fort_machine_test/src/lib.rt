//! Tests from outside, of what no clause says: of primitives, stores, records, notes, the bank
//! and the parts of terms.
//! They stand apart from the crates that they test, so that those are proved once.
#![tactic(auto)]

#[cfg(test)]
mod banks;
#[cfg(test)]
mod notes;
#[cfg(test)]
mod parts;
#[cfg(test)]
mod primitives;
#[cfg(test)]
mod records;
#[cfg(test)]
mod stores;
#[cfg(test)]
mod terms;
