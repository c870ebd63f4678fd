//! Tests from outside, of what no clause says. They stand apart from the crates that they test, so
//! that those are proved once.
#![tactic(auto)]

#[cfg(test)]
mod members;
#[cfg(test)]
mod parts;
#[cfg(test)]
mod shown;
#[cfg(test)]
mod tests;
#[cfg(test)]
mod tokens;
#[cfg(test)]
mod types;
#[cfg(test)]
mod values;
