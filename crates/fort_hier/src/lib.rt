//! The hierarchy of a component: its declared types, and the rules that their heads keep.
#![tactic(auto)]

mod accepted;
mod checked;
mod duplicates;
mod heads;
mod laws;
mod lowest;
mod numbers;
mod refusals;
mod seen;
mod sentences;
mod spellings;
mod tops;
mod types;
mod unknown;
mod walks;

pub use accepted::{Hierarchy, places_in};
pub use checked::hierarchy;
pub use heads::{TypeHead, heads_in};
pub use laws::{accepted_is_sound, no_type_below_two};
pub use lowest::{BrokenSentence, lowest_broken};
pub use numbers::{Numbers, numbers_in};
pub use sentences::{Sentence, first_broken};
pub use spellings::spelled;
pub use tops::is_with_self;
pub use types::types_in;
