// Graphs of two sides with at most 64 nodes each, and matchings in them.
#![tactic(auto)]

mod matching;
mod rows;
mod sides;

pub use matching::search;
pub use rows::{no_entry_twice, no_entry_twice_before};
pub use sides::{Graph, Turned};
