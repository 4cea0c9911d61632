// The listing of a template, a line of its numbers and a line for each slot; or of a refusal, one line.
#![tactic(auto)]

mod layouts;
mod listing;
mod pushes;
mod refusals;
mod texts;

pub use listing::Listable;
pub use refusals::{ListRefusal, Refusal};
