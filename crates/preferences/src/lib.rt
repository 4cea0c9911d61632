// Preferences among tasks, and the rule that pairs by them.
#![tactic(auto)]

mod by_number;
mod choice;
mod explore;
mod first;
mod moves;
mod preference;
mod search;
mod trails;

pub use by_number::ByNumber;
pub use first::FirstRule;
pub use preference::Preference;
