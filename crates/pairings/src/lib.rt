// Pairings of tasks with processors, and the rules that make them.
#![tactic(auto)]

mod flips;
mod marks;
mod matching;
mod pairing;
mod rules;
mod union;
mod walks;

pub use flips::flipped;
pub use marks::Marks;
pub use pairing::Pairing;
pub use rules::PairingRule;
pub use union::UnionRule;
