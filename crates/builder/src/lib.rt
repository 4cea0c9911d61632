// Builds slots that plan a sheet's load, by any pairing rule.
#![tactic(auto)]

mod axes;
mod building;
mod left;
mod lines;
mod refusals;
mod slots;
mod work;

pub use building::{build, build_default};
pub use lines::Line;
pub use refusals::BuildRefusal;
pub use slots::Slot;
