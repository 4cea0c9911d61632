// A load sheet: up to 64 tasks, up to 16 processors, a frame, and the ticks of each pair.
#![tactic(auto)]

mod calls;
mod refusals;
mod sheet;
mod size;
mod table;
mod views;

pub use refusals::{SheetRefusal, SizeRefusal};
pub use sheet::Sheet;
pub use size::Size;
