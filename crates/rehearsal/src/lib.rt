// Calls on a sheet, played in turn, and the build after them.
#![tactic(auto)]

mod answering;
mod calls;
mod playing;

pub use calls::{CallAnswer, CallRefusal, Entry, SheetCall};
pub use playing::rehearse;
