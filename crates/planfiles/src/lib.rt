// Plan files: sheets as bytes. A record is a byte of kind and a body whose length the kind fixes.
#![tactic(auto)]

mod faults;
mod kinds;
mod reader;

pub use faults::{ByteFault, Fault, Layer, PlanFault, RecordFault};
pub use reader::{read_sheet, reads_back};
