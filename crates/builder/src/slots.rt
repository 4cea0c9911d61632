/// A stretch of ticks, and the task that each processor has over them.
#[derive(Clone, Copy, PartialEq, Eq, Debug)]
pub struct Slot {
    pub ticks: u32,
    pub row: [Option<u8>; 16],
}
