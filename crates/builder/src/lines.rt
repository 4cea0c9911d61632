/// A line of a sheet: the ticks of one task, or those on one processor.
#[derive(Clone, Copy, PartialEq, Eq, Debug)]
pub enum Line {
    Task(usize),
    Processor(usize),
}
