ghost use Rattle.std.specs.Prelude.{◌≤◌};

use crate::refusals::SizeRefusal;

// The longest frame, and the most ticks of a pair.
pub(crate) const MOST: u32 = 1_000_000_000;

/// How many tasks and processors there are, and how long the frame is.
#[derive(Clone, Copy, PartialEq, Eq, Debug)]
pub struct Size {
    pub tasks: usize,
    pub processors: usize,
    pub frame: u32,
    pub ghost tasked: { (1 ≤ tasks) × (tasks ≤ 64) },
    pub ghost manned: { (1 ≤ processors) × (processors ≤ 16) },
    pub ghost framed: { (1 ≤ frame) × (frame ≤ 1000000000) },
}

impl Size {
    ghost use Rattle.std.specs.Prelude.{◌≡◌};
    ghost use Rattle.sheets.specs.Sizes.{told, size_answer};

    /// The size, where each of its three numbers is in range. The questions go in order.
    pub fn new(tasks: usize, processors: usize, frame: u32) -> Result<Size, SizeRefusal>
        ensures { told result ≡ size_answer tasks processors frame }
    {
        let 1..=64 = tasks else {
            return Err(SizeRefusal::TasksOutOfRange);
        };
        let 1..=16 = processors else {
            return Err(SizeRefusal::ProcessorsOutOfRange);
        };
        let 1..=MOST = frame else {
            return Err(SizeRefusal::FrameOutOfRange);
        };
        Ok(Size {
            tasks,
            processors,
            frame,
        })
    }

    /// The same with another frame.
    pub fn with_frame(self, frame: u32) -> Result<Size, SizeRefusal>
        ensures { told result ≡ size_answer self.tasks self.processors frame }
    {
        Size::new(self.tasks, self.processors, frame)
    }
}
