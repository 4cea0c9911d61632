// The ticks of each pair, in 64 lines of 16.
ghost use Rattle.std.specs.Prelude.{◌≡◌, ◌<◌};
ghost use Rattle.sheets.specs.Cells.{cell, nothing, written, cleared};
ghost use Rattle.sheets.specs.Tables.{tick_at};

const NO_TICKS: [[u32; 16]; 64] = [[0; 16]; 64];

// Fixed in size, since the library allocates nothing.
#[derive(Clone, Copy)]
pub(crate) struct Table {
    ticks: [[u32; 16]; 64],
}

// Each method requires that its index is inside; its caller has tested it.
impl Table {
    pub(crate) fn blank() -> Table
        ensures { tick_at result ≡ nothing }
    {
        Table { ticks: NO_TICKS }
    }

    pub(crate) fn at(&self, task: usize, processor: usize) -> u32
        requires task_bound { task < 64 }
        requires processor_bound { processor < 16 }
        ensures { result ≡ tick_at self.now task processor }
    {
        self.ticks[task][processor]
    }

    pub(crate) fn put(&mut self, task: usize, processor: usize, ticks: u32)
        requires task_bound { task < 64 }
        requires processor_bound { processor < 16 }
        ensures { tick_at self.new ≡ written (tick_at self.old) task processor ticks }
    {
        // In two steps: a line that is borrowed by itself is known to have 16 places.
        let line = &mut self.ticks[task];
        line[processor] = ticks;
    }

    pub(crate) fn clear_line(&mut self, task: usize)
        requires { task < 64 }
        ensures { tick_at self.new ≡ cleared (tick_at self.old) task }
    {
        self.ticks[task] = [0; 16];
    }

    pub(crate) fn clear(&mut self)
        ensures { tick_at self.new ≡ nothing }
    {
        self.ticks = NO_TICKS;
    }

    pub(crate) fn lines(&self) -> [[u32; 16]; 64]
        ensures { cell result ≡ tick_at self.now }
    {
        self.ticks
    }
}
