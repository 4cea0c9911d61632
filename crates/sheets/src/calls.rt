// The calls on a sheet. Each goes through its questions in order, and a refusal changes nothing.
ghost use Rattle.std.specs.Prelude.{◌≡◌};
ghost use Rattle.sheets.specs.Calls.{blank, after_open, after_set, after_withdraw, after_reframe, open_answer, set_answer, withdraw_answer, reframe_answer};
ghost use Rattle.sheets.specs.Sheets.{load_of};

use crate::refusals::SheetRefusal;
use crate::sheet::Sheet;
use crate::size::{MOST, Size};
use crate::table::Table;
use crate::views::below;

impl Sheet {
    /// One task, one processor, a frame of one tick, no load.
    pub fn blank() -> Sheet
        ensures { load_of result ≡ blank }
    {
        // Written out: three numbers are plainer than a name for them.
        Sheet {
            size: Size {
                tasks: 1,
                processors: 1,
                frame: 1,
            },
            table: Table::blank(),
        }
    }

    /// Replaces the sheet by one without loads.
    pub fn open(&mut self, tasks: usize, processors: usize, frame: u32) -> Result<(), SheetRefusal>
        ensures answer { result ≡ open_answer tasks processors frame }
        ensures state { load_of self.new ≡ after_open (load_of self.old) tasks processors frame }
    {
        self.size = Size::new(tasks, processors, frame)?;
        self.table.clear();
        Ok(())
    }

    /// Replaces the ticks of one pair.
    pub fn set(&mut self, task: usize, processor: usize, ticks: u32) -> Result<(), SheetRefusal>
        ensures answer { result ≡ set_answer (load_of self.old) task processor ticks }
        ensures state { load_of self.new ≡ after_set (load_of self.old) task processor ticks }
    {
        let task = below(task, self.size.tasks, SheetRefusal::TaskOutOfRange)?;
        let processor = below(
            processor,
            self.size.processors,
            SheetRefusal::ProcessorOutOfRange,
        )?;
        let 0..=MOST = ticks else {
            return Err(SheetRefusal::TicksOutOfRange);
        };
        self.table.put(task, processor, ticks);
        Ok(())
    }

    /// Takes every load of one task away.
    pub fn withdraw(&mut self, task: usize) -> Result<(), SheetRefusal>
        ensures answer { result ≡ withdraw_answer (load_of self.old) task }
        ensures state { load_of self.new ≡ after_withdraw (load_of self.old) task }
    {
        let task = below(task, self.size.tasks, SheetRefusal::TaskOutOfRange)?;
        self.table.clear_line(task);
        Ok(())
    }

    /// Replaces the frame.
    pub fn reframe(&mut self, frame: u32) -> Result<(), SheetRefusal>
        ensures answer { result ≡ reframe_answer frame }
        ensures state { load_of self.new ≡ after_reframe (load_of self.old) frame }
    {
        self.size = self.size.with_frame(frame)?;
        Ok(())
    }
}
