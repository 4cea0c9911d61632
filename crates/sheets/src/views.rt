// What a sheet answers about itself.
ghost use Rattle.std.specs.Prelude.{◌≡◌, nat_lt, Ok};
ghost use Rattle.sheets.specs.Calls.{asked, look_answer};
ghost use Rattle.sheets.specs.Cells.{cell};
ghost use Rattle.sheets.specs.Sheets.{load_of};

use crate::refusals::SheetRefusal;
use crate::sheet::Sheet;
use crate::size::Size;

// The index, where it is below the bound.
pub(crate) fn below(
    index: usize,
    bound: usize,
    refusal: SheetRefusal,
) -> Result<usize, SheetRefusal>
    ensures { result ≡ asked (nat_lt index bound) refusal (Ok index) }
{
    (index < bound).then_some(index).ok_or(refusal)
}

impl Sheet {
    /// The ticks of one pair.
    pub fn look(&self, task: usize, processor: usize) -> Result<u32, SheetRefusal>
        ensures { result ≡ look_answer (load_of self.now) task processor }
    {
        let size = self.size;
        let task = below(task, size.tasks, SheetRefusal::TaskOutOfRange)?;
        let processor = below(
            processor,
            size.processors,
            SheetRefusal::ProcessorOutOfRange,
        )?;
        Ok(self.table.at(task, processor))
    }

    /// How many tasks and processors it has, and how long its frame is.
    pub fn size(&self) -> Size
        ensures { result ≡ self.now.size }
    {
        self.size
    }

    // The three numbers by name, too, a line each: a trait for sheets and templates would make a call longer.
    pub fn tasks(&self) -> usize
        ensures { result ≡ (load_of self.now).tasks }
    {
        self.size.tasks
    }

    pub fn processors(&self) -> usize
        ensures { result ≡ (load_of self.now).processors }
    {
        self.size.processors
    }

    pub fn frame(&self) -> u32
        ensures { result ≡ (load_of self.now).frame }
    {
        self.size.frame
    }

    /// The ticks of every pair, a line of 16 for each of 64 tasks; 0 outside the sheet.
    pub fn lines(&self) -> [[u32; 16]; 64]
        ensures { cell result ≡ (load_of self.now).ticks }
    {
        self.table.lines()
    }
}
