ghost use Rattle.std.specs.Prelude.{◌≡◌, ℕ, ◌<◌, Some};
ghost use Rattle.graphs.specs.Graphs.{at};
ghost use Rattle.builder.specs.Building.{Longest};
ghost use Rattle.builder.specs.Lasting.{holder, lasting};
ghost use Rattle.builder.specs.Lefts.{left_of};
ghost use Rattle.builder.specs.Reading.{across};

use crate::axes::Lines;
use crate::left::Left;

// The processor that the row pairs with the task.
fn processor_of(row: &[Option<u8>], task: u8) -> Option<usize>
    ensures { result ≡ holder row.now task }
{
    row.iter().position(|named| *named == Some(task))
}

// A row of what is left, about to be laid.
#[derive(Clone, Copy)]
pub(crate) struct Laying<'a> {
    pub(crate) left: &'a Left,
    pub(crate) row: &'a [Option<u8>; 16],
    ghost pairs: { (p t : ℕ) → at row.now p ≡ Some t → (t < (left_of left.now).tasks) × (p < (left_of left.now).processors) },
}

impl<'a> Laying<'a> {
    fn task_lasts(&self, task: usize) -> u32
        requires { task < (left_of self.now.left.now).tasks }
        ensures { result ≡ lasting (left_of self.now.left.now) task (holder self.now.row.now task) }
    {
        let work = &self.left.work;
        let row = self.row;
        // By `as`: proved to fit, and there is no `From` to a narrower type.
        work.lasts(task, processor_of(&row[..work.processors], task as u8))
    }

    fn processor_lasts(&self, processor: usize) -> u32
        requires { processor < (left_of self.now.left.now).processors }
        ensures { result ≡ lasting (across (left_of self.now.left.now)) processor (at self.now.row.now processor) }
    {
        let across = self.left.work.across();
        across.lasts(processor, self.row[processor].map(usize::from))
    }

    // The longest time that the row may last.
    pub(crate) fn longest(&self) -> u32
        ensures { Longest (left_of self.now.left.now) self.now.row.now result }
    {
        let work = &self.left.work;
        // Two folds: a chain of both would ask before each line which of them it is in.
        let by_tasks = (0..work.tasks)
            .map(|task| self.task_lasts(task))
            .fold(work.frame, u32::min);
        (0..work.processors)
            .map(|processor| self.processor_lasts(processor))
            .fold(by_tasks, u32::min)
    }
}
