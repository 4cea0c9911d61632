ghost use Rattle.std.specs.Prelude.{◌≡◌};
ghost use Rattle.builder.specs.Lefts.{work_of};
ghost use Rattle.builder.specs.Reading.{across};

use crate::axes::Lines;
use crate::work::Work;

// The lines of the tasks.
impl Lines for Work {
    ghost load = { work_of };

    fn lines(&self) -> usize {
        self.tasks
    }

    fn places(&self) -> usize {
        self.processors
    }

    fn frame(&self) -> u32 {
        self.frame
    }

    fn ticks(&self, task: usize, processor: usize) -> u32 {
        self.ticks[task][processor]
    }

    ghost beyond = { λ s line place h. s.below line place h };
}

// The lines of the processors.
#[derive(Clone, Copy)]
pub(crate) struct Across<'a> {
    work: &'a Work,
}

impl Work {
    pub(crate) fn across(&self) -> Across<'_>
        ensures { result.work.now ≡ self.now }
    {
        Across { work: self }
    }
}

impl<'a> Lines for Across<'a> {
    ghost load = { λ s. across (work_of s.work.now) };

    fn lines(&self) -> usize {
        self.work.processors
    }

    fn places(&self) -> usize {
        self.work.tasks
    }

    fn frame(&self) -> u32 {
        self.work.frame
    }

    fn ticks(&self, processor: usize, task: usize) -> u32 {
        self.work.ticks[task][processor]
    }

    ghost beyond = { λ s line place h. s.work.now.beside place line h };
}
