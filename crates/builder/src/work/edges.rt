ghost use Rattle.plans.specs.Remaining.{graph};
ghost use Rattle.builder.specs.Lefts.{work_of};

use crate::work::Work;
use graphs::Graph;

// An edge is a pair with ticks left.
impl Graph for Work {
    ghost shape = { λ s. graph (work_of s) };

    fn firsts(&self) -> usize {
        self.tasks
    }

    fn seconds(&self) -> usize {
        self.processors
    }

    fn joins(&self, task: usize, processor: usize) -> bool {
        task < self.tasks && processor < self.processors && self.ticks[task][processor] > 0
    }
}
