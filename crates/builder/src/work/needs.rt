ghost use Rattle.std.specs.Prelude.{◌≡◌, ◌<◌, ◌≤◌, count_by, length, nat_lt};
ghost use Rattle.sheets.specs.Loads.{places_needed};
ghost use Rattle.builder.specs.Lefts.{work_of};

use crate::work::Work;

// How many pairs of a task have ticks.
fn loads_of(line: &[u32]) -> usize
    ensures count { result ≡ count_by (λ ticks. nat_lt 0 ticks) line.now }
    ensures small { result ≤ length line.now }
{
    line.iter().filter(|ticks| **ticks > 0).count()
}

impl Work {
    // How many slots are enough.
    pub(crate) fn places_needed(&self) -> usize
        ensures { result ≡ places_needed (work_of self.now) }
    {
        // What lies past the tasks and the processors is not looked at.
        let loads: usize = self.ticks[..self.tasks]
            .iter()
            .map(|line| loads_of(&line[..self.processors]))
            .sum();
        loads + self.tasks + self.processors
    }
}
