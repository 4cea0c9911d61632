ghost use Rattle.std.specs.Prelude.{◌≤◌, nat_le};

use graphs::Graph;

// Node a of the first side is joined to each b of at most a.
#[derive(Clone, Copy)]
pub(crate) struct Ladder {
    pub(crate) firsts: usize,
    pub(crate) seconds: usize,
    ghost firsts_few: { firsts ≤ 64 },
    ghost seconds_few: { seconds ≤ 64 },
}

impl Graph for Ladder {
    ghost shape = { λ g. record { firsts = g.firsts; seconds = g.seconds; joined = λ a b. nat_le b a } };

    fn firsts(&self) -> usize {
        self.firsts
    }

    fn seconds(&self) -> usize {
        self.seconds
    }

    fn joins(&self, a: usize, b: usize) -> bool {
        b <= a
    }
}
