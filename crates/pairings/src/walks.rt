ghost use Rattle.std.specs.Prelude.{◌≡◌, ℕ, ◌<◌, ◌≤◌, Some, None, MatchOption, ◌≢◌, length};
ghost use Rattle.graphs.specs.Graphs.{at};
ghost use Rattle.pairings.specs.declared.walks.Side.TheVariants.{Task, Processor};
ghost use Rattle.pairings.specs.Union.{Joint, Own, Leads, Shut, Grows, EndsOwn, kept, side_at};

use crate::matching::Matching;
use std::array;

// Which of the two matchings keeps its edge at a processor.
#[derive(Clone, Copy, Debug, PartialEq, Eq)]
pub(crate) enum Side {
    Task,
    Processor,
}

// The entry that the side keeps.
fn entry(side: Option<Side>, task: Option<u8>, own: Option<u8>) -> Option<u8>
    ensures { result ≡ kept side task own }
{
    match side {
        Some(Side::Processor) => own,
        _ => task,
    }
}

// A matching of the urgent tasks and one of the full processors, joined.
#[derive(Clone, Copy)]
pub(crate) struct Union {
    pub(crate) urgent: Matching,
    pub(crate) full: Matching,
    ghost joint: { Joint 64 16 full.tasks urgent.holders },
}

impl Union {
    // The next processor of a walk: over the edge of the processors' matching to a task, and over that of the tasks' matching on.
    fn next(&self, p: usize) -> Option<usize>
        requires { p < 16 }
        ensures { MatchOption result ((q : ℕ) → Leads self.now.full.tasks self.now.urgent.holders p q → ⊥) (λ q. Leads self.now.full.tasks self.now.urgent.holders p q) }
    {
        let task = self.full.tasks[p]?;
        self.urgent.holders[usize::from(task)].map(usize::from)
    }

    // Settles the side of the processors on the walk from the start. On the way `Shut` does not hold, so it is no fact of a type.
    fn walk(&self, start: usize, side: Side, sides: &mut [Option<Side>; 16])
        requires near { start < 16 }
        requires shut { Shut 16 self.now.full.tasks self.now.urgent.holders sides.old }
        requires first { side ≡ Processor → (t : ℕ) → at self.now.urgent.holders t ≢ Some start }
        requires free { side ≡ Task → Own sides.old start → ⊥ }
        ensures shut { Shut 16 self.now.full.tasks self.now.urgent.holders sides.new }
        ensures grows { Grows sides.old sides.new }
        ensures own { side ≡ Processor → Own sides.new start }
    {
        let mut p = start;
        sides[p] = Some(side);
        while let Some(q) = self.next(p) {
            if sides[q] == Some(side) {
                return;
            }
            sides[q] = Some(side);
            p = q;
        }
    }

    // Settles the part of a processor that a walk can begin at: one with no edge of the tasks' matching, or one whose task has no edge of the processors'.
    fn begin(&self, p: usize, sides: &mut [Option<Side>; 16])
        requires near { p < 16 }
        requires shut { Shut 16 self.now.full.tasks self.now.urgent.holders sides.old }
        ensures shut { Shut 16 self.now.full.tasks self.now.urgent.holders sides.new }
        ensures grows { Grows sides.old sides.new }
        ensures own { at self.now.urgent.tasks p ≡ None → Own sides.new p }
    {
        match self.urgent.tasks[p] {
            None => self.walk(p, Side::Processor, sides),
            Some(task) => {
                if self.full.holders[usize::from(task)].is_none() && sides[p].is_none() {
                    self.walk(p, Side::Task, sides);
                }
            }
        }
    }

    // The side of each of the first processors: walks from the ends first, then around the rings. Past the graph's own there is nothing to settle.
    pub(crate) fn settle(&self, count: usize) -> [Option<Side>; 16]
        requires { count ≤ 16 }
        ensures shut { Shut 16 self.now.full.tasks self.now.urgent.holders result }
        ensures ends { EndsOwn self.now.urgent.tasks result count }
    {
        let mut sides = [None; 16];
        for p in 0..count {
            self.begin(p, &mut sides);
        }
        // By number, since a walk writes the sides that the next turn reads.
        for p in 0..count {
            if sides[p].is_none() {
                self.walk(p, Side::Task, &mut sides);
            }
        }
        sides
    }

    // The edges that the sides keep.
    pub(crate) fn keep(&self, sides: &[Option<Side>; 16]) -> [Option<u8>; 16]
        ensures wide { length result ≡ 16 }
        ensures kept { (k : ℕ) → k < 16 → at result k ≡ kept (side_at sides.now k) (at self.now.urgent.tasks k) (at self.now.full.tasks k) }
    {
        array::from_fn(|p| entry(sides[p], self.urgent.tasks[p], self.full.tasks[p]))
    }
}
