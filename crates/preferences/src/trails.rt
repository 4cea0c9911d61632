ghost use Rattle.std.specs.Prelude.{◌≡◌, ℕ, ◌<◌, true, MatchOption, length};
ghost use Rattle.preferences.specs.Reach.{Pending, Ticked, depth_of, followed};

// Nodes 0 to 15 are the processors, and one more is the pool: the tasks that nobody holds. A number and no enum, since one table is read by it.
pub(crate) const POOL: usize = 16;

pub(crate) const NODES: usize = POOL + 1;

// How a node was reached: over how many nodes, from which of them, by its number, and with which task on the way back. The start's `via` and
// `by` go unread, and the depth serves the proof alone. In bytes, since a full sheet took about 8 % longer with wider numbers.
#[derive(Clone, Copy)]
pub(crate) struct Reach {
    pub(crate) depth: u8,
    pub(crate) via: u8,
    pub(crate) by: Option<u8>,
    pub(crate) followed: bool,
}

// What a search from a processor reached.
#[derive(Clone, Copy)]
pub(crate) struct Trail {
    pub(crate) nodes: [Option<Reach>; NODES],
}

impl Trail {
    // A node that is reached and not followed yet.
    pub(crate) fn pending(&self) -> Option<usize>
        ensures { MatchOption result ((x : ℕ) → x < 17 → 0 < depth_of self.now x → followed self.now x ≡ true) (λ x. Pending self.now x) }
    {
        (0..NODES).find(|&x| self.nodes[x].is_some_and(|reach| !reach.followed))
    }

    // Notes that a node is followed.
    pub(crate) fn tick(&mut self, x: usize)
        requires wide { length self.old.nodes ≡ 17 }
        requires pending { Pending self.old x }
        ensures { Ticked self.old x self.new }
    {
        if let Some(reach) = &mut self.nodes[x] {
            reach.followed = true;
        }
    }
}
