ghost use Rattle.std.specs.Prelude.{◌≡◌, ◌<◌, ◌≤◌, true, ◌&&◌, MatchOption};

use crate::preference::Preference;
use crate::search::Search;
use crate::trails::{POOL, Trail};
use graphs::Graph;

// Whether the task is preferred to what is found so far.
fn preferred<P: Preference>(
    preference: &P,
    processor: usize,
    had: Option<u8>,
    task: usize,
    found: Option<usize>,
) -> bool
    ensures { MatchOption found (result ≡ true) (λ a. result ≡ P.order preference.now processor had task a) }
{
    found.is_none_or(|best| preference.comes_before(processor, had, task, best))
}

impl<'a, G: Graph> Search<'a, G> {
    ghost use Rattle.graphs.specs.Graphs.{at};
    ghost use Rattle.preferences.specs.Reach.{node, reached, Chosen};

    // The node at which a task lies. That the task is inside is asked by each method, of its own argument.
    pub(crate) fn node_of(&self, task: usize) -> usize
        requires { task < 64 }
        ensures is { result ≡ node (at self.now.holder task) }
        ensures near { result ≤ POOL }
    {
        self.holder[task].map_or(POOL, usize::from)
    }

    // Whether the task is joined to the start and lies at a node that was reached.
    fn at_hand(&self, trail: &Trail, task: usize) -> bool
        requires { task < 64 }
        ensures { result ≡ (reached trail.now (node (at self.now.holder task)) && (G.shape self.now.graph.now).joined task self.now.start) }
    {
        trail.nodes[self.node_of(task)].is_some() && self.graph.joins(task, self.start)
    }

    // The most preferred task of those at hand.
    pub(crate) fn choose<P: Preference>(
        &self,
        trail: &Trail,
        preference: &P,
        had: Option<u8>,
    ) -> Option<usize>
        ensures { Chosen (P.order preference.now) had (G.shape self.now.graph.now) self.now.holder (reached trail.now) self.now.start (G.shape self.now.graph.now).firsts result }
    {
        let mut best = None;
        // By number: the best so far is compared with each task in turn, and a `reduce` would be no plainer.
        for task in 0..self.graph.firsts() {
            if self.at_hand(trail, task) && preferred(preference, self.start, had, task, best) {
                best = Some(task);
            }
        }
        best
    }
}
