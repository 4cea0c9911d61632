ghost use Rattle.std.specs.Prelude.{◌≡◌, ℕ, ◌<◌, true, false, not, is_some, Some, None, MatchOption, ◌≢◌};

use crate::search::Search;
use crate::trails::{NODES, POOL, Reach, Trail};
use graphs::Graph;

// That a trail is one of this search stands in the clauses: as a ghost field of the trail it would name the search, and each method would have to
// say that the trail keeps its search. `HasRoom` stands there too: only the node that is followed has it.
impl<'a, G: Graph> Search<'a, G> {
    ghost use Rattle.graphs.specs.Graphs.{at};
    ghost use Rattle.pairings.specs.Rules.{marking};
    ghost use Rattle.preferences.specs.Reach.{Closed, depth_of, HasRoom, reached, Kind, More, Followed, Drawn, Expanded};
    ghost use Rattle.preferences.specs.Searches.{IsTrail};

    // Writes down that y leads to x, unless x was reached before.
    fn reach(&self, x: usize, y: usize, by: Option<u8>, trail: &mut Trail)
        requires trailed { IsTrail self.now trail.old }
        requires room { HasRoom trail.old y }
        requires near { x < 17 }
        requires late { self.now.start < x }
        requires kind { Kind (G.shape self.now.graph.now) (marking self.now.marks.now) self.now.row.now x y by }
        ensures trailed { IsTrail self.now trail.new }
        ensures more { More trail.old trail.new }
        ensures room { HasRoom trail.new y }
        ensures here { 0 < depth_of trail.new x }
    {
        if trail.nodes[x].is_none() {
            let depth = trail.nodes[y].unwrap().depth + 1;
            trail.nodes[x] = Some(Reach {
                depth,
                // By `as`, here and below: proved to fit, and there is no `From` to a narrower type.
                via: y as u8,
                by,
                followed: false,
            });
        }
    }

    // The later processors that are joined to the task of y.
    fn pass_on(&self, y: usize, task: u8, trail: &mut Trail)
        requires held { at self.now.row.now y ≡ Some task }
        requires trailed { IsTrail self.now trail.old }
        requires room { HasRoom trail.old y }
        ensures trailed { IsTrail self.now trail.new }
        ensures more { More trail.old trail.new }
        ensures pass { (r : ℕ) → self.now.start < r → r < (G.shape self.now.graph.now).seconds → (G.shape self.now.graph.now).joined task r ≡ true → 0 < depth_of trail.new r }
    {
        // By number, since a turn writes the trail that the next one reads.
        for q in self.start + 1..self.graph.seconds() {
            if trail.nodes[q].is_none() && self.graph.joins(usize::from(task), q) {
                self.reach(q, y, Some(task), trail);
            }
        }
    }

    // Whether a processor may let go of what it holds.
    fn may_let_go(&self, y: usize) -> bool
        requires { y < 16 }
        ensures { MatchOption (at self.now.row.now y) (result ≡ true) (λ a. result ≡ not ((marking self.now.marks.now).urgent a)) }
    {
        self.row[y].is_none_or(|task| !self.marks.urgent[usize::from(task)])
    }

    // What a processor leads to: the pool, where it may let go, and those joined to its task.
    fn follow(&self, y: usize, trail: &mut Trail)
        requires near { y < 16 }
        requires trailed { IsTrail self.now trail.old }
        requires room { HasRoom trail.old y }
        ensures trailed { IsTrail self.now trail.new }
        ensures more { More trail.old trail.new }
        ensures followed { Followed (G.shape self.now.graph.now) (marking self.now.marks.now) self.now.row.now self.now.start trail.new y }
    {
        if self.may_let_go(y) {
            self.reach(POOL, y, None, trail);
        }
        if let Some(task) = self.row[y] {
            self.pass_on(y, task, trail);
        }
    }

    // A task that nobody holds and that is joined to the processor. Like the search's `fresh`, one `find` over a table of its own.
    fn loose(&self, q: usize) -> Option<usize>
        ensures { MatchOption result ((a : ℕ) → a < (G.shape self.now.graph.now).firsts → is_some (at self.now.holder a) ≡ false → (G.shape self.now.graph.now).joined a q ≢ true) (λ a. (a < (G.shape self.now.graph.now).firsts) × (a < 64) × (is_some (at self.now.holder a) ≡ false) × ((G.shape self.now.graph.now).joined a q ≡ true)) }
    {
        let (graph, holder) = (self.graph, &self.holder);
        (0..graph.firsts()).find(|&task| holder[task].is_none() && graph.joins(task, q))
    }

    // What the pool leads to: those who may go idle, and those joined to a task that nobody holds.
    fn draw(&self, trail: &mut Trail)
        requires trailed { IsTrail self.now trail.old }
        requires room { HasRoom trail.old POOL }
        ensures trailed { IsTrail self.now trail.new }
        ensures more { More trail.old trail.new }
        ensures drawn { Drawn (G.shape self.now.graph.now) (marking self.now.marks.now) self.now.row.now self.now.holder self.now.start trail.new (G.shape self.now.graph.now).seconds }
    {
        // By number, since a turn writes the trail that the next one reads.
        for q in self.start + 1..self.graph.seconds() {
            if trail.nodes[q].is_none() {
                if !self.marks.full[q] {
                    self.reach(q, POOL, None, trail);
                } else if let Some(task) = self.loose(q) {
                    self.reach(q, POOL, Some(task as u8), trail);
                }
            }
        }
    }

    // What a node leads to. A test and no closures: the pool and a processor are its only two cases.
    fn expand(&self, x: usize, trail: &mut Trail)
        requires near { x < 17 }
        requires trailed { IsTrail self.now trail.old }
        requires room { HasRoom trail.old x }
        ensures trailed { IsTrail self.now trail.new }
        ensures more { More trail.old trail.new }
        ensures expanded { Expanded (G.shape self.now.graph.now) (marking self.now.marks.now) self.now.row.now self.now.holder self.now.start trail.new x }
    {
        if x == POOL {
            self.draw(trail);
        } else {
            self.follow(x, trail);
        }
    }

    // What can be reached from the start.
    pub(crate) fn explore(&self) -> Trail
        ensures trailed { IsTrail self.now result }
        ensures closed { Closed (G.shape self.now.graph.now) (marking self.now.marks.now) self.now.row.now self.now.holder self.now.start (reached result) }
    {
        let mut trail = Trail {
            nodes: [None; NODES],
        };
        trail.nodes[self.start] = Some(Reach {
            depth: 0,
            via: self.start as u8,
            by: None,
            followed: false,
        });
        while let Some(x) = trail.pending() {
            trail.tick(x);
            self.expand(x, &mut trail);
        }
        trail
    }
}
