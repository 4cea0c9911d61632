ghost use Rattle.std.specs.Prelude.{◌≡◌, ℕ, ◌<◌, true, length, Some, ◌≢◌};
ghost use Rattle.preferences.specs.Reach.{Shifted};

use crate::search::Search;
use crate::trails::{POOL, Trail};
use graphs::Graph;

// y lets go, and x takes.
fn shift(row: &mut [Option<u8>; 16], x: usize, y: usize, taken: Option<u8>)
    requires { x ≢ y }
    ensures { Shifted row.old x y taken row.new }
{
    if x < POOL {
        row[x] = taken;
    }
    if y < POOL {
        row[y] = None;
    }
}

impl<'a, G: Graph> Search<'a, G> {
    ghost use Rattle.graphs.specs.Graphs.{at};
    ghost use Rattle.pairings.specs.Rules.{marking};
    ghost use Rattle.pairings.specs.Servings.{Serving};
    ghost use Rattle.preferences.specs.Reach.{node, reached};
    ghost use Rattle.preferences.specs.Searches.{IsTrail};

    // The row in which the start takes the task, and each processor on the way back takes what the one before it lets go.
    pub(crate) fn hand_over(&self, trail: &Trail, task: usize) -> [Option<u8>; 16]
        requires serving { Serving (G.shape self.now.graph.now) (marking self.now.marks.now).urgent (marking self.now.marks.now).full (at self.now.row.now) }
        requires trailed { IsTrail self.now trail.now }
        requires inside { task < (G.shape self.now.graph.now).firsts }
        requires edge { (G.shape self.now.graph.now).joined task self.now.start ≡ true }
        requires lies { reached trail.now (node (at self.now.holder task)) ≡ true }
        ensures wide { length result ≡ 16 }
        ensures serving { Serving (G.shape self.now.graph.now) (marking self.now.marks.now).urgent (marking self.now.marks.now).full (at result) }
        ensures same { (q : ℕ) → q < self.now.start → at result q ≡ at self.now.row.now q }
        ensures here { at result self.now.start ≡ Some task }
    {
        let mut row = *self.row;
        let mut x = self.node_of(task);
        if x < POOL {
            row[x] = None;
        }
        while x != self.start {
            let reach = trail.nodes[x].unwrap();
            let via = usize::from(reach.via);
            shift(&mut row, x, via, reach.by);
            x = via;
        }
        // By `as`: proved to fit, and there is no `From` to a narrower type.
        row[self.start] = Some(task as u8);
        row
    }
}
