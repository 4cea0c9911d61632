ghost use Rattle.std.specs.Prelude.{◌<◌, ◌≤◌, Some};
ghost use Rattle.graphs.specs.Graphs.{Small, at};
ghost use Rattle.graphs.specs.Covers.{Cover};
ghost use Rattle.pairings.specs.Rules.{marking};
ghost use Rattle.pairings.specs.Servings.{Serving};
ghost use Rattle.preferences.specs.Preferences.{First};
ghost use Rattle.preferences.specs.Reach.{Led};

use crate::preference::Preference;
use crate::search::Search;
use graphs::Graph;
use pairings::{Marks, Pairing, PairingRule, UnionRule, flipped};

/// The first of all covers, by the preference at each processor in turn.
#[derive(Clone, Copy)]
pub struct FirstRule<P> {
    pub preference: P,
}

impl<P: Preference> FirstRule<P> {
    // The graph and its marks come apart, as `choose` is handed them.
    // Gives the processor the best task that a cover with the same entries before it can give.
    fn advance<G: Graph>(
        &self,
        graph: &G,
        marks: &Marks,
        had: Option<u8>,
        p: usize,
        row: &mut [Option<u8>; 16],
    )
        requires small { Small (G.shape graph.now) }
        requires few { (G.shape graph.now).seconds ≤ 16 }
        requires inside { p < (G.shape graph.now).seconds }
        requires serving { Serving (G.shape graph.now) (marking marks.now).urgent (marking marks.now).full (at row.old) }
        ensures { Led (P.order self.now.preference) had (G.shape graph.now) (marking marks.now) row.old p row.new }
    {
        let search = Search {
            graph,
            marks,
            row,
            holder: flipped(row),
            start: p,
        };
        let trail = search.explore();
        if let Some(task) = search.choose(&trail, &self.preference, had) {
            *row = search.hand_over(&trail, task);
        }
    }

    // The first cover, made of any cover: at each processor in turn the best task that a cover can give it.
    fn advanced<G: Graph>(
        &self,
        graph: &G,
        marks: &Marks,
        before: &Pairing,
        cover: [Option<u8>; 16],
    ) -> [Option<u8>; 16]
        requires { Cover (G.shape graph.now) (marking marks.now) cover }
        ensures first { First (P.order self.now.preference) (G.shape graph.now) (marking marks.now) before.now.row result }
        ensures small { Small (G.shape graph.now) }
    {
        let mut row = cover;
        for p in 0..graph.seconds() {
            self.advance(graph, marks, before.task_of(p), p, &mut row);
        }
        row
    }
}

impl<P: Preference> PairingRule for FirstRule<P> {
    ghost admits = { λ r g marks before row. First (P.Preference.order r.preference) g marks before row };

    ghost covering = { λ r g marks before row h. h.cover };

    fn pair<G: Graph>(
        &self,
        graph: &G,
        marks: &Marks,
        before: &Pairing,
        out: &mut Pairing,
    ) -> bool {
        let chosen = self.choose(graph, marks, before);
        *out = chosen.unwrap_or(Pairing::idle());
        chosen.is_some()
    }

    // By itself and not over `pair`, which stands on it here.
    fn choose<G: Graph>(&self, graph: &G, marks: &Marks, before: &Pairing) -> Option<Pairing> {
        let cover = UnionRule.choose(graph, marks, before)?;
        let row = self.advanced(graph, marks, before, cover.row());
        // A cover has no task twice, so its row is never turned away.
        Pairing::from_row(row)
    }
}
