ghost use Rattle.std.specs.Prelude.{◌≡◌, ℕ, ◌<◌, ◌≤◌, length, Some, MatchOption};
ghost use Rattle.graphs.specs.Graphs.{Small, Row, at};
ghost use Rattle.graphs.specs.Covers.{Cover};
ghost use Rattle.pairings.specs.Rules.{marking};

use crate::marks::Marks;
use crate::matching::Matching;
use crate::pairing::Pairing;
use crate::rules::PairingRule;
use crate::walks::Union;
use graphs::{Graph, Turned, search};
use std::array;

// The first entries of a row, in bytes.
fn narrow<const N: usize>(row: &[Option<usize>; 64]) -> [Option<u8>; N]
    requires few { N ≤ 64 }
    requires bytes { (k e : ℕ) → at row.now k ≡ Some e → e < 256 }
    ensures wide { length result ≡ N }
    ensures same { (k : ℕ) → k < N → at result k ≡ at row.now k }
{
    // By `as`: proved to fit, and there is no `From` to a narrower type.
    array::from_fn(|k| row[k].map(|e| e as u8))
}

// The graph and its marks come apart, as `choose` is handed them.
// A row that covers the marks: the two matchings joined, every second edge of each part of the union dropped.
fn cover<G: Graph>(graph: &G, marks: &Marks) -> Option<[Option<u8>; 16]>
    ensures answer { MatchOption result ((other : Row) → Cover (G.shape graph.now) (marking marks.now) other → ⊥) (λ row. Cover (G.shape graph.now) (marking marks.now) row) }
    ensures small { Small (G.shape graph.now) }
{
    if graph.seconds() > 16 {
        return None;
    }
    let tasks = search(graph, &marks.urgent)?;
    let holders = search(&Turned { graph }, &marks.full)?;
    let union = Union {
        urgent: Matching::of_tasks(narrow(&tasks)),
        full: Matching::of_holders(narrow(&holders)),
    };
    let sides = union.settle(graph.seconds());
    Some(union.keep(&sides))
}

/// Some cover: a matching of the urgent tasks and one of the full processors, joined.
#[derive(Clone, Copy)]
pub struct UnionRule;

impl PairingRule for UnionRule {
    ghost admits = { λ _ g marks before row. Cover g marks row };

    ghost covering = { λ _ g marks before row h. h };

    fn pair<G: Graph>(
        &self,
        graph: &G,
        marks: &Marks,
        before: &Pairing,
        out: &mut Pairing,
    ) -> bool {
        let chosen = self.choose(graph, marks, before);
        *out = chosen.unwrap_or(Pairing::idle());
        chosen.is_some()
    }

    // By itself and not over `pair`, which stands on it here.
    fn choose<G: Graph>(&self, graph: &G, marks: &Marks, _before: &Pairing) -> Option<Pairing> {
        let row = cover(graph, marks)?;
        Some(Pairing::sound(row))
    }
}
