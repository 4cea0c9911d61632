ghost use Rattle.std.specs.Prelude.{◌≡◌, ℕ, ◌<◌, ◌≤◌, length, Some};
ghost use Rattle.graphs.specs.Graphs.{Small, at};
ghost use Rattle.pairings.specs.Flips.{Flipped};
ghost use Rattle.std.proofs.Props.{props};

use graphs::Graph;
use pairings::Marks;

// A search for what a processor can be given: the graph and its marks, a row, who holds each task in it, and the processor.
#[derive(Drop)]
pub(crate) struct Search<'a, G: Graph> {
    pub(crate) graph: &'a G,
    pub(crate) marks: &'a Marks,
    pub(crate) row: &'a [Option<u8>; 16],
    pub(crate) holder: [Option<u8>; 64],
    pub(crate) start: usize,
    pub(crate) ghost small: { Small (G.shape graph.now) },
    pub(crate) ghost few: { (G.shape graph.now).seconds ≤ 16 },
    pub(crate) ghost inside: { start < (G.shape graph.now).seconds },
    pub(crate) ghost wide: { length row.now ≡ 16 },
    pub(crate) ghost near: { (p t : ℕ) → at row.now p ≡ Some t → t < 64 },
    pub(crate) ghost flipped: { Flipped 64 row.now holder } by { Prim.hlevel props },
}
