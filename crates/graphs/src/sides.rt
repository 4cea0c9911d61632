ghost use Rattle.std.specs.Prelude.{◌≡◌};
ghost use Rattle.graphs.specs.Graphs.{Shape, Small, turned};

/// A graph of two sides, with at most 64 nodes on each.
pub trait Graph {
    ghost shape: { Self → Shape };

    /// How many nodes the first side has.
    fn firsts(&self) -> usize
        ensures is { result ≡ (shape self.now).firsts }
        ensures small { Small (shape self.now) };

    /// How many nodes the second side has.
    fn seconds(&self) -> usize
        ensures is { result ≡ (shape self.now).seconds }
        ensures small { Small (shape self.now) };

    /// Whether an edge joins node a of the first side and node b of the second.
    fn joins(&self, a: usize, b: usize) -> bool
        ensures { result ≡ (shape self.now).joined a b };
}

// A graph behind a reference.
impl<'a, G: Graph> Graph for &'a G {
    ghost shape = { λ g. G.Graph.shape g.now };

    fn firsts(&self) -> usize {
        (**self).firsts()
    }

    fn seconds(&self) -> usize {
        (**self).seconds()
    }

    fn joins(&self, a: usize, b: usize) -> bool {
        (**self).joins(a, b)
    }
}

/// A graph with its sides exchanged.
#[derive(Clone, Copy)]
pub struct Turned<G> {
    pub graph: G,
}

impl<G: Graph> Graph for Turned<G> {
    ghost shape = { λ t. turned (G.Graph.shape t.graph) };

    fn firsts(&self) -> usize {
        self.graph.seconds()
    }

    fn seconds(&self) -> usize {
        self.graph.firsts()
    }

    fn joins(&self, a: usize, b: usize) -> bool {
        self.graph.joins(b, a)
    }
}
