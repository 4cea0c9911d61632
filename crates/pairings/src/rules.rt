ghost use Rattle.pairings.specs.Rules.{Rule, Covering, Chooses, Answers, marking};

use crate::marks::Marks;
use crate::pairing::Pairing;
use graphs::Graph;

/// A way to choose a pairing that contains all that is marked.
pub trait PairingRule {
    ghost admits: { Self → Rule };

    ghost covering: { (r : Self) → Covering (admits r) };

    // A flag with a pairing beside it, since a rule undertakes to write on a no as well: the idle pairing.
    /// Writes a pairing of the graph's edges that the rule admits, or an idle one where none covers the marks.
    fn pair<G: Graph>(&self, graph: &G, marks: &Marks, before: &Pairing, out: &mut Pairing) -> bool
        ensures { Answers (admits self.now) (G.shape graph.now) (marking marks.now) before.now.row result out.new.row };

    /// A pairing of the graph's edges that the rule admits; none exactly where no pairing covers the marks.
    fn choose<G: Graph>(&self, graph: &G, marks: &Marks, before: &Pairing) -> Option<Pairing>
        ensures { Chooses (admits self.now) (G.shape graph.now) (marking marks.now) before.now.row result }
    {
        let mut out = Pairing::idle();
        if self.pair(graph, marks, before, &mut out) {
            Some(out)
        } else {
            None
        }
    }
}
