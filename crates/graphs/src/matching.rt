ghost use Rattle.std.specs.Prelude.{◌≡◌, ◌+◌, ◌<◌, None, MatchOption};
ghost use Rattle.graphs.specs.Search.{Hops, Stale, Fresh, Exhausted, Onward, Step, Closed, Owned, Found, Matched, Hopeless, flag};

use crate::sides::Graph;

// The last edge of a way to a second-side node: from the start, or from the owner of another node, by its number: nothing is
// allocated, and the nodes of a graph are numbers.
#[derive(Clone, Copy)]
enum Hop {
    FromStart,
    FromOwnerOf(usize),
}

// How each second-side node was reached, if it was, and one of them that nobody owns.
#[derive(Clone, Copy)]
struct Trail {
    hops: [Option<Hop>; 64],
    end: usize,
}

// A neighbour of the first-side node a that is not reached yet. The owners and the hops are handed apart, since
// hops are written between two questions.
fn fresh<G: Graph>(graph: &G, a: usize, hops: &[Option<Hop>; 64]) -> Option<usize>
    ensures { MatchOption result (Stale (G.shape graph.now) hops.now a) (λ b. Fresh (G.shape graph.now) hops.now a b) }
{
    (0..graph.seconds()).find(|&b| hops[b].is_none() && graph.joins(a, b))
}

// A neighbour, not reached yet, of the owner of a reached node.
fn onward<G: Graph>(
    graph: &G,
    via: usize,
    owner: &[Option<usize>; 64],
    hops: &[Option<Hop>; 64],
) -> Option<usize>
    requires { via < 64 }
    ensures { MatchOption result (Exhausted (G.shape graph.now) owner.now hops.now via) (λ to. Onward (G.shape graph.now) owner.now hops.now via to) }
{
    hops[via]?;
    fresh(graph, owner[via]?, hops)
}

// A node that is not reached yet, and a hop to it.
fn way_out<G: Graph>(
    graph: &G,
    start: usize,
    owner: &[Option<usize>; 64],
    hops: &[Option<Hop>; 64],
) -> Option<(usize, Hop)>
    ensures { MatchOption result (Closed (G.shape graph.now) start owner.now hops.now) (λ s. Step (G.shape graph.now) start owner.now hops.now s.0 s.1) }
{
    if let Some(to) = fresh(graph, start, hops) {
        return Some((to, Hop::FromStart));
    }
    // A loop, since the proof of a `find_map` here did not close.
    for via in 0..graph.seconds() {
        if let Some(to) = onward(graph, via, owner, hops) {
            return Some((to, Hop::FromOwnerOf(via)));
        }
    }
    None
}

// Reaches what can be reached from the start, up to a node that nobody owns.
fn explore<G: Graph>(graph: &G, start: usize, owner: &[Option<usize>; 64]) -> Option<Trail>
    ensures { MatchOption result ((h : Hops) × Closed (G.shape graph.now) start owner.now h × Owned owner.now h) (λ t. Found (G.shape graph.now) start owner.now t.hops t.end) }
{
    let mut hops = [None; 64];
    while let Some((to, hop)) = way_out(graph, start, owner, &hops) {
        hops[to] = Some(hop);
        if owner[to].is_none() {
            return Some(Trail { hops, end: to });
        }
    }
    None
}

// Whether a node is marked: past the end of the flags, none is.
fn is_marked(marked: &[bool], a: usize) -> bool
    ensures { result ≡ flag marked.now a }
{
    marked.get(a).copied().unwrap_or(false)
}

// Matches the start too, where it is marked and a way leads to a node that nobody owns.
fn admit<G: Graph>(
    graph: &G,
    marked: &[bool],
    start: usize,
    owner: &mut [Option<usize>; 64],
) -> Option<()>
    requires inside { start < (G.shape graph.now).firsts }
    requires matched { Matched (G.shape graph.now) (flag marked.now) start owner.old }
    ensures { MatchOption result (Hopeless (G.shape graph.now) (flag marked.now)) (λ _. Matched (G.shape graph.now) (flag marked.now) (start + 1) owner.new) }
{
    if !is_marked(marked, start) {
        return Some(());
    }
    let Trail { mut hops, end } = explore(graph, start, owner)?;
    let mut b = end;
    while let Some(Hop::FromOwnerOf(c)) = hops[b].take() {
        owner[b] = owner[c].take();
        b = c;
    }
    owner[b] = Some(start);
    Some(())
}

/// Edges, no two at one node, for all marked nodes of the first side, unless a set of them has too few neighbours.
pub fn search<G: Graph>(graph: &G, marked: &[bool]) -> Option<[Option<usize>; 64]>
    ensures answer { MatchOption result (Hopeless (G.shape graph.now) (flag marked.now)) (λ row. Matched (G.shape graph.now) (flag marked.now) (G.shape graph.now).firsts row) }
    ensures exact { Hopeless (G.shape graph.now) (flag marked.now) → result ≡ None }
{
    let mut owner = [None; 64];
    for start in 0..graph.firsts() {
        admit(graph, marked, start, &mut owner)?;
    }
    Some(owner)
}
