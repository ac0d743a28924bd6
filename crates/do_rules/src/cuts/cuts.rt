//! Graphs without the edges into, or out of, a set.

ghost use Rattle.std.specs.Prelude.{◌≡◌, ℕ};
ghost use Rattle.mixed_graph.specs.Vocabulary.{has, Within, graph_of};
ghost use Rattle.do_rules.specs.Cuts.{cut_into, cut_out, cut_edges};

use crate::cuts::rows::{transposed, without};
use mixed_graph::{Graph, Rows, VSet};

/// Edges of a graph: u -> v where bit v of `out[u]` is set, u <-> v where bit v of `both[u]` or bit u of `both[v]` is set.
#[derive(Clone, Copy)]
pub struct EdgeSet {
    pub out: Rows,
    pub both: Rows,
}

/// The graph without the edges that have an arrowhead at a member of x.
pub fn cut_into(g: &Graph, x: VSet) -> Graph
    requires { Within g.now.n (has x.bits) }
    ensures { graph_of result ≡ cut_into (graph_of g.now) (has x.bits) }
{
    let all = VSet::below(g.n);
    let rest = all.difference(x);
    g.restrict(all, rest, rest)
}

/// The graph without the arrows out of z.
pub fn cut_out(g: &Graph, z: VSet) -> Graph
    requires { Within g.now.n (has z.bits) }
    ensures { graph_of result ≡ cut_out (graph_of g.now) (has z.bits) }
{
    let all = VSet::below(g.n);
    g.restrict(all.difference(z), all, all)
}

/// The graph without these edges.
pub fn cut_edges(g: &Graph, e: &EdgeSet) -> Graph
    ensures { graph_of result ≡ cut_edges (graph_of g.now) e.now.out e.now.both }
{
    Graph {
        n: g.n,
        parents: without(&g.parents, &transposed(&e.out)),
        children: without(&g.children, &e.out),
        spouses: without(&without(&g.spouses, &e.both), &transposed(&e.both)),
    }
}
