//! The vertices on proper causal paths, and the graph without the first edges of these.

ghost use Rattle.std.specs.Prelude.{◌≡◌, ℕ, ◌↔◌, ◌&&◌, IsTrue, slice_index};
ghost use Rattle.mixed_graph.specs.Vocabulary.{has, Within, graph_of};
ghost use Rattle.adjustment.specs.Proper.{IsBetween, IsBackDoorGraph};

use do_rules::cuts::{EdgeSet, cut_edges, cut_into};
use mixed_graph::{Graph, Rows, VSet};

/// The vertices outside x that lie on a proper causal path from x to y.
///
/// A path is proper where only its first vertex is in x, and causal where all its edges point
/// forwards (van der Zander, Liskiewicz and Textor).
pub fn proper_causal(g: &Graph, x: VSet, y: VSet) -> VSet
    requires x { Within g.now.n (has x.bits) }
    requires y { Within g.now.n (has y.bits) }
    ensures { (v : ℕ) → IsTrue (has result.bits v) ↔ IsBetween (graph_of g.now) (has x.bits) (has y.bits) v }
{
    let cut = cut_into(g, x);
    let from = cut.descendants(x);
    let towards = cut.ancestors(y);
    from.intersection(towards).difference(x)
}

/// Row u holds `heads` where u is in `tails`; the other rows are empty.
fn rows_from(tails: VSet, heads: VSet) -> Rows
    ensures { (u v : ℕ) → has (slice_index result u) v ≡ (has tails.bits u && has heads.bits v) }
{
    let mut rows = [0u64; 64];
    for u in 0..64u8 {
        rows[u as usize] = heads.only_if(tails.has(u)).bits;
    }
    rows
}

/// The graph without the first edges of the proper causal paths from x to y.
pub fn back_door_graph(g: &Graph, x: VSet, y: VSet) -> Graph
    requires x { Within g.now.n (has x.bits) }
    requires y { Within g.now.n (has y.bits) }
    ensures { IsBackDoorGraph (graph_of g.now) (has x.bits) (has y.bits) (graph_of result) }
{
    let first = EdgeSet {
        out: rows_from(x, proper_causal(g, x, y)),
        both: [0; 64],
    };
    cut_edges(g, &first)
}
