//! What links reach from a vertex: edges inside a set of vertices, of which no arrow starts in the set that is given.

ghost use Rattle.std.specs.Prelude.{◌≡◌, ℕ, ◌<◌, ◌&&◌, ◌==◌, ◌↔◌, not, IsTrue};
ghost use Rattle.std.specs.Bool.{OnTrue, OnFalse};
ghost use Rattle.mixed_graph.specs.Vocabulary.{has, graph_of};
ghost use Rattle.mixed_graph.specs.Reached.{Reached};
ghost use Rattle.implications.specs.Links.{is_link, IsSide, IsNextTo};

use mixed_graph::{Graph, VSet, joined};

/// The vertices one link away from a member of a set.
fn linked(g: &Graph, w: VSet, from: VSet) -> VSet
    ensures { (u : ℕ) → IsTrue (has result.bits u) ↔ ((v : ℕ) × IsTrue (has from.bits v) × IsTrue (is_link (graph_of g.now) (has w.bits) v u)) }
{
    let spouses = joined(&g.spouses, from);
    let parents = joined(&g.parents, from).difference(w);
    let children = joined(&g.children, from.difference(w));
    spouses.union(parents).union(children)
}

/// What links reach from a set inside another.
pub fn reached_by_links(g: &Graph, w: VSet, from: VSet, within: VSet) -> VSet
    ensures { (v : ℕ) → IsTrue (has result.bits v) ↔ Reached (is_link (graph_of g.now) (has w.bits)) (has from.bits) (has within.bits) v }
{
    let mut found = VSet::empty();
    let mut front = from.intersection(within);
    'steps: while !front.is_empty() {
        found = found.union(front);
        front = linked(g, w, front).intersection(within).difference(found);
    }
    found
}

/// Whether a vertex or a child of it is on a side.
pub fn is_next_to(g: &Graph, side: VSet, v: u8) -> bool
    requires { v < 64 }
    ensures next { OnTrue result (IsNextTo (graph_of g.now) (has side.bits) v) }
    ensures away { OnFalse result (IsNextTo (graph_of g.now) (has side.bits) v → ⊥) }
{
    let near = g.children(v).union(VSet::one(v)).intersection(side);
    !near.is_empty()
}

/// The side of a vertex when v is given no more: where v is next to it, v joins it with what links reach from v.
pub fn grown(g: &Graph, within: VSet, a: u8, side: VSet, w: VSet, v: u8) -> VSet
    requires v { v < 64 }
    requires inside { IsTrue (has within.bits v) }
    requires given { IsTrue (has w.bits v) }
    requires side { IsSide (graph_of g.now) (has within.bits) (has w.bits) a (has side.bits) }
    ensures { IsSide (graph_of g.now) (has within.bits) (λ u. has w.bits u && not (u == v)) a (has result.bits) }
{
    if !is_next_to(g, side, v) {
        return side;
    }
    let one = VSet::one(v);
    let free = within.difference(side).union(one);
    side.union(reached_by_links(g, w.difference(one), one, free))
}
