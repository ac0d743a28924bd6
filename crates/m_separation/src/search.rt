//! What open walks reach, and separation.

ghost use Rattle.std.specs.Prelude.{◌≡◌, ℕ, ◌↔◌, false, IsTrue, Bool};
ghost use Rattle.std.specs.Bool.{OnTrue, OnFalse};
ghost use Rattle.mixed_graph.specs.Vocabulary.{has, Within, graph_of};
ghost use Rattle.m_separation.specs.Walks.{HasOpenWalk, IsSeparated, IsReached};
ghost use Rattle.m_separation.specs.States.{AreAncestors, mask_of, IsLed};

use crate::states::States;
use mixed_graph::{Graph, VSet, joined};

/// The states that an edge leads to from those of `from`.
pub fn next(g: &Graph, w: VSet, above: VSet, from: States) -> States
    requires { AreAncestors (graph_of g.now) (has w.bits) (has above.bits) }
    ensures { (k : Bool) (u : ℕ) → IsTrue (has (mask_of result k) u) ↔ IsLed (graph_of g.now) (has w.bits) (mask_of from) u k }
{
    let through = from.passing(w, above, false).vertices();
    let turning = from.passing(w, above, true).vertices();
    States {
        tails: joined(&g.parents, turning),
        heads: joined(&g.children, through).union(joined(&g.spouses, turning)),
    }
}

/// The vertices to which an open walk from x given w leads; the members of x outside w are among them.
pub fn reach(g: &Graph, x: VSet, w: VSet) -> VSet
    requires x { Within g.now.n (has x.bits) }
    requires w { Within g.now.n (has w.bits) }
    ensures reached { (v : ℕ) → IsTrue (has result.bits v) ↔ IsReached (graph_of g.now) (has x.bits) (has w.bits) v }
    ensures start { (v : ℕ) → IsTrue (has x.bits v) → has w.bits v ≡ false → IsTrue (has result.bits v) }
    ensures within { Within g.now.n (has result.bits) }
{
    let above = g.ancestors(w);
    let mut found = States {
        tails: x.difference(w),
        heads: VSet::empty(),
    };
    let mut front = found;
    'grow: while !front.is_empty() {
        front = next(g, w, above, front).difference(found);
        found = found.union(front);
    }
    found.vertices().difference(w)
}

/// Whether no walk from x to y is open given w.
pub fn separated(g: &Graph, x: VSet, y: VSet, w: VSet) -> bool
    requires x { Within g.now.n (has x.bits) }
    requires w { Within g.now.n (has w.bits) }
    ensures apart { OnTrue result (IsSeparated (graph_of g.now) (has x.bits) (has y.bits) (has w.bits)) }
    ensures open { OnFalse result (HasOpenWalk (graph_of g.now) (has x.bits) (has y.bits) (has w.bits)) }
{
    reach(g, x, w).intersection(y).is_empty()
}
