//! Whether data are a hedge (Shpitser and Pearl 2006).

ghost use Rattle.std.specs.Prelude.{◌≡◌, ℕ, ◌<◌, ◌↔◌, IsTrue, IsOk, IfSome, IfNone, IfErr};
ghost use Rattle.mixed_graph.specs.Vocabulary.{has, Within, graph_of};
ghost use Rattle.hedge.specs.Linked.{IsInside};
ghost use Rattle.hedge.specs.Hedges.{AreHedgeSets, Reaches, IsHedge};
ghost use Rattle.hedge.specs.Faults.{IsLowestWrong, IsFirstHedgeFault};

use crate::choices::wrong_choice;
use crate::entries::wrong_link;
use crate::hedge::{Hedge, HedgeFault};
use mixed_graph::{Graph, VSet};

/// Whether each member of s is one of t.
fn is_inside(s: VSet, t: VSet) -> bool
    ensures { IsTrue result ↔ IsInside s.bits t.bits }
{
    s.difference(t).is_empty()
}

/// Whether big lies below n, small in big, the roots in small, and there is a root.
fn has_sets(g: &Graph, h: &Hedge) -> bool
    ensures { IsTrue result ↔ AreHedgeSets (graph_of g.now) h.now }
{
    let low = g.covers(h.big);
    let small_inside = is_inside(h.small, h.big);
    let roots_inside = is_inside(h.roots, h.small);
    let rooted = h.roots.bits != 0;
    low && small_inside && roots_inside && rooted
}

/// The lowest root without a directed path to y outside x, if there is one.
fn lost_root(g: &Graph, x: VSet, y: VSet, h: &Hedge) -> Option<u8>
    requires { Within g.now.n (has y.bits) }
    ensures wrong { IfSome result (IsLowestWrong (λ u. IsTrue (has h.now.roots.bits u)) (Reaches (graph_of g.now) x.bits y.bits)) }
    ensures right { IfNone result ((v : ℕ) → IsTrue (has h.now.roots.bits v) → Reaches (graph_of g.now) x.bits y.bits v) }
{
    let free = VSet::below(g.n).difference(x);
    let lost = h.roots.difference(g.induced(free).ancestors(y));
    if lost.is_empty() {
        None
    } else {
        Some(lost.lowest())
    }
}

/// Whether the data is a hedge for the effect of x on y; else the first fault.
pub fn holds(g: &Graph, x: VSet, y: VSet, h: &Hedge) -> Result<(), HedgeFault>
    requires { Within g.now.n (has y.bits) }
    ensures hedge { IsOk result ↔ IsHedge (graph_of g.now) x.bits y.bits h.now }
    ensures fault { IfErr result (IsFirstHedgeFault (graph_of g.now) x.bits y.bits h.now) }
{
    if !has_sets(g, h) {
        return Err(HedgeFault::Sets);
    }
    if h.big.intersection(x).is_empty() {
        return Err(HedgeFault::BigMissesX);
    }
    if !h.small.intersection(x).is_empty() {
        return Err(HedgeFault::SmallMeetsX);
    }
    if let Some(v) = wrong_choice(g, h) {
        return Err(HedgeFault::Choice(v));
    }
    if let Some(v) = wrong_link(g, h) {
        return Err(HedgeFault::Link(v));
    }
    match lost_root(g, x, y, h) {
        Some(v) => Err(HedgeFault::Root(v)),
        None => Ok(()),
    }
}
