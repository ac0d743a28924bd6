//! Whether the choices of children are right.

ghost use Rattle.std.specs.Prelude.{◌≡◌, ℕ, ◌<◌, ◌↔◌, ◌&&◌, ◌||◌, not, IsTrue, IfSome, IfNone};
ghost use Rattle.mixed_graph.specs.Vocabulary.{has, graph_of};
ghost use Rattle.hedge.specs.Hedges.{IsRightChoice};
ghost use Rattle.hedge.specs.Faults.{IsLowestWrong};

use crate::hedge::Hedge;
use mixed_graph::{Graph, VSet};

/// Where a vertex may lead: big, and small for a member of small.
fn home(h: &Hedge, v: u8) -> VSet
    requires { v < 64 }
    ensures { (u : ℕ) → has result.bits u ≡ (has h.now.big.bits u && (not (has h.now.small.bits v) || has h.now.small.bits u)) }
{
    if h.small.has(v) {
        h.big.intersection(h.small)
    } else {
        h.big
    }
}

/// Whether the choice of v is right.
fn chooses_right(g: &Graph, h: &Hedge, v: u8) -> bool
    requires { v < 64 }
    ensures { IsTrue result ↔ IsRightChoice (graph_of g.now) h.now v }
{
    let next = h.choice.next[v as usize];
    if !h.big.difference(h.roots).has(v) {
        return next == 64;
    }
    let children = g.children(v).intersection(home(h, v));
    next < 64 && children.has(next)
}

/// The lowest vertex with a wrong choice, if there is one.
pub fn wrong_choice(g: &Graph, h: &Hedge) -> Option<u8>
    ensures wrong { IfSome result (IsLowestWrong (λ u. u < 64) (IsRightChoice (graph_of g.now) h.now)) }
    ensures right { IfNone result ((v : ℕ) → v < 64 → IsRightChoice (graph_of g.now) h.now v) }
{
    for v in 0..64u8 {
        if !chooses_right(g, h, v) {
            return Some(v);
        }
    }
    None
}
