//! What a hidden cause of a sound model is.

ghost use Rattle.std.specs.Prelude.{◌≡◌, ℕ, ◌<◌, ◌≤◌, ◌↔◌, IsTrue, IfSome, IfNone, length, slice_index};
ghost use Rattle.mixed_graph.specs.Vocabulary.{has, Within, graph_of};
ghost use Rattle.finite_models.specs.Sums.{sum_below};
ghost use Rattle.finite_models.specs.Sound.{AreAllJoined, IsSoundCause, IsSoundAt, IsFirstWrong, AllRight};

use crate::model::{Cause, Model};
use mixed_graph::{Graph, VSet};

/// Whether the weights have a positive sum.
fn weighs(weights: &[u32]) -> bool
    ensures { IsTrue result ↔ (1 ≤ sum_below (length weights.now) (λ i. slice_index weights.now i)) }
{
    for w in weights {
        if *w > 0 {
            return true;
        }
    }
    false
}

/// Whether v, if it is a member, is joined to each other member.
fn joins_others(g: &Graph, children: VSet, v: u8) -> bool
    requires { v < 64 }
    ensures { IsTrue result ↔ (IsTrue (has children.bits v) → (u : ℕ) → IsTrue (has children.bits u) → (u ≡ v → ⊥) → IsTrue ((graph_of g.now).both v u)) }
{
    let row = g.spouses(v);
    let missed = children.difference(VSet::one(v)).difference(row);
    !children.has(v) || missed.is_empty()
}

/// Whether any two members are joined by a bidirected edge.
fn are_joined(g: &Graph, children: VSet) -> bool
    ensures { IsTrue result ↔ AreAllJoined (graph_of g.now) children.bits }
{
    for v in 0..64u8 {
        if !joins_others(g, children, v) {
            return false;
        }
    }
    true
}

/// Whether the cause has a positive weight, and children that may share it.
fn is_sound(g: &Graph, c: &Cause) -> bool
    ensures { IsTrue result ↔ IsSoundCause (graph_of g.now) c.now.weights.items c.now.children.bits }
{
    let positive = weighs(&c.weights);
    let low = g.covers(c.children);
    let joined = are_joined(g, c.children);
    let some = c.children.bits != 0;
    positive && low && joined && some
}

/// The lowest cause that isn't sound, if there is one.
pub fn wrong_cause(g: &Graph, m: &Model) -> Option<usize>
    ensures wrong { IfSome result (IsFirstWrong (length m.now.causes.items) (IsSoundAt (graph_of g.now) m.now)) }
    ensures right { IfNone result (AllRight (length m.now.causes.items) (IsSoundAt (graph_of g.now) m.now)) }
{
    for j in 0..m.causes.len() {
        if !is_sound(g, &m.causes[j]) {
            return Some(j);
        }
    }
    None
}
