//! Neighbours and unshielded colliders.

ghost use Rattle.std.specs.Prelude.{◌≡◌, ◌≢◌, ℕ, ◌<◌, ◌≤◌, false, IsTrue, IfSome, IfNone};
ghost use Rattle.mixed_graph.specs.Vocabulary.{has, graph_of};
ghost use Rattle.markov_equivalence.specs.Skeletons.{is_adjacent, is_unshielded_collider};

use mixed_graph::{Graph, VSet};

/// The vertices that an arrow joins to a.
pub fn neighbours(g: &Graph, a: u8) -> VSet
    requires { a < 64 }
    ensures { (v : ℕ) → has result.bits v ≡ is_adjacent (graph_of g.now) a v }
{
    g.children(a).union(g.parents(a))
}

/// The unshielded colliders between a and b.
pub fn colliders(g: &Graph, a: u8, b: u8) -> VSet
    requires a { a < 64 }
    requires b { b < 64 }
    ensures { (m : ℕ) → has result.bits m ≡ is_unshielded_collider (graph_of g.now) a m b }
{
    g.children(a)
        .intersection(g.children(b))
        .only_if(!neighbours(g, a).has(b))
}

/// The lowest vertex that one of the sets has alone, if there is one.
pub fn lowest_difference(s: VSet, t: VSet) -> Option<u8>
    ensures differs { IfSome result (λ v. has s.bits v ≢ has t.bits v) }
    ensures lowest { IfSome result (λ v. (u : ℕ) → u < v → has s.bits u ≡ has t.bits u) }
    ensures in_range { IfSome result (λ v. v < 64) }
    ensures same { IfNone result ((v : ℕ) → has s.bits v ≡ has t.bits v) }
{
    let alone = s.difference(t).union(t.difference(s));
    if alone.is_empty() {
        None
    } else {
        Some(alone.lowest())
    }
}
