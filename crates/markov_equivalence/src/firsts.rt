//! The first edge and the first collider that one graph has alone.

ghost use Rattle.std.specs.Prelude.{◌≡◌, ℕ, ◌<◌, IfSome, IfNone};
ghost use Rattle.mixed_graph.specs.Vocabulary.{graph_of};
ghost use Rattle.markov_equivalence.specs.Skeletons.{is_unshielded_collider, HaveSameSkeleton, HaveSameColliders};
ghost use Rattle.markov_equivalence.specs.Firsts.{IsFirstDifference, IsFirstFrom, IsFirstCollider};

use crate::skeleton::{colliders, lowest_difference, neighbours};
use mixed_graph::Graph;

/// Two vertices, the lower one first.
#[derive(Clone, Copy)]
pub struct Pair {
    pub a: u8,
    pub b: u8,
}

/// Two vertices, the lower one first, and a third one with an arrow from both.
#[derive(Clone, Copy)]
pub struct Triple {
    pub a: u8,
    pub b: u8,
    pub m: u8,
}

/// The first pair that an arrow joins in one of the graphs alone, if there is one.
pub fn first_edge(g: &Graph, h: &Graph) -> Option<Pair>
    requires { g.now.n ≡ h.now.n }
    ensures found { IfSome result (λ p. IsFirstDifference (graph_of g.now) (graph_of h.now) p.a p.b) }
    ensures none { IfNone result (HaveSameSkeleton (graph_of g.now) (graph_of h.now)) }
{
    for a in 0..g.n as u8 {
        if let Some(b) = lowest_difference(neighbours(g, a), neighbours(h, a)) {
            return Some(Pair { a, b });
        }
    }
    None
}

/// The first unshielded collider between a and a later vertex that one of the graphs has alone, if there is one.
fn first_from(g: &Graph, h: &Graph, a: u8) -> Option<Triple>
    requires size { g.now.n ≡ h.now.n }
    requires vertex { a < g.now.n }
    ensures start { IfSome result (λ t. t.a ≡ a) }
    ensures found { IfSome result (λ t. IsFirstFrom (graph_of g.now) (graph_of h.now) t.a t.b t.m) }
    ensures none { IfNone result ((b m : ℕ) → a < b → is_unshielded_collider (graph_of g.now) a m b ≡ is_unshielded_collider (graph_of h.now) a m b) }
{
    for b in a + 1..g.n as u8 {
        if let Some(m) = lowest_difference(colliders(g, a, b), colliders(h, a, b)) {
            return Some(Triple { a, b, m });
        }
    }
    None
}

/// The first unshielded collider that one of the graphs has alone, if there is one.
pub fn first_collider(g: &Graph, h: &Graph) -> Option<Triple>
    requires { g.now.n ≡ h.now.n }
    ensures found { IfSome result (λ t. IsFirstCollider (graph_of g.now) (graph_of h.now) t.a t.b t.m) }
    ensures none { IfNone result (HaveSameColliders (graph_of g.now) (graph_of h.now)) }
{
    for a in 0..g.n as u8 {
        if let Some(t) = first_from(g, h, a) {
            return Some(t);
        }
    }
    None
}
