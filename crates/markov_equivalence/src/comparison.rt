//! The comparison of two graphs (Verma and Pearl).

ghost use Rattle.std.specs.Prelude.{◌≡◌, ◌≢◌, ℕ, ◌<◌};
ghost use Rattle.mixed_graph.specs.Vocabulary.{has, graph_of};
ghost use Rattle.markov_equivalence.specs.Skeletons.{HasArrowsAlone};
ghost use Rattle.markov_equivalence.specs.Laters.{AreParentsOfLater};
ghost use Rattle.markov_equivalence.specs.Sides.{one_of};
ghost use Rattle.markov_equivalence.specs.Comparisons.{IsComparison, ShowsDifference, NamesVertices};

use crate::firsts::{first_collider, first_edge};
use crate::sides::{Side, side_without};
use crate::skeleton::{colliders, neighbours};
use mixed_graph::{Graph, VSet};

/// Two vertices that a set separates in one of two graphs alone.
#[derive(Clone, Copy, Debug, PartialEq, Eq)]
pub struct Difference {
    /// The lower of the two vertices.
    pub a: u8,
    /// The higher one.
    pub b: u8,
    /// The set that separates them: the parents of the one that is later in the order of that graph.
    pub given: VSet,
    /// The graph in which the separation holds.
    pub holds_in: Side,
}

/// The answer of a comparison.
#[derive(Clone, Copy, Debug, PartialEq, Eq)]
pub enum Compared {
    /// The graphs are equivalent.
    Same,
    /// The first pair that an arrow joins in one of the graphs alone.
    Edge(Difference),
    /// The skeletons agree: the first pair with an unshielded collider that one of the graphs has alone, and the lowest such collider.
    Collider(Difference, u8),
}

/// The parents of the later of a and b in the order of the graph.
fn parents_of_later(k: &Graph, a: u8, b: u8) -> VSet
    requires a { a < k.now.n }
    requires b { b < k.now.n }
    requires differ { a ≢ b }
    ensures { AreParentsOfLater (graph_of k.now) a b (has result.bits) }
{
    let order = k.order();
    for i in 0..order.count as usize {
        if order.list[i] == a {
            return k.parents(b);
        }
        if order.list[i] == b {
            return k.parents(a);
        }
    }
    unreachable!()
}

/// The difference that the parents of the later of a and b in the order of one of the graphs show.
fn separation(g: &Graph, h: &Graph, a: u8, b: u8, holds_in: Side) -> Difference
    requires size { g.now.n ≡ h.now.n }
    requires a { a < g.now.n }
    requires b { b < g.now.n }
    requires differ { a ≢ b }
    ensures a { result.a ≡ a }
    ensures b { result.b ≡ b }
    ensures side { result.holds_in ≡ holds_in }
    ensures given { AreParentsOfLater (one_of (graph_of g.now) (graph_of h.now) holds_in) a b (has result.given.bits) }
{
    let given = match holds_in {
        Side::First => parents_of_later(g, a, b),
        Side::Second => parents_of_later(h, a, b),
    };
    Difference {
        a,
        b,
        given,
        holds_in,
    }
}

/// Compares the skeletons, and then the unshielded colliders (Verma and Pearl).
///
/// A difference comes with a separation that holds in one of the graphs alone.
pub fn compare(g: &Graph, h: &Graph) -> Compared
    requires size { g.now.n ≡ h.now.n }
    requires first { HasArrowsAlone (graph_of g.now) }
    requires second { HasArrowsAlone (graph_of h.now) }
    ensures compared { IsComparison (graph_of g.now) (graph_of h.now) result }
    ensures shown { ShowsDifference (graph_of g.now) (graph_of h.now) result }
    ensures vertices { NamesVertices g.now.n result }
{
    if let Some(p) = first_edge(g, h) {
        let side = side_without(neighbours(h, p.a).has(p.b));
        return Compared::Edge(separation(g, h, p.a, p.b, side));
    }
    if let Some(t) = first_collider(g, h) {
        let side = side_without(colliders(h, t.a, t.b).has(t.m));
        return Compared::Collider(separation(g, h, t.a, t.b, side), t.m);
    }
    Compared::Same
}
