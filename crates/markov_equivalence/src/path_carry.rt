//! Open paths of one graph carried to an equivalent one, and equivalence as equality of all separations
//! (Verma and Pearl, Equivalence and synthesis of causal models, 1990).
//!
//! `carry_path(&g, &h, w, &path)` gives the open path in h, and `imply_the_same(&g, &h)` says whether all separations are equal.
ghost use Rattle.std.specs.Prelude.{◌≡◌, ◌↔◌, IsTrue};
ghost use Rattle.mixed_graph.specs.Vocabulary.{has, Within, graph_of};
ghost use Rattle.markov_equivalence.specs.Skeletons.{HasArrowsAlone, AreEquivalent};
ghost use Rattle.markov_equivalence.specs.Separations.{HaveSameSeparations, HaveSameIndependences, IsOpenWithEndsOf};

use crate::{Compared, compare};
use m_separation::{OpenPath, open_path};
use mixed_graph::{Graph, VSet};

/// An open path of h given w with the ends of p, where p is an open path of g given w and the graphs are equivalent.
pub fn carry_path(g: &Graph, h: &Graph, w: VSet, p: &OpenPath) -> OpenPath
    requires size { g.now.n ≡ h.now.n }
    requires first { HasArrowsAlone (graph_of g.now) }
    requires second { HasArrowsAlone (graph_of h.now) }
    requires equivalent { AreEquivalent (graph_of g.now) (graph_of h.now) }
    requires within { Within g.now.n (has w.bits) }
    requires path { IsOpenWithEndsOf (graph_of g.now) (has w.bits) p.now p.now }
    ensures carried { IsOpenWithEndsOf (graph_of h.now) (has w.bits) p.now result }
{
    let first = p.vertices[0];
    let last = p.vertices[p.count as usize - 1];
    match open_path(h, VSet::one(first), VSet::one(last), w) {
        Some(carried) => carried,
        None => unreachable!(),
    }
}

/// Whether the graphs imply the same separations: any sets are separated in the one exactly where they are in the other. So their models have
/// the same independences, or else they don't.
///
/// It is decided by their skeletons and unshielded colliders.
pub fn imply_the_same(g: &Graph, h: &Graph) -> bool
    requires size { g.now.n ≡ h.now.n }
    requires first { HasArrowsAlone (graph_of g.now) }
    requires second { HasArrowsAlone (graph_of h.now) }
    ensures separations { IsTrue result ↔ HaveSameSeparations (graph_of g.now) (graph_of h.now) }
    ensures independences { IsTrue result ↔ HaveSameIndependences (graph_of g.now) (graph_of h.now) }
    ensures equivalent { IsTrue result ↔ AreEquivalent (graph_of g.now) (graph_of h.now) }
{
    match compare(g, h) {
        Compared::Same => true,
        Compared::Edge(_) => false,
        Compared::Collider(_, _) => false,
    }
}
