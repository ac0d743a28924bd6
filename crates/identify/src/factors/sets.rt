//! Sets of vertices that the procedure reads off the graph.

ghost use Rattle.std.specs.Prelude.{◌≡◌, ◌<◌, ℕ, IsTrue};
ghost use Rattle.mixed_graph.specs.Vocabulary.{has, Within, graph_of};
ghost use Rattle.identification_theory.specs.Vocabulary.{AreAncestorsIn, IsPillow};

use hedge::joined_sets::district_of;
use mixed_graph::{Graph, VSet};

/// The ancestors of s in the graph induced on `within`.
pub fn ancestors_in(g: &Graph, within: VSet, s: VSet) -> VSet
    requires { Within g.now.n (has s.bits) }
    ensures { AreAncestorsIn (graph_of g.now) within.bits s.bits result.bits }
{
    g.induced(within).ancestors(s)
}

/// The pillow of v in s: its district in s and the parents in s of that district, without v.
pub fn pillow(g: &Graph, s: VSet, v: u8) -> VSet
    requires within { Within g.now.n (has s.bits) }
    requires member { IsTrue (has s.bits v) }
    requires vertex { v < 64 }
    ensures { IsPillow (graph_of g.now) s.bits v result.bits }
{
    let near = district_of(g, s, v);
    let above = g.parents_of(near).intersection(s);
    near.union(above).difference(VSet::one(v))
}
