//! Districts (Tian and Pearl 2002).

ghost use Rattle.std.specs.Prelude.{◌≡◌, ℕ, ◌^◌, ◌<◌, IsTrue, All};
ghost use Rattle.mixed_graph.specs.Vocabulary.{has, Within, graph_of};
ghost use Rattle.hedge.specs.Linked.{IsDistrict, IsMaximalJoined, AreDistrictsOf, IsPartition};
ghost use Rattle.hedge.specs.Listed.{first_masks};

use crate::joined_sets::lists::Districts;
use mixed_graph::{Graph, VSet, reached};

/// The district of v in `within`: the vertices that come to v by bidirected edges inside `within`.
pub fn district_of(g: &Graph, within: VSet, v: u8) -> VSet
    requires within { Within g.now.n (has within.bits) }
    requires member { IsTrue (has within.bits v) }
    ensures district { IsDistrict (graph_of g.now) within.bits (2 ^ v) result.bits }
    ensures maximal { IsMaximalJoined (graph_of g.now) within.bits result.bits }
{
    reached(&g.spouses, VSet::one(v), within)
}

/// The districts of `within`, by their first members in the graph's order.
pub fn districts(g: &Graph, within: VSet) -> Districts
    requires { Within g.now.n (has within.bits) }
    ensures districts { AreDistrictsOf (graph_of g.now) within.bits (first_masks result.sets result.count) }
    ensures maximal { All (IsMaximalJoined (graph_of g.now) within.bits) (first_masks result.sets result.count) }
    ensures partition { IsPartition within.bits (first_masks result.sets result.count) }
{
    let order = g.order();
    let mut sets = [VSet::empty(); 64];
    let mut count = 0usize;
    let mut seen = VSet::empty();
    for i in 0..order.count as usize {
        let v = order.list[i];
        if within.difference(seen).has(v) {
            let t = district_of(g, within, v);
            sets[count] = t;
            count += 1;
            seen = seen.union(t);
        }
    }
    Districts {
        sets,
        count: count as u32,
    }
}
