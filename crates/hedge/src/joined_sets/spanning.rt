//! A tree of links over a set.

ghost use Rattle.std.specs.Prelude.{◌≡◌, ℕ, ◌<◌, ◌≤◌, ◌⊎◌, ◌&&◌, not, false, IsTrue, slice_index};
ghost use Rattle.mixed_graph.specs.Vocabulary.{has, Within, graph_of};
ghost use Rattle.hedge.specs.Linked.{IsInside, IsJoinedSet};
ghost use Rattle.hedge.specs.Spanning.{IsEarliest, AreLinks};

use crate::joined_sets::lists::Links;
use mixed_graph::{Graph, VSet};

/// What is still to be found: the rest of small, and once small is found the rest of big.
fn wanted(small: VSet, big: VSet, found: VSet) -> VSet
    ensures { ((u : ℕ) × IsTrue (has small.bits u) × (has found.bits u ≡ false) × ((w : ℕ) → has result.bits w ≡ (has small.bits w && not (has found.bits w))))
        ⊎ (((u : ℕ) → IsTrue (has small.bits u) → IsTrue (has found.bits u)) × ((w : ℕ) → has result.bits w ≡ (has big.bits w && not (has found.bits w)))) }
{
    let rest = small.difference(found);
    if rest.is_empty() {
        big.difference(found)
    } else {
        rest
    }
}

/// The earliest of the first `count` entries that is joined to v.
fn earliest(g: &Graph, found: &[u8; 64], count: usize, v: u8) -> u8
    requires size { count ≤ 64 }
    requires vertex { v < 64 }
    requires vertices { (i : ℕ) → i < count → slice_index found.now i < 64 }
    requires some { (i : ℕ) × (i < count) × IsTrue ((graph_of g.now).both v (slice_index found.now i)) }
    ensures { IsEarliest (graph_of g.now) found.now count v result }
{
    let near = g.spouses(v);
    for i in 0..count {
        if near.has(found[i]) {
            return found[i];
        }
    }
    unreachable!()
}

/// A tree of links over big that goes over small first, from the lowest member of small.
///
/// Each time the lowest member that is joined to a found one is added, with the earliest found that it is joined to.
pub fn links(g: &Graph, small: VSet, big: VSet) -> Links
    requires within { Within g.now.n (has big.bits) }
    requires some { 0 < small.bits }
    requires inside { IsInside small.bits big.bits }
    requires small_joined { IsJoinedSet (graph_of g.now) small.bits }
    requires big_joined { IsJoinedSet (graph_of g.now) big.bits }
    ensures { AreLinks (graph_of g.now) (has small.bits) (has big.bits) result.found result.partner result.count }
{
    let start = small.lowest();
    let mut found = [0u8; 64];
    let mut partner = [0u8; 64];
    found[0] = start;
    let mut count = 1usize;
    let mut taken = VSet::one(start);
    let mut near = g.spouses(start);
    'next: while !big.difference(taken).is_empty() {
        let v = wanted(small, big, taken).intersection(near).lowest();
        partner[count] = earliest(g, &found, count, v);
        found[count] = v;
        count += 1;
        taken = taken.union(VSet::one(v));
        near = near.union(g.spouses(v));
    }
    Links {
        found,
        partner,
        count: count as u32,
    }
}
