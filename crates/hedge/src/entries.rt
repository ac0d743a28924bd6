//! Where vertices stand among the entries of the links.

ghost use Rattle.std.specs.Prelude.{◌≡◌, ◌≢◌, ℕ, ◌<◌, ◌↔◌, IsTrue, IfSome, IfNone, slice_index};
ghost use Rattle.std.specs.Bool.{OnTrue, OnFalse};
ghost use Rattle.mixed_graph.specs.Vocabulary.{has, Within, graph_of};
ghost use Rattle.hedge.specs.Hedges.{IsPlaced, IsRightPartner, AreRightLinks};
ghost use Rattle.hedge.specs.Faults.{IsLowestWrong, IsLaterEntry, HasRightPartner, AllPlaced, HasStranger, AllInside, IsWrongLink};

use crate::hedge::Hedge;
use crate::joined_sets::Links;
use mixed_graph::Graph;

/// The first place of v among the entries, if there is one.
fn place_of(links: &Links, v: u8) -> Option<usize>
    ensures found { IfSome result (λ i. (i < links.now.count) × (slice_index links.now.found i ≡ v) × ((j : ℕ) → j < i → slice_index links.now.found j ≢ v)) }
    ensures none { IfNone result ((j : ℕ) → j < links.now.count → slice_index links.now.found j ≢ v) }
{
    for i in 0..links.count as usize {
        if links.found[i] == v {
            return Some(i);
        }
    }
    None
}

/// Whether v stands among the entries after place i.
fn stands_after(links: &Links, v: u8, i: usize) -> bool
    ensures again { OnTrue result ((j : ℕ) × (i < j) × (j < links.now.count) × (slice_index links.now.found j ≡ v)) }
    ensures never { OnFalse result ((j : ℕ) → i < j → j < links.now.count → slice_index links.now.found j ≢ v) }
{
    for j in 0..links.count as usize {
        if i < j && links.found[j] == v {
            return true;
        }
    }
    false
}

/// Whether v stands once among the entries, small first.
fn is_placed(h: &Hedge, v: u8) -> bool
    requires { v < 64 }
    ensures { IsTrue result ↔ IsPlaced h.now v }
{
    match place_of(&h.links, v) {
        Some(i) => {
            let again = stands_after(&h.links, v, i);
            let early = i < h.small.count() as usize;
            !again && h.small.has(v) == early
        }
        None => false,
    }
}

/// The lowest member of big that isn't placed, if there is one.
fn unplaced(h: &Hedge) -> Option<u8>
    requires { Within 64 (has h.now.big.bits) }
    ensures wrong { IfSome result (IsLowestWrong (λ u. IsTrue (has h.now.big.bits u)) (IsPlaced h.now)) }
    ensures right { IfNone result (AllPlaced h.now) }
{
    for v in 0..64u8 {
        if h.big.has(v) && !is_placed(h, v) {
            return Some(v);
        }
    }
    None
}

/// Whether an entry is outside big.
fn has_stranger(h: &Hedge) -> bool
    ensures some { OnTrue result (HasStranger h.now) }
    ensures none { OnFalse result (AllInside h.now) }
{
    for i in 0..h.links.count as usize {
        if !h.big.has(h.links.found[i]) {
            return true;
        }
    }
    false
}

/// Whether the partner of entry i is right.
fn is_right_partner(g: &Graph, h: &Hedge, i: usize) -> bool
    requires listed { i < h.now.links.count }
    requires inside { IsTrue (has h.now.big.bits (slice_index h.now.links.found i)) }
    ensures { IsTrue result ↔ IsRightPartner (graph_of g.now) h.now i }
{
    let v = h.links.found[i];
    let partner = h.links.partner[i];
    let earlier = match place_of(&h.links, partner) {
        Some(j) => j < i,
        None => false,
    };
    let joined = g.spouses(v).has(partner);
    let leaves = h.small.has(v) && !h.small.has(partner);
    earlier && joined && !leaves
}

/// Whether v, where it is an entry after the first, has a right partner.
fn has_right_partner(g: &Graph, h: &Hedge, v: u8) -> bool
    requires placed { AllPlaced h.now }
    requires inside { AllInside h.now }
    ensures right { OnTrue result (HasRightPartner (graph_of g.now) h.now v) }
    ensures wrong { OnFalse result (IsLaterEntry h.now v × (HasRightPartner (graph_of g.now) h.now v → ⊥)) }
{
    match place_of(&h.links, v) {
        Some(i) => i == 0 || is_right_partner(g, h, i),
        None => true,
    }
}

/// The lowest entry after the first with a wrong partner, if there is one.
fn wrong_partner(g: &Graph, h: &Hedge) -> Option<u8>
    requires low { Within 64 (has h.now.big.bits) }
    requires placed { AllPlaced h.now }
    requires inside { AllInside h.now }
    ensures wrong { IfSome result (IsLowestWrong (IsLaterEntry h.now) (HasRightPartner (graph_of g.now) h.now)) }
    ensures right { IfNone result ((i : ℕ) → 0 < i → i < h.now.links.count → IsRightPartner (graph_of g.now) h.now i) }
{
    for v in 0..64u8 {
        if h.big.has(v) && !has_right_partner(g, h, v) {
            return Some(v);
        }
    }
    None
}

/// What is wrong with the links, if anything is: the lowest vertex, or 64 for an entry outside big.
pub fn wrong_link(g: &Graph, h: &Hedge) -> Option<u8>
    requires { Within 64 (has h.now.big.bits) }
    ensures wrong { IfSome result (IsWrongLink (graph_of g.now) h.now) }
    ensures right { IfNone result (AreRightLinks (graph_of g.now) h.now) }
{
    if let Some(v) = unplaced(h) {
        return Some(v);
    }
    if has_stranger(h) {
        return Some(64);
    }
    wrong_partner(g, h)
}
