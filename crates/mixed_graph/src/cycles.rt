//! A directed cycle, where there is one.

ghost use Rattle.std.specs.Prelude.{◌≡◌, ℕ, ◌<◌, ◌≤◌, ◌↔◌, IsTrue, false, IfSome, IfNone, slice_index, ◌-◌};
ghost use Rattle.mixed_graph.specs.Bits.{has};
ghost use Rattle.mixed_graph.specs.Pairs.{IsCycle};
ghost use Rattle.mixed_graph.specs.Arrows.{arrows_only, IsOnNoCycle, HasChildIn, HasNoChildIn, IsLasso, turn};

use crate::lists::Cycle;
use crate::rows::Rows;
use crate::sets::VSet;

/// A member of the set that has no child in it, if there is one.
pub fn childless(children: &Rows, set: VSet) -> Option<u8>
    ensures found { IfSome result (λ v. (v < 64) × IsTrue (has set.bits v) × HasNoChildIn children.now v set.bits × ((u : ℕ) → u < v → IsTrue (has set.bits u) → HasChildIn children.now u set.bits)) }
    ensures none { IfNone result ((v : ℕ) → IsTrue (has set.bits v) → HasChildIn children.now v set.bits) }
{
    for v in 0..64u8 {
        if set.has(v) {
            let within = VSet::row(children, v).intersection(set);
            if within.is_empty() {
                return Some(v);
            }
        }
    }
    None
}

/// What stays of the vertices below n when each, from the highest down, is taken unless a child of it is left.
///
/// Nothing stays where all arrows lead to higher vertices, as in most diagrams.
fn passed_down(n: u32, children: &Rows) -> VSet
    requires { n ≤ 64 }
    ensures taken { (a : ℕ) → has result.bits a ≡ false → IsOnNoCycle (arrows_only n children.now) a }
{
    let mut rest = VSet::below(n);
    'down: for v in (0..64u8).rev() {
        let is_taken = VSet::row(children, v).is_apart(rest);
        rest = rest.difference(VSet::one(v).only_if(is_taken));
    }
    rest
}

/// What stays of the vertices below n when, again and again, one without a child among those left is taken.
pub fn stuck(n: u32, children: &Rows) -> VSet
    requires { n ≤ 64 }
    ensures taken { (a : ℕ) → has result.bits a ≡ false → IsOnNoCycle (arrows_only n children.now) a }
    ensures left { (a : ℕ) → IsTrue (has result.bits a) → HasChildIn children.now a result.bits }
{
    let mut rest = passed_down(n, children);
    while let Some(v) = childless(children, rest) {
        rest = rest.difference(VSet::one(v));
    }
    rest
}

/// A child of v in the set.
fn child_in(children: &Rows, v: u8, set: VSet) -> u8
    requires below { v < 64 }
    requires child { HasChildIn children.now v set.bits }
    ensures in_range { result < 64 }
    ensures member { IsTrue (has set.bits result) }
    ensures arrow { IsTrue (has (slice_index children.now v) result) }
{
    VSet::row(children, v).intersection(set).lowest()
}

/// A walk that came back: each of the first `count` entries has an arrow to the next, and the last has one to entry `back`.
#[derive(Clone, Copy)]
pub struct Lasso {
    pub list: [u8; 64],
    pub count: usize,
    pub back: usize,
}

/// A walk inside the set until it comes back.
pub fn walk_back(children: &Rows, set: VSet) -> Lasso
    requires some { 0 < set.bits }
    requires left { (a : ℕ) → IsTrue (has set.bits a) → HasChildIn children.now a set.bits }
    ensures { IsLasso (λ a b. has (slice_index children.now a) b) result.list result.count result.back }
{
    let mut list = [0u8; 64];
    let mut place = [0u8; 64];
    let mut count = 0usize;
    let mut seen = VSet::empty();
    let mut v = set.lowest();
    'walk: while !seen.has(v) {
        list[count] = v;
        place[v as usize] = count as u8;
        count += 1;
        seen = seen.union(VSet::one(v));
        v = child_in(children, v, set);
    }
    Lasso {
        list,
        count,
        back: place[v as usize] as usize,
    }
}

/// The place of a lowest entry of a part.
fn lowest_place(list: &[u8; 64], from: usize, to: usize) -> usize
    requires part { from < to }
    requires end { to ≤ 64 }
    ensures low { from ≤ result }
    ensures high { result < to }
    ensures lowest { (k : ℕ) → from ≤ k → k < to → slice_index list.now result ≤ slice_index list.now k }
{
    let mut best = from;
    for k in from..to {
        if list[k] < list[best] {
            best = k;
        }
    }
    best
}

/// The entries from `back` to `count`, from p on and round.
fn turned(list: &[u8; 64], back: usize, count: usize, p: usize) -> [u8; 64]
    requires low { back ≤ p }
    requires high { p < count }
    requires end { count ≤ 64 }
    ensures entries { (i : ℕ) → i < count - back → slice_index result i ≡ slice_index list.now (turn back count p i) }
    ensures blank { (i : ℕ) → count - back ≤ i → slice_index result i ≡ 0 }
{
    let mut out = [0u8; 64];
    for i in 0..count - back {
        let from = if p + i < count {
            p + i
        } else {
            p + i - (count - back)
        };
        out[i] = list[from];
    }
    out
}

/// The cycle of a walk that came back.
pub fn cycle_of(children: &Rows, walk: Lasso) -> Cycle
    requires { IsLasso (λ a b. has (slice_index children.now a) b) walk.list walk.count walk.back }
    ensures { IsCycle (λ a b. has (slice_index children.now a) b) result.list result.count }
{
    let p = lowest_place(&walk.list, walk.back, walk.count);
    Cycle {
        list: turned(&walk.list, walk.back, walk.count, p),
        count: (walk.count - walk.back) as u32,
    }
}
