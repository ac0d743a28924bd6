//! Lists of districts, links and choices.

ghost use Rattle.std.specs.Prelude.{◌≡◌, ℕ, ◌≤◌, slice_index};
ghost use Rattle.hedge.specs.Listed.{mask_at};

use mixed_graph::VSet;

/// Disjoint sets of vertices: the first `count` entries; the others are empty.
#[derive(Clone, Copy)]
pub struct Districts {
    pub sets: [VSet; 64],
    pub count: u32,
    pub ghost in_range: { count ≤ 64 },
    pub ghost blank: { (i : ℕ) → count ≤ i → mask_at sets i ≡ 0 },
}

/// Vertices in the order in which they were found, each but the first with the one it was found by.
///
/// The entries from `count` on are 0, and so is the partner of the first.
#[derive(Clone, Copy)]
pub struct Links {
    pub found: [u8; 64],
    pub partner: [u8; 64],
    pub count: u32,
    pub ghost in_range: { count ≤ 64 },
    pub ghost blank_found: { (i : ℕ) → count ≤ i → slice_index found i ≡ 0 },
    pub ghost blank_partner: { (i : ℕ) → count ≤ i → slice_index partner i ≡ 0 },
    pub ghost start: { slice_index partner 0 ≡ 0 },
}

/// For each vertex a child of it, or 64 for none.
#[derive(Clone, Copy)]
pub struct Choice {
    pub next: [u8; 64],
    pub ghost in_range: { (v : ℕ) → slice_index next v ≤ 64 },
}
