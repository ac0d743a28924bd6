//! Cycles and orders as lists of fixed length.

ghost use Rattle.std.specs.Prelude.{◌≡◌, ℕ, ◌≤◌, slice_index};

/// A directed cycle: the first `count` entries, beginning with the lowest; the others are 0.
#[derive(Clone, Copy)]
pub struct Cycle {
    pub list: [u8; 64],
    pub count: u32,
    pub ghost in_range: { count ≤ 64 },
    pub ghost blank: { (i : ℕ) → count ≤ i → slice_index list i ≡ 0 },
}

/// Vertices in an order: the first `count` entries; the others are 0.
#[derive(Clone, Copy)]
pub struct Order {
    pub list: [u8; 64],
    pub count: u32,
    pub ghost in_range: { count ≤ 64 },
    pub ghost blank: { (i : ℕ) → count ≤ i → slice_index list i ≡ 0 },
}
