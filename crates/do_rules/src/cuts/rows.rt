//! Rows without some of their entries.

ghost use Rattle.std.specs.Prelude.{◌≡◌, ℕ, ◌<◌, ◌&&◌, not, slice_index};
ghost use Rattle.mixed_graph.specs.Vocabulary.{has};

use mixed_graph::{Rows, VSet};

/// The numbers of the rows that have v.
fn column(rows: &Rows, v: u8) -> VSet
    requires { v < 64 }
    ensures { (u : ℕ) → has result.bits u ≡ has (slice_index rows.now u) v }
{
    let mut found = VSet::empty();
    for u in 0..64u8 {
        let row = VSet::row(rows, u);
        found = found.union(VSet::one(u).only_if(row.has(v)));
    }
    found
}

/// The rows with row and place exchanged.
pub fn transposed(rows: &Rows) -> Rows
    ensures { (u v : ℕ) → has (slice_index result v) u ≡ has (slice_index rows.now u) v }
{
    let mut out = [0u64; 64];
    for v in 0..64u8 {
        out[v as usize] = column(rows, v).bits;
    }
    out
}

/// The members of each row that the row of `dropped` doesn't have.
pub fn without(rows: &Rows, dropped: &Rows) -> Rows
    ensures { (u v : ℕ) → has (slice_index result u) v ≡ (has (slice_index rows.now u) v && not (has (slice_index dropped.now u) v)) }
{
    let mut out = [0u64; 64];
    for u in 0..64u8 {
        let less = VSet::row(dropped, u);
        out[u as usize] = VSet::row(rows, u).difference(less).bits;
    }
    out
}
