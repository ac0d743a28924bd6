//! Sums along one axis after the other.

ghost use Rattle.std.specs.Prelude.{ℕ, ◌≡◌, ◌<◌, ◌+◌, ◌*◌, ◌^◌, IfOk, length, sum, slice_index};
ghost use Rattle.mixed_graph.specs.Vocabulary.{has};
ghost use Rattle.count_table.specs.LaneSums.{axis_total};
ghost use Rattle.count_table.specs.Sums.{AreSums};

use crate::Counts;
use crate::lane_sums::axis_sum;
use crate::sum_tables::places::Places;
use mixed_graph::VSet;
use std::alloc::{AllocError, Global};

/// The cells summed over the middle one of their three axes.
fn without_axis(
    alloc: Global,
    cells: &[u64],
    outer: usize,
    axis: usize,
    inner: usize,
) -> Result<Vec<u64>, AllocError>
    requires cells { length cells.now ≡ outer * axis * inner }
    requires few { outer * inner < 2 ^ 64 }
    requires room { sum cells.now < 2 ^ 64 }
    ensures length { IfOk result (λ into. length into.items ≡ outer * inner) }
    ensures sums { IfOk result (λ into. (o i : ℕ) → o < outer → i < inner → slice_index into.items (o * inner + i) ≡ axis_total axis inner o i cells.now) }
{
    let mut into = vec![in alloc; 0; outer * inner]?;
    axis_sum(cells, outer, axis, inner, into.as_mut_slice());
    Ok(into)
}

/// The sum of a table's counts for each cell of a set, made by summing over one vertex outside the set after the other.
pub fn sums_over(alloc: Global, c: &Counts, of: VSet) -> Result<Vec<u64>, AllocError>
    ensures { IfOk result (λ sums. AreSums c.now (has of.bits) sums.items) }
{
    let used = Places::of(alloc, c, c.used())?;
    let vertices = used.vertices();
    let sizes = used.sizes();
    let mut sums = Vec::from_slice(alloc, c.cells())?;
    let mut outer = 1;
    let mut inner = sums.len();
    for i in 0..vertices.len() {
        let levels = sizes[i] as usize;
        inner /= levels;
        if of.has(vertices[i]) {
            outer *= levels;
        } else {
            sums = without_axis(alloc, sums.as_slice(), outer, levels, inner)?;
        }
    }
    Ok(sums)
}
