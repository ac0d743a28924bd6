//! The second levels: those that were observed.

ghost use Rattle.std.specs.Prelude.{ℕ, ◌≡◌, ◌≤◌, slice_index};
ghost use Rattle.mixed_graph.specs.Vocabulary.{has, Within};
ghost use Rattle.count_eval.specs.Vocabulary.{cell_of};
ghost use Rattle.treated_models.specs.Vocabulary.{as_observed, name_count};

use mixed_graph::VSet;
use treated_id::prime_of;

/// The levels as observed: those of x at its primed names.
pub fn as_observed(n: u32, x: VSet, cell: &[u32; 64]) -> [u32; 64]
    requires few { name_count n x.bits ≤ 64 }
    requires within { Within n (has x.bits) }
    ensures { (v : ℕ) → slice_index result v ≡ as_observed n x.bits (cell_of cell.now) v }
{
    let mut observed = *cell;
    for v in 0..64u8 {
        if x.has(v) {
            observed[v as usize] = cell[prime_of(n, x, v) as usize];
        }
    }
    observed
}
