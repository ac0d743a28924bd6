//! Relations between vertices, a row for each.

ghost use Rattle.std.specs.Prelude.{ℕ, ◌↔◌, IsTrue, slice_index};
ghost use Rattle.mixed_graph.specs.Bits.{has};
ghost use Rattle.mixed_graph.specs.Reached.{Reached, has_in_row};

use crate::sets::VSet;

/// A relation between vertices as rows of bits: bit u of row v is set where v has the relation to u.
pub type Rows = [u64; 64];

/// What the rows of the members hold.
pub fn joined(rows: &Rows, members: VSet) -> VSet
    ensures { (u : ℕ) → IsTrue (has result.bits u) ↔ ((v : ℕ) × IsTrue (has members.bits v) × IsTrue (has (slice_index rows.now v) u)) }
{
    let mut all = VSet::empty();
    'each: for v in members.iter() {
        all = all.union(VSet::row(rows, v));
    }
    all
}

/// What is reached from the members of `from` inside `within`, where row v holds the vertices one step from v.
///
/// Each step joins the rows of all vertices that were new in the step before.
pub fn reached(rows: &Rows, from: VSet, within: VSet) -> VSet
    ensures { (v : ℕ) → IsTrue (has result.bits v) ↔ Reached (has_in_row rows.now) (has from.bits) (has within.bits) v }
{
    let mut found = VSet::empty();
    let mut front = from.intersection(within);
    'steps: while !front.is_empty() {
        found = found.union(front);
        front = joined(rows, front).intersection(within).difference(found);
    }
    found
}
