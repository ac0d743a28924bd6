//! What is reached in an undirected graph.

ghost use Rattle.std.specs.Prelude.{◌≡◌, ℕ, ◌↔◌, IsTrue};
ghost use Rattle.mixed_graph.specs.Vocabulary.{has};
ghost use Rattle.minimal_sets.specs.Separators.{Reached};
ghost use Rattle.minimal_sets.specs.Rows.{is_near};

use mixed_graph::{Rows, VSet, joined, reached};

/// What is reached from a set outside another, where row u of `near` has the vertices one step from u.
pub fn flood(near: &Rows, from: VSet, avoid: VSet) -> VSet
    ensures { (v : ℕ) → IsTrue (has result.bits v) ↔ Reached (is_near near.now) (has from.bits) (has avoid.bits) v }
{
    reached(near, from, VSet::below(64).difference(avoid))
}

/// The members of one set that are one step from a member of another.
pub fn beside(near: &Rows, part: VSet, among: VSet) -> VSet
    ensures member { (v : ℕ) → IsTrue (has result.bits v) → IsTrue (has among.bits v) }
    ensures next { (v : ℕ) → IsTrue (has result.bits v) → (u : ℕ) × IsTrue (has part.bits u) × IsTrue (is_near near.now u v) }
    ensures all { (u v : ℕ) → IsTrue (has among.bits v) → IsTrue (has part.bits u) → IsTrue (is_near near.now u v) → IsTrue (has result.bits v) }
{
    joined(near, part).intersection(among)
}
