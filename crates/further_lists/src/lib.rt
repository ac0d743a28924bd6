//! Lists of names behind those of a query: the first name at fault, where x, y and what is given were walked before.
//!
//! `walked(sets)` are the vertices that were walked; `specs/Faults` says what the fault of such lists is.
#![tactic(auto)]

ghost use Rattle.std.specs.Prelude.{◌≡◌, ◌||◌, ℕ};
ghost use Rattle.mixed_graph.specs.Vocabulary.{has};

use mixed_graph::VSet;
use targets::Sets;

/// The vertices of x, y and what is given.
pub fn walked(sets: Sets) -> VSet
    ensures { (v : ℕ) → has result.bits v ≡ ((has sets.x.bits v || has sets.y.bits v) || has sets.given.bits v) }
{
    sets.x.union(sets.y).union(sets.given)
}
