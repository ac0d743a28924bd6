//! Where an evaluation looks up levels, sums of counts and values of definitions.

ghost use Rattle.std.specs.Prelude.{ℕ, ◌≡◌, length, IfSome};
ghost use Rattle.mixed_graph.specs.Vocabulary.{has};
ghost use Rattle.quantity.specs.Kinds.{Pair};
ghost use Rattle.count_rows.specs.Vocabulary.{Table, counted};
ghost use Rattle.count_table.specs.Vocabulary.{levels_in, HasLevels};
ghost use Rattle.count_eval.specs.Programs.{is_used, cell_of};

use count_table::{Counts, marginal};
use mixed_graph::VSet;
use quantity::Quantity;

/// Where an evaluation over a table of counts looks up levels, sums of counts, and values of definitions.
pub trait Lookup<Q: Quantity> {
    /// The table of counts.
    ghost counts: { Self → Table };

    /// What is at hand says that a definition has these two numbers at a cell.
    ghost holds: { Self → ℕ → (ℕ → ℕ) → Pair → Type 0 };

    /// How many levels a vertex has; none where it isn't used.
    fn levels(&self, v: u8) -> u32
        ensures { result ≡ length (levels_in (counts self.now).vertices (counts self.now).levels v) };

    /// The sum of the counts of the rows that agree with a cell on a set.
    fn sum(&self, of: VSet, cell: &[u32; 64]) -> u64
        requires { HasLevels (counts self.now) (has of.bits) cell.now }
        ensures { result ≡ counted (counts self.now).vertices (counts self.now).rows (has of.bits) (cell_of cell.now) };

    /// The value of a definition at a cell, if it is at hand.
    fn definition(&self, k: u32, cell: &[u32; 64]) -> Option<Q>
        requires { HasLevels (counts self.now) (is_used (counts self.now)) cell.now }
        ensures { IfSome result (λ q. holds self.now k (cell_of cell.now) (Q.numbers q)) };
}

/// A table alone: each sum is taken over its cells, and no definition is at hand.
impl<Q: Quantity> Lookup<Q> for Counts {
    ghost counts = { λ c. c };

    ghost holds = { λ c k s p. ⊥ };

    fn levels(&self, v: u8) -> u32 {
        Counts::levels(self, v)
    }

    fn sum(&self, of: VSet, cell: &[u32; 64]) -> u64 {
        marginal(self, of, cell)
    }

    fn definition(&self, _k: u32, _cell: &[u32; 64]) -> Option<Q> {
        None
    }
}
