//! What is asked.

ghost use Rattle.std.specs.Prelude.{ℕ, ◌≡◌};
ghost use Rattle.mixed_graph.specs.Vocabulary.{has};
ghost use Rattle.natural_bounds.specs.Vocabulary.{fixed};
ghost use Rattle.bound_values.specs.Questions.{asked_of, joint_set, treated_set, level_set, fixed_mask, level_mask, joint_mask};

use count_table::Counts;
use count_table::sum_tables::SumTables;
use mixed_graph::VSet;

/// By what an effect is bounded in a stratum.
#[derive(Clone, Copy, Debug, PartialEq, Eq)]
pub enum Method {
    /// By the levels of the instruments, of which there may be none (Robins 1989; Manski 1990; Balke and Pearl 1997).
    Instruments,
    /// By these, and by pairs of levels, for a treatment with two values (Balke and Pearl 1997; Richardson and Robins 2014).
    LevelPairs,
    /// By the records of the arm, where the strata are those of a set that may be adjusted for.
    Adjustment,
}

/// The effect of x on y under a condition, bounded stratum by stratum.
///
/// The instruments and the strata may be empty: then the bounds are the natural ones (Robins 1989; Manski 1990).
#[derive(Clone, Copy, Debug, PartialEq, Eq)]
pub struct Question {
    pub x: VSet,
    pub y: VSet,
    pub given: VSet,
    pub instruments: VSet,
    pub strata: VSet,
    pub method: Method,
}

/// A question over a table of counts of n vertices, and the sums that are at hand.
#[derive(Drop)]
pub struct Scope<'s, 'a> {
    pub counts: &'a Counts,
    pub sums: &'s SumTables<'a>,
    pub n: u32,
    pub question: Question,
}

impl Question {
    /// The vertices that a stratum fixes: those of the condition and the strata.
    pub fn fixed(self) -> VSet
        ensures mask { result.bits ≡ fixed_mask self }
        ensures members { (v : ℕ) → has result.bits v ≡ fixed (asked_of self) v }
    {
        self.given.union(self.strata)
    }

    /// Those, and the instruments.
    pub fn level(self) -> VSet
        ensures mask { result.bits ≡ level_mask self }
        ensures members { (v : ℕ) → has result.bits v ≡ level_set (asked_of self) v }
    {
        self.instruments.union(self.fixed())
    }

    /// Those, and x.
    pub fn treated(self) -> VSet
        ensures { (v : ℕ) → has result.bits v ≡ treated_set (asked_of self) v }
    {
        self.x.union(self.level())
    }

    /// All vertices that are asked of.
    pub fn joint(self) -> VSet
        ensures mask { result.bits ≡ joint_mask self }
        ensures members { (v : ℕ) → has result.bits v ≡ joint_set (asked_of self) v }
    {
        self.x.union(self.y.union(self.level()))
    }
}
