//! The sums for one set of vertices.

ghost use Rattle.std.specs.Prelude.{ℕ, ◌≡◌, IfOk, slice_index};
ghost use Rattle.mixed_graph.specs.Vocabulary.{has};
ghost use Rattle.count_rows.specs.Vocabulary.{counted};
ghost use Rattle.count_table.specs.Tables.{HasLevels};
ghost use Rattle.count_table.specs.Sums.{AreSums};

use crate::Counts;
use crate::sum_tables::places::Places;
use crate::sum_tables::summing::sums_over;
use mixed_graph::VSet;
use std::alloc::{AllocError, Global};
use std::marker::Model;

/// The sum of a table's counts for each cell of a set of vertices.
///
/// Contracts see the table of counts and the set.
#[derive(Drop)]
pub struct SumTable<'a> {
    counts: &'a Counts,
    of: VSet,
    places: Places,
    sums: Vec<u64>,
}

impl<'a> Model for SumTable<'a> {
    ghost use Rattle.count_table.specs.Sums.{Margin, IsMargin};

    ghost Value = { Margin };

    ghost view = { λ s. record { table = s.counts.now; set = s.of.bits } };

    ghost invariant = { λ s. IsMargin s.counts.now s.of.bits s.places s.sums.items };
}

impl<'a> SumTable<'a> {
    /// The sums for each cell of those vertices of a set that a table of counts uses.
    pub fn make(alloc: Global, c: &'a Counts, of: VSet) -> Result<SumTable<'a>, AllocError>
        ensures table { IfOk result (λ s. s.table ≡ c.now) }
        ensures set { IfOk result (λ s. s.set ≡ of.bits) }
    {
        let places = Places::of(alloc, c, of)?;
        let sums = sums_over(alloc, c, of)?;
        Ok(SumTable {
            counts: c,
            of,
            places,
            sums,
        })
    }

    /// The set.
    pub fn set(&self) -> VSet
        ensures { result.bits ≡ self.now.set }
    {
        self.of
    }

    /// The sums, each at the place of its cell.
    pub fn sums(&self) -> &[u64]
        ensures { AreSums self.now.table (has self.now.set) result.now }
    {
        self.sums.as_slice()
    }

    /// The sum of the counts of the rows that agree with `at` on the set.
    pub fn sum(&self, at: &[u32]) -> u64
        requires { HasLevels self.now.table (has self.now.set) at.now }
        ensures { result ≡ counted self.now.table.vertices self.now.table.rows (has self.now.set) (λ v. slice_index at.now v) }
    {
        self.sums[self.places.place(at)]
    }
}
