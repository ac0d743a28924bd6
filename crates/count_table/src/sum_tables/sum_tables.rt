//! The sums for several sets.

ghost use Rattle.std.specs.Prelude.{ℕ, ◌≡◌, ◌≢◌, ◌≤◌, ◌+◌, [], All, MatchOption, MatchResult, nat_le, slice_index};
ghost use Rattle.std.specs.List.{Contains};
ghost use Rattle.mixed_graph.specs.Vocabulary.{has};
ghost use Rattle.count_rows.specs.Vocabulary.{counted};
ghost use Rattle.count_table.specs.Tables.{HasLevels};
ghost use Rattle.count_table.specs.Sums.{cells_in, sets_with};

use crate::sum_tables::places::Places;
use crate::sum_tables::sum_table::SumTable;
use crate::{Counts, marginal};
use mixed_graph::VSet;
use std::alloc::{AllocError, Global};
use std::marker::Model;

/// Sums of a table's counts over several sets, each of which has a table of sums.
///
/// Contracts see the table of counts and the sets.
#[derive(Drop)]
pub struct SumTables<'a> {
    counts: &'a Counts,
    tables: Vec<SumTable<'a>>,
    cells: usize,
}

impl<'a> Model for SumTables<'a> {
    ghost use Rattle.std.specs.Prelude.{map};
    ghost use Rattle.count_table.specs.Sums.{Margins, AreMargins};

    ghost Value = { Margins };

    ghost view = { λ s. record { table = s.counts.now; sets = map (λ m. m.set) s.tables.items } };

    ghost invariant = { λ s. AreMargins s.counts.now s.tables.items s.cells };
}

/// The table of a set, if it is one of these.
fn table_of<'t, 'a>(tables: &'t [SumTable<'a>], of: VSet) -> Option<&'t SumTable<'a>>
    ensures { MatchOption result (All (λ m. m.set ≢ of.bits) tables.now) (λ found. (found.now.set ≡ of.bits) × Contains tables.now found.now) }
{
    for table in tables {
        if table.set() == of {
            return Some(table);
        }
    }
    None
}

/// Whether so many cells and more are at most `most`.
fn has_room(cells: usize, more: usize, most: usize) -> bool
    ensures { result ≡ nat_le (cells + more) most }
{
    cells <= most && more <= most - cells
}

impl<'a> SumTables<'a> {
    /// No table of sums yet.
    pub fn new(alloc: Global, counts: &'a Counts) -> SumTables<'a>
        ensures table { result.table ≡ counts.now }
        ensures sets { result.sets ≡ [] }
    {
        SumTables {
            counts,
            tables: Vec::new(alloc),
            cells: 0,
        }
    }

    /// How many cells the tables of sums have together.
    pub fn cells(&self) -> usize
        ensures { result ≡ cells_in self.now }
    {
        self.cells
    }

    /// Makes a table of sums over a set, unless there is one, or all tables would have more than `most` cells.
    pub fn add(&mut self, alloc: Global, of: VSet, most: usize) -> Result<(), AllocError>
        ensures table { self.new.table ≡ self.old.table }
        ensures sets { MatchResult result (λ _. self.new.sets ≡ sets_with self.old of.bits most) (λ _. self.new.sets ≡ self.old.sets) }
    {
        if table_of(self.tables.as_slice(), of).is_some() {
            return Ok(());
        }
        let places = Places::of(alloc, self.counts, of)?;
        if !has_room(self.cells, places.count(), most) {
            return Ok(());
        }
        let table = SumTable::make(alloc, self.counts, of)?;
        self.tables.push(table)?;
        self.cells += places.count();
        Ok(())
    }

    /// The sum of the counts of the rows that agree with `at` on a set.
    pub fn sum(&self, of: VSet, at: &[u32]) -> u64
        requires { HasLevels self.now.table (has of.bits) at.now }
        ensures { result ≡ counted self.now.table.vertices self.now.table.rows (has of.bits) (λ v. slice_index at.now v) }
    {
        match table_of(self.tables.as_slice(), of) {
            Some(table) => table.sum(at),
            None => marginal(self.counts, of, at),
        }
    }
}
