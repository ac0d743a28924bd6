//! A table of counts, and the sums over it.

ghost use Rattle.std.specs.Prelude.{ℕ, ◌≡◌, ◌<◌, ◌≤◌, ◌^◌, ◌==◌, Bool, [], Some, All, IsTrue, IfOk, MatchOption, bit_and, length, map, slice_get, slice_index};
ghost use Rattle.mixed_graph.specs.Vocabulary.{has, members_below};
ghost use Rattle.count_rows.specs.Vocabulary.{agrees, counted};
ghost use Rattle.count_table.specs.Cells.{sizes_of, rows_from};
ghost use Rattle.count_table.specs.Codes.{code_bits, code_of_cell, mask_under, code_under};
ghost use Rattle.count_table.specs.Tables.{levels_in, AreCounts, AreRows, HasLevels};

use crate::cells::counts_of;
use crate::codes::{code_over, codes_of, mask_over};
use crate::lane_sums::masked_sum;
use count_rows::{Levels, Tally};
use mixed_graph::VSet;
use std::alloc::{AllocError, Global};
use std::marker::Model;

/// A table of counts: the levels of each used vertex, in order of first appearance, and a count for each combination of levels.
///
/// At least one vertex is used, each used vertex has a level, and its levels differ. There are at most 2^20 combinations,
/// and the sum of all counts is from 1 to 10^15. Contracts see the used vertices in index order, the levels of each, and
/// one row with its count for each combination.
#[derive(Drop)]
pub struct Counts {
    used: VSet,
    vertices: Vec<u8>,
    levels: Vec<Levels>,
    cells: Vec<u64>,
    codes: Vec<u64>,
}

impl Model for Counts {
    ghost use Rattle.count_rows.specs.Rows.{Table};
    ghost use Rattle.count_table.specs.Cells.{sizes_of, cells_of, rows_with};
    ghost use Rattle.count_table.specs.Tables.{IsKeptTable};

    ghost Value = { Table };

    ghost view = { λ s. record { vertices = s.vertices.items; levels = s.levels.items; rows = rows_with (cells_of (sizes_of s.levels.items)) s.cells.items } };

    ghost invariant = { λ s. IsKeptTable s.used.bits s.vertices.items s.levels.items s.cells.items s.codes.items };
}

/// The levels of a vertex, if it is one of these.
fn levels_at<'a>(vertices: &[u8], levels: &'a [Levels], v: u8) -> Option<&'a Levels>
    requires { length levels.now ≡ length vertices.now }
    ensures { MatchOption result (levels_in vertices.now levels.now v ≡ []) (λ found. found.now ≡ levels_in vertices.now levels.now v) }
{
    for i in 0..vertices.len() {
        if vertices[i] == v {
            return Some(&levels[i]);
        }
    }
    None
}

impl Counts {
    /// The table of these rows.
    pub(crate) fn of_rows(
        alloc: Global,
        used: VSet,
        vertices: Vec<u8>,
        tally: Tally,
    ) -> Result<Counts, AllocError>
        requires members { vertices.items ≡ members_below (has used.bits) 64 }
        requires some { 0 < used.bits }
        requires matched { length tally.levels.items ≡ length vertices.items }
        requires rows { AreRows tally.levels.items tally.cells.items tally.counts.items }
        ensures vertices { IfOk result (λ c. c.vertices ≡ vertices.items) }
        ensures levels { IfOk result (λ c. c.levels ≡ tally.levels.items) }
        ensures rows { IfOk result (λ c. (of : ℕ → Bool) (at : ℕ → ℕ) →
            counted c.vertices c.rows of at ≡ counted c.vertices (rows_from (length tally.levels.items) tally.cells.items tally.counts.items) of at) }
    {
        let levels = tally.levels;
        let cells = counts_of(
            alloc,
            levels.as_slice(),
            tally.cells.as_slice(),
            tally.counts.as_slice(),
        )?;
        let codes = codes_of(alloc, levels.as_slice())?;
        Ok(Counts {
            used,
            vertices,
            levels,
            cells,
            codes,
        })
    }

    /// The used vertices.
    pub fn used(&self) -> VSet
        ensures members { members_below (has result.bits) 64 ≡ self.now.vertices }
        ensures fits { result.bits < 2 ^ 64 }
        ensures table { AreCounts self.now }
    {
        self.used
    }

    /// How many levels a vertex has; none where it isn't used.
    pub fn levels(&self, v: u8) -> u32
        ensures { result ≡ length (levels_in self.now.vertices self.now.levels v) }
    {
        match levels_at(self.vertices.as_slice(), self.levels.as_slice(), v) {
            Some(levels) => levels.count(),
            None => 0,
        }
    }

    /// The level of a vertex with the number k, as its bytes.
    pub fn level(&self, v: u8, k: u32) -> &[u8]
        requires { k < length (levels_in self.now.vertices self.now.levels v) }
        ensures { slice_get (levels_in self.now.vertices self.now.levels v) k ≡ Some result.now }
    {
        match levels_at(self.vertices.as_slice(), self.levels.as_slice(), v) {
            Some(levels) => levels.get(k),
            None => unreachable!(),
        }
    }

    /// The count of each combination of levels, in mixed radix over the used vertices, the lowest index slowest.
    pub fn cells(&self) -> &[u64]
        ensures counts { result.now ≡ map (λ r. r.count) self.now.rows }
        ensures table { AreCounts self.now }
    {
        self.cells.as_slice()
    }

    /// The code of each combination: the levels packed into fields of bits, that of the lowest index the lowest. All fields
    /// together have at most 40 bits.
    pub fn codes(&self) -> &[u64]
        ensures few { code_bits (sizes_of self.now.levels) ≤ 40 }
        ensures codes { result.now ≡ map (λ r. code_of_cell (sizes_of self.now.levels) r.cell) self.now.rows }
    {
        self.codes.as_slice()
    }

    /// All bits of the fields of the used vertices of a set.
    pub fn mask_of(&self, of: VSet) -> u64
        ensures { result ≡ mask_under self.now.vertices (sizes_of self.now.levels) (has of.bits) }
    {
        mask_over(self.vertices.as_slice(), self.levels.as_slice(), of)
    }

    /// An assignment's levels of the vertices of a set, packed: what the codes of the combinations that agree with it on the set
    /// have under the set's mask, and no others.
    pub fn code_of(&self, of: VSet, at: &[u32]) -> u64
        requires { HasLevels self.now (has of.bits) at.now }
        ensures code { result ≡ code_under self.now.vertices (sizes_of self.now.levels) (has of.bits) (λ v. slice_index at.now v) }
        ensures agrees { All (λ r. (bit_and (code_of_cell (sizes_of self.now.levels) r.cell) (mask_under self.now.vertices (sizes_of self.now.levels) (has of.bits)) == result)
            ≡ agrees self.now.vertices r.cell (has of.bits) (λ v. slice_index at.now v)) self.now.rows }
    {
        code_over(self.vertices.as_slice(), self.levels.as_slice(), of, at)
    }
}

/// The sum of the counts of the rows that agree with `at` on `of`.
pub fn marginal(c: &Counts, of: VSet, at: &[u32]) -> u64
    requires { HasLevels c.now (has of.bits) at.now }
    ensures { result ≡ counted c.now.vertices c.now.rows (has of.bits) (λ v. slice_index at.now v) }
{
    let mask = c.mask_of(of);
    let want = c.code_of(of, at);
    masked_sum(c.cells(), c.codes(), mask, want)
}
