//! What the records so far give.

ghost use Rattle.std.specs.Prelude.{ℕ, ◌≡◌, ◌<◌, ◌≤◌, ◌+◌, ◌^◌, ◌++◌, ◌∷◌, [], List, None, All, OnOk, IfOk, MatchResult, replicate, not, nat_le, length, slice_index, slice_index_or};
ghost use Rattle.mixed_graph.specs.Vocabulary.{with_name, index_of};
ghost use Rattle.count_rows.specs.Records.{Record, field_in, count_of, cell_count};
ghost use Rattle.count_rows.specs.Rows.{list_below};
ghost use Rattle.count_rows.specs.Faults.{most_cells, row_fault, IsExpectedFault};

use crate::digits::{MOST, read_count};
use crate::fault::CountFault;
use crate::fields::Fields;
use crate::levels::Levels;
use std::alloc::{AllocError, Global};

/// The most cells that a table may have.
const MOST_CELLS: u64 = 1048576;

/// Where each record has what is wanted of it.
#[derive(Drop)]
pub struct Columns {
    /// The column of each used vertex, in index order.
    pub places: Vec<usize>,
    /// The column of the counts, if there is one.
    pub count_place: Option<usize>,
}

/// The levels of each used vertex, in index order, and the rows that were read.
#[derive(Drop)]
pub struct Tally {
    /// The levels of each used vertex, in order of first appearance.
    pub levels: Vec<Levels>,
    /// The cell of each row, one behind the other: the number of its level of each used vertex.
    pub cells: Vec<u32>,
    /// The count of each row.
    pub counts: Vec<u64>,
    /// The sum of the counts.
    pub sum: u64,
    pub ghost small: { sum ≤ 10 ^ 15 },
}

/// The count of a record: 1 without a column of counts.
fn count_in_record(row: &Fields, place: Option<usize>) -> Option<u64>
    ensures { result ≡ count_of place row.now }
{
    match place {
        None => Some(1),
        Some(place) => read_count(row.get(place)),
    }
}

/// Adds a record's fields to the levels, and their numbers to the cells.
fn add_fields(
    alloc: Global,
    levels: &mut [Levels],
    cells: &mut Vec<u32>,
    row: &Fields,
    places: &[usize],
) -> Result<(), AllocError>
    requires { length levels.old ≡ length places.now }
    ensures levels { OnOk result ((i : ℕ) → i < length places.now →
        slice_index_or levels.new i [] ≡ with_name (slice_index_or levels.old i []) (field_in (slice_index places.now i) row.now)) }
    ensures cells { OnOk result (cells.new.items ≡ cells.old.items
        ++ list_below (length places.now) (λ i. index_of (slice_index_or levels.old i []) (field_in (slice_index places.now i) row.now))) }
{
    for i in 0..places.len() {
        let number = levels[i].add(alloc, row.get(places[i]))?;
        cells.push(number)?;
    }
    Ok(())
}

/// Whether a table with these levels has too many cells.
fn is_too_large(levels: &[Levels]) -> bool
    requires { All (λ ys. 0 < length ys) levels.now }
    ensures { result ≡ not (nat_le (cell_count levels.now) most_cells) }
{
    let mut cells: u64 = 1;
    for level in levels {
        cells *= u64::from(level.count());
        if cells > MOST_CELLS {
            return true;
        }
    }
    false
}

impl Tally {
    ghost use Rattle.count_rows.specs.Tally.{layout_from, HoldsRecords};

    /// No row yet, of this number of used vertices.
    pub fn empty(alloc: Global, vertices: usize) -> Result<Tally, AllocError>
        ensures levels { IfOk result (λ t. t.levels.items ≡ replicate vertices []) }
        ensures cells { IfOk result (λ t. t.cells.items ≡ []) }
        ensures counts { IfOk result (λ t. t.counts.items ≡ []) }
        ensures sum { IfOk result (λ t. t.sum ≡ 0) }
    {
        let mut levels = Vec::new(alloc);
        for _ in 0..vertices {
            levels.push(Levels::empty(alloc))?;
        }
        Ok(Tally {
            levels,
            cells: Vec::new(alloc),
            counts: Vec::new(alloc),
            sum: 0,
        })
    }

    /// Adds the row with this number, from 1.
    pub fn add(
        &mut self,
        alloc: Global,
        row: &Fields,
        number: usize,
        columns: &Columns,
    ) -> Result<(), CountFault>
        requires { length self.old.levels.items ≡ length columns.now.places.items }
        ensures width { length self.new.levels.items ≡ length self.old.levels.items }
        ensures row { (rows : List Record) → HoldsRecords (layout_from columns.now) rows self.old → number ≡ length rows + 1 →
            MatchResult result
            (λ _. HoldsRecords (layout_from columns.now) (rows ++ row.now ∷ []) self.new
            × (row_fault (length row.now) (layout_from columns.now) rows row.now ≡ None))
            (IsExpectedFault (row_fault (length row.now) (layout_from columns.now) rows row.now)) }
    {
        let Some(count) = count_in_record(row, columns.count_place) else {
            return Err(CountFault::Count(number));
        };
        let places = columns.places.as_slice();
        let added = add_fields(
            alloc,
            self.levels.as_mut_slice(),
            &mut self.cells,
            row,
            places,
        );
        if added.is_err() {
            return Err(CountFault::NoMemory);
        }
        if is_too_large(self.levels.as_slice()) {
            return Err(CountFault::TooLarge);
        }
        if count > MOST - self.sum {
            return Err(CountFault::SumTooLarge);
        }
        self.sum += count;
        if self.counts.push(count).is_err() {
            return Err(CountFault::NoMemory);
        }
        Ok(())
    }
}
