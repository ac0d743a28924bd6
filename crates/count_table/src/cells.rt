//! The cells of a table, and the count of each.

ghost use Rattle.std.specs.Prelude.{ℕ, ◌≡◌, ◌<◌, ◌≤◌, ◌*◌, ◌^◌, All, IfOk, length, map, sum, slice_index};
ghost use Rattle.count_rows.specs.Vocabulary.{AreLevels, cell_count};
ghost use Rattle.count_table.specs.Cells.{sizes_of, place_of, IsCell, rows_from, count_at};

use count_rows::Levels;
use std::alloc::{AllocError, Global};

/// The number of cells of a table with these levels.
fn count_cells(levels: &[Levels]) -> usize
    requires each { All (λ ys. 0 < length ys) levels.now }
    requires few { cell_count levels.now ≤ 2 ^ 20 }
    ensures count { result ≡ cell_count levels.now }
    ensures differ { All AreLevels levels.now }
{
    let mut cells: usize = 1;
    for level in levels {
        cells *= level.count() as usize;
    }
    cells
}

/// The place of a cell in the table.
fn place_of_cell(levels: &[Levels], cell: &[u32]) -> usize
    requires cell { IsCell (sizes_of levels.now) cell.now }
    requires few { cell_count levels.now ≤ 2 ^ 20 }
    ensures place { result ≡ place_of (sizes_of levels.now) cell.now }
    ensures within { result < cell_count levels.now }
{
    let mut place: usize = 0;
    for i in 0..levels.len() {
        place = place * levels[i].count() as usize + cell[i] as usize;
    }
    place
}

/// The count of each cell: the sum of the counts of the rows that have it. The cells of the rows stand one behind the other.
pub fn counts_of(
    alloc: Global,
    levels: &[Levels],
    numbers: &[u32],
    counts: &[u64],
) -> Result<Vec<u64>, AllocError>
    requires each { All (λ ys. 0 < length ys) levels.now }
    requires few { cell_count levels.now ≤ 2 ^ 20 }
    requires long { length numbers.now ≡ length levels.now * length counts.now }
    requires cells { All (λ r. IsCell (sizes_of levels.now) r.cell) (rows_from (length levels.now) numbers.now counts.now) }
    requires room { sum counts.now < 2 ^ 64 }
    ensures differ { IfOk result (λ _. All AreLevels levels.now) }
    ensures length { IfOk result (λ made. length made.items ≡ cell_count levels.now) }
    ensures counts { IfOk result (λ made. (i : ℕ) → i < cell_count levels.now →
        slice_index made.items i ≡ count_at (sizes_of levels.now) (rows_from (length levels.now) numbers.now counts.now) i) }
{
    let mut made = vec![in alloc; 0; count_cells(levels)]?;
    let mut rest = numbers;
    for count in counts {
        let place = place_of_cell(levels, &rest[..levels.len()]);
        made[place] += *count;
        rest = &rest[levels.len()..];
    }
    Ok(made)
}
