//! Which cells may be ahead of the best so far.

ghost use Rattle.std.specs.Prelude.{ℕ, ◌≡◌, ◌≢◌, ◌<◌, ◌≤◌, ◌+◌, ◌*◌, ◌^◌, length, slice_index};
ghost use Rattle.std.specs.Bool.{OnFalse};
ghost use Rattle.std.specs.Int.{abs_diff};
ghost use Rattle.implied_differences.specs.Blocks.{row_at, IsStrip, IsPassedAt};

use crate::candidates::Candidate;
use crate::layout::{BlockTable, Strip};
use crate::strips::add_line;

/// With more levels of a, the columns' sums would cost more than the walk over blocks.
const FEW: usize = 8;

/// The number of levels that are looked at. Of two levels one is enough: the differences at the other are the same with
/// the sign turned.
fn levels_to_see(levels: usize) -> usize
    ensures two { levels ≡ 2 → result ≡ 1 }
    ensures other { levels ≢ 2 → result ≡ levels }
{
    if levels == 2 { 1 } else { levels }
}

/// Whether the products at a cell of a block are so far apart: of the cell and N(W), and of N(a,W) and N(b,W).
fn any_reaches(
    cells: &[u64],
    strip: &Strip,
    offset: usize,
    rows: &[u64],
    columns: &[u64],
    limit: u64,
) -> bool
    requires begins { strip.now.width ≤ length strip.now.begins.now }
    requires sums { strip.now.width ≤ length strip.now.sums.now }
    requires rows { strip.now.width ≤ length rows.now }
    requires columns { strip.now.width ≤ length columns.now }
    requires inside { (j : ℕ) → j < strip.now.width → slice_index strip.now.begins.now j + offset < length cells.now }
    requires small_cells { (j : ℕ) → j < strip.now.width → slice_index cells.now (slice_index strip.now.begins.now j + offset) < 2 ^ 32 }
    requires small_sums { (j : ℕ) → j < strip.now.width → slice_index strip.now.sums.now j < 2 ^ 32 }
    requires small_rows { (j : ℕ) → j < strip.now.width → slice_index rows.now j < 2 ^ 32 }
    requires small_columns { (j : ℕ) → j < strip.now.width → slice_index columns.now j < 2 ^ 32 }
    ensures no { OnFalse result ((j : ℕ) → j < strip.now.width →
        abs_diff (slice_index cells.now (slice_index strip.now.begins.now j + offset) * slice_index strip.now.sums.now j) (slice_index rows.now j * slice_index columns.now j) < limit) }
{
    let begins = strip.begins;
    let sums = strip.sums;
    for j in 0..strip.width {
        let left = cells[begins[j] + offset] * sums[j];
        let right = rows[j] * columns[j];
        if left.abs_diff(right) >= limit {
            return true;
        }
    }
    false
}

/// Whether a cell of a strip may be ahead, at a level of a.
fn row_reaches(
    table: &BlockTable,
    strip: &Strip,
    rows: &[u64],
    columns: &mut [u64],
    x: usize,
    before: &Candidate,
) -> bool
    requires strip { IsStrip table.now.cells.now table.now.layout.now strip.now.begins.now strip.now.sums.now strip.now.width }
    requires few { table.now.layout.now.firsts * table.now.layout.now.seconds * table.now.layout.now.count ≤ 2 ^ 20 }
    requires number { strip.now.first.number < table.now.layout.now.count }
    requires first { x < table.now.layout.now.firsts }
    requires long_rows { strip.now.width ≤ length rows.now }
    requires long_columns { strip.now.width ≤ length columns.old }
    requires rows { (j : ℕ) → j < strip.now.width → slice_index rows.now j ≡ row_at table.now.cells.now table.now.layout.now (slice_index strip.now.begins.now j) x }
    requires small { (j : ℕ) → j < strip.now.width → slice_index strip.now.sums.now j < 2 ^ 32 }
    ensures no { OnFalse result ((y : ℕ) → y < table.now.layout.now.seconds →
        IsPassedAt table.now.cells.now table.now.layout.now strip.now.begins.now strip.now.width strip.now.first.number x y before.now) }
{
    let l = table.layout;
    for y in 0..levels_to_see(l.seconds) {
        columns.fill(0);
        add_line(
            columns,
            table.cells,
            strip.begins,
            l.column_cells(y),
            strip.width,
        );
        let limit = before.limit(l.number(x, y, strip.first.number));
        let offset = x * l.first_step + y * l.second_step;
        if any_reaches(table.cells, strip, offset, rows, columns, limit) {
            return true;
        }
    }
    false
}

/// Whether a cell of a strip may be ahead. No block's sum is above `most`.
pub fn strip_reaches(
    table: &BlockTable,
    strip: &Strip,
    rows: &mut [u64],
    columns: &mut [u64],
    most: u64,
    before: &Candidate,
) -> bool
    requires strip { IsStrip table.now.cells.now table.now.layout.now strip.now.begins.now strip.now.sums.now strip.now.width }
    requires few { table.now.layout.now.firsts * table.now.layout.now.seconds * table.now.layout.now.count ≤ 2 ^ 20 }
    requires number { strip.now.first.number < table.now.layout.now.count }
    requires long_rows { strip.now.width ≤ length rows.old }
    requires long_columns { strip.now.width ≤ length columns.old }
    requires most { (j : ℕ) → j < strip.now.width → slice_index strip.now.sums.now j ≤ most }
    ensures no { OnFalse result ((x y : ℕ) → x < table.now.layout.now.firsts → y < table.now.layout.now.seconds →
        IsPassedAt table.now.cells.now table.now.layout.now strip.now.begins.now strip.now.width strip.now.first.number x y before.now) }
{
    let l = table.layout;
    if l.firsts > FEW {
        return true;
    }
    if most >= 1 << 32 {
        return true;
    }
    for x in 0..levels_to_see(l.firsts) {
        rows.fill(0);
        add_line(rows, table.cells, strip.begins, l.row_cells(x), strip.width);
        if row_reaches(table, strip, rows, columns, x, before) {
            return true;
        }
    }
    false
}
