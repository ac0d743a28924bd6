//! Sums of cells in strides.

ghost use Rattle.std.specs.Prelude.{ℕ, ◌≡◌, ◌<◌, ◌≤◌, ◌+◌, ◌*◌, ◌^◌, length, slice_index};
ghost use Rattle.implied_differences.specs.Layouts.{base_of};
ghost use Rattle.implied_differences.specs.Blocks.{strided, IsBlock, AreColumns, block_at, IsBest};

use crate::candidates::Candidate;
use crate::layout::{Block, BlockTable};

/// The sum of so many cells, one each `step` places.
fn strided_sum(cells: &[u64], begin: usize, step: usize, count: usize) -> u64
    requires inside { (k : ℕ) → k < count → begin + k * step < length cells.now }
    requires room { strided cells.now begin step count < 2 ^ 64 }
    ensures { result ≡ strided cells.now begin step count }
{
    let mut sum = 0;
    for k in 0..count {
        sum += cells[begin + k * step];
    }
    sum
}

/// Adds cells, one each `step` places, to the sums.
fn add_strided(sums: &mut [u64], cells: &[u64], begin: usize, step: usize)
    requires inside { (k : ℕ) → k < length sums.old → begin + k * step < length cells.now }
    requires room { (k : ℕ) → k < length sums.old → slice_index sums.old k + slice_index cells.now (begin + k * step) < 2 ^ 64 }
    ensures { (k : ℕ) → k < length sums.old → slice_index sums.new k ≡ slice_index sums.old k + slice_index cells.now (begin + k * step) }
{
    for k in 0..sums.len() {
        sums[k] += cells[begin + k * step];
    }
}

/// N(b,W) for each level of the second vertex, and the given vertices' cell of a block.
fn sum_columns(table: &BlockTable, begin: usize, columns: &mut [u64])
    requires block { IsBlock table.now.cells.now table.now.layout.now begin }
    requires long { length columns.old ≡ table.now.layout.now.seconds }
    ensures { AreColumns table.now.cells.now table.now.layout.now begin columns.new }
{
    let l = table.layout;
    columns.fill(0);
    for x in 0..l.firsts {
        add_strided(
            columns,
            table.cells,
            begin + x * l.first_step,
            l.second_step,
        );
    }
}

/// The best of what came before and of the cells of a block at a level of the first vertex.
fn best_in_row(
    table: &BlockTable,
    block: &Block,
    x: usize,
    columns: &[u64],
    given: u64,
    before: Candidate,
) -> Candidate
    requires block { IsBlock table.now.cells.now table.now.layout.now block.now.begin }
    requires base { block.now.begin ≡ base_of table.now.layout.now block.now.number }
    requires first { x < table.now.layout.now.firsts }
    requires number { block.now.number < table.now.layout.now.count }
    requires few { table.now.layout.now.firsts * table.now.layout.now.seconds * table.now.layout.now.count ≤ 2 ^ 20 }
    requires columns { AreColumns table.now.cells.now table.now.layout.now block.now.begin columns.now }
    requires given { given ≡ block_at table.now.cells.now table.now.layout.now block.now.begin }
    requires before { IsBest table.now.cells.now table.now.layout.now block.now.number x 0 before }
    ensures { IsBest table.now.cells.now table.now.layout.now block.now.number x table.now.layout.now.seconds result }
{
    let cells = table.cells;
    let l = table.layout;
    let row = block.begin + x * l.first_step;
    let first = strided_sum(cells, row, l.second_step, l.seconds);
    let mut best = before;
    for y in 0..l.seconds {
        let whole = cells[row + y * l.second_step];
        let number = l.number(x, y, block.number);
        let here = Candidate::new(whole, given, first, columns[y], number);
        if here.is_ahead(&best) {
            best = here;
        }
    }
    best
}

/// The best of what came before and of the cells of a block.
pub fn best_in_block(
    table: &BlockTable,
    block: &Block,
    columns: &mut [u64],
    before: Candidate,
) -> Candidate
    requires block { IsBlock table.now.cells.now table.now.layout.now block.now.begin }
    requires base { block.now.begin ≡ base_of table.now.layout.now block.now.number }
    requires number { block.now.number < table.now.layout.now.count }
    requires few { table.now.layout.now.firsts * table.now.layout.now.seconds * table.now.layout.now.count ≤ 2 ^ 20 }
    requires long { length columns.old ≡ table.now.layout.now.seconds }
    requires before { IsBest table.now.cells.now table.now.layout.now block.now.number 0 0 before }
    ensures { IsBest table.now.cells.now table.now.layout.now (block.now.number + 1) 0 0 result }
{
    let l = table.layout;
    sum_columns(table, block.begin, columns);
    let given = strided_sum(columns, 0, 1, l.seconds);
    let mut best = before;
    for x in 0..l.firsts {
        best = best_in_row(table, block, x, columns, given, best);
    }
    best
}
