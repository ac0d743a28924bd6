//! Sums of blocks of cells.

ghost use Rattle.std.specs.Prelude.{ℕ, ◌≡◌, ◌<◌, ◌≤◌, ◌+◌, ◌*◌, ◌^◌, IfOk, length, slice_index};
ghost use Rattle.implied_differences.specs.Layouts.{IsStepped, IsBase, base_of, gap_of};
ghost use Rattle.implied_differences.specs.Blocks.{AreBegins, line_at, block_at, IsStrip, IsBest, AreBlocks};

use crate::blocks::best_in_block;
use crate::candidates::Candidate;
use crate::layout::{Block, BlockTable, Layout, Line, Strip};
use crate::reaching::strip_reaches;
use std::alloc::{AllocError, Global};

/// How many blocks are looked at together, at most.
const WIDTH: usize = 64;

/// Writes where so many blocks begin, from this one on. The answer is the one behind them.
fn list_begins(l: &Layout, block: Block, begins: &mut [usize], width: usize) -> Block
    requires stepped { IsStepped l.now }
    requires base { IsBase l.now block }
    requires gap { gap_of l.now ≤ 2 ^ 20 }
    requires small { (j : ℕ) → j < width → base_of l.now (block.number + j) ≤ 2 ^ 20 }
    requires numbers { block.number + width ≤ 2 ^ 20 }
    requires long { width ≤ length begins.old }
    ensures begins { (j : ℕ) → j < width → slice_index begins.new j ≡ base_of l.now (block.number + j) }
    ensures number { result.number ≡ block.number + width }
    ensures base { IsBase l.now result }
{
    let mut next = block;
    for j in 0..width {
        begins[j] = next.begin;
        next = next.next(l);
    }
    next
}

/// Adds to each sum the cell that is so far behind where a block begins.
pub fn add_cells(sums: &mut [u64], cells: &[u64], begins: &[usize], offset: usize, width: usize)
    requires sums { width ≤ length sums.old }
    requires begins { width ≤ length begins.now }
    requires inside { (j : ℕ) → j < width → slice_index begins.now j + offset < length cells.now }
    requires room { (j : ℕ) → j < width → slice_index sums.old j + slice_index cells.now (slice_index begins.now j + offset) < 2 ^ 64 }
    ensures { (j : ℕ) → j < width → slice_index sums.new j ≡ slice_index sums.old j + slice_index cells.now (slice_index begins.now j + offset) }
{
    for j in 0..width {
        sums[j] += cells[begins[j] + offset];
    }
}

/// Adds to each sum a line of cells of a block.
pub fn add_line(sums: &mut [u64], cells: &[u64], begins: &[usize], line: Line, width: usize)
    requires some { 0 < width }
    requires sums { width ≤ length sums.old }
    requires begins { width ≤ length begins.now }
    requires inside { (j k : ℕ) → j < width → k < line.count → slice_index begins.now j + (line.offset + k * line.step) < length cells.now }
    requires room { (j : ℕ) → j < width → slice_index sums.old j + line_at cells.now line (slice_index begins.now j) < 2 ^ 64 }
    ensures { (j : ℕ) → j < width → slice_index sums.new j ≡ slice_index sums.old j + line_at cells.now line (slice_index begins.now j) }
{
    for k in 0..line.count {
        let offset = line.offset + k * line.step;
        add_cells(sums, cells, begins, offset, width);
    }
}

/// N(W) of each block.
fn sum_blocks(table: &BlockTable, begins: &[usize], sums: &mut [u64], width: usize)
    requires firsts { 0 < table.now.layout.now.firsts }
    requires sums { width ≤ length sums.old }
    requires begins { AreBegins table.now.cells.now table.now.layout.now begins.now width }
    ensures { (j : ℕ) → j < width → slice_index sums.new j ≡ block_at table.now.cells.now table.now.layout.now (slice_index begins.now j) }
{
    let l = table.layout;
    sums.fill(0);
    for y in 0..l.seconds {
        add_line(sums, table.cells, begins, l.column_cells(y), width);
    }
}

/// The greatest of so many sums, or 0.
fn greatest(sums: &[u64], width: usize) -> u64
    requires { width ≤ length sums.now }
    ensures each { (j : ℕ) → j < width → slice_index sums.now j ≤ result }
    ensures least { (m : ℕ) → ((j : ℕ) → j < width → slice_index sums.now j ≤ m) → result ≤ m }
{
    let mut most = 0;
    for j in 0..width {
        most = sums[j].max(most);
    }
    most
}

/// The best of what came before and of the cells of so many blocks, from this one on.
fn best_in_each(
    table: &BlockTable,
    block: &Block,
    width: usize,
    columns: &mut [u64],
    before: Candidate,
) -> Candidate
    requires blocks { AreBlocks table.now.cells.now table.now.layout.now }
    requires base { IsBase table.now.layout.now block.now }
    requires numbers { block.now.number + width ≤ table.now.layout.now.count }
    requires long { length columns.old ≡ table.now.layout.now.seconds }
    requires before { IsBest table.now.cells.now table.now.layout.now block.now.number 0 0 before }
    ensures { IsBest table.now.cells.now table.now.layout.now (block.now.number + width) 0 0 result }
{
    let mut best = before;
    let mut next = *block;
    for _ in 0..width {
        best = best_in_block(table, &next, columns, best);
        next = next.next(table.layout);
    }
    best
}

/// The best of what came before and of the cells of a strip. Its blocks are walked only where one of their cells may be ahead.
fn best_in_strip(
    table: &BlockTable,
    strip: &Strip,
    rows: &mut [u64],
    across: &mut [u64],
    columns: &mut [u64],
    before: Candidate,
) -> Candidate
    requires blocks { AreBlocks table.now.cells.now table.now.layout.now }
    requires base { IsBase table.now.layout.now strip.now.first }
    requires numbers { strip.now.first.number + strip.now.width ≤ table.now.layout.now.count }
    requires strip { IsStrip table.now.cells.now table.now.layout.now strip.now.begins.now strip.now.sums.now strip.now.width }
    requires begins { (j : ℕ) → j < strip.now.width → slice_index strip.now.begins.now j ≡ base_of table.now.layout.now (strip.now.first.number + j) }
    requires rows { strip.now.width ≤ length rows.old }
    requires across { strip.now.width ≤ length across.old }
    requires long { length columns.old ≡ table.now.layout.now.seconds }
    requires before { IsBest table.now.cells.now table.now.layout.now strip.now.first.number 0 0 before }
    ensures { IsBest table.now.cells.now table.now.layout.now (strip.now.first.number + strip.now.width) 0 0 result }
{
    let most = greatest(strip.sums, strip.width);
    if !before.may_be_passed(most, strip.first.number) {
        return before;
    }
    if !strip_reaches(table, strip, rows, across, most, &before) {
        return before;
    }
    best_in_each(table, &strip.first, strip.width, columns, before)
}

/// The best of all cells, over room for a strip.
fn best_of_strips(
    table: &BlockTable,
    begins: &mut [usize],
    sums: &mut [u64],
    rows: &mut [u64],
    across: &mut [u64],
    columns: &mut [u64],
) -> Candidate
    requires blocks { AreBlocks table.now.cells.now table.now.layout.now }
    requires begins { length begins.old ≡ 64 }
    requires sums { length sums.old ≡ 64 }
    requires rows { length rows.old ≡ 64 }
    requires across { length across.old ≡ 64 }
    requires columns { length columns.old ≡ table.now.layout.now.seconds }
    ensures { IsBest table.now.cells.now table.now.layout.now table.now.layout.now.count 0 0 result }
{
    let l = table.layout;
    let mut best = Candidate::none();
    let mut block = Block::first();
    'strips: while block.number < l.count {
        let width = (l.count - block.number).min(WIDTH);
        let next = list_begins(l, block, begins, width);
        sum_blocks(table, begins, sums, width);
        let strip = Strip {
            first: block,
            width,
            begins: &*begins,
            sums: &*sums,
        };
        best = best_in_strip(table, &strip, rows, across, columns, best);
        block = next;
    }
    best
}

/// The best of all cells.
pub fn best_in_strips(alloc: Global, cells: &[u64], l: &Layout) -> Result<Candidate, AllocError>
    requires { AreBlocks cells.now l.now }
    ensures { IfOk result (λ best. IsBest cells.now l.now l.now.count 0 0 best) }
{
    let mut begins = vec![in alloc; 0; WIDTH]?;
    let mut sums = vec![in alloc; 0; WIDTH]?;
    let mut rows = vec![in alloc; 0; WIDTH]?;
    let mut across = vec![in alloc; 0; WIDTH]?;
    let mut columns = vec![in alloc; 0; l.seconds]?;
    Ok(best_of_strips(
        &BlockTable { cells, layout: l },
        begins.as_mut_slice(),
        sums.as_mut_slice(),
        rows.as_mut_slice(),
        across.as_mut_slice(),
        columns.as_mut_slice(),
    ))
}
