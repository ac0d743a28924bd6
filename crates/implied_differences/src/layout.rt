//! Where the sums for the cells stand.

ghost use Rattle.std.specs.Prelude.{ℕ, ◌≡◌, ◌<◌, ◌≤◌, ◌+◌, ◌*◌, ◌-◌, ◌^◌, IfOk};
ghost use Rattle.mixed_graph.specs.Vocabulary.{has};
ghost use Rattle.count_table.specs.Vocabulary.{axes_of, cells_over};
ghost use Rattle.implied_differences.specs.Differences.{IsReadable};
ghost use Rattle.implied_differences.specs.Blocks.{number_at};
ghost use Rattle.implied_differences.specs.Layouts.{between_pair, behind_pair, IsLayoutOf, IsStepped, IsBase, gap_of, row_of, column_of};

use count_table::Counts;
use count_table::sum_tables::Places;
use implications::Implication;
use mixed_graph::VSet;
use std::alloc::{AllocError, Global};

/// Where the sums for the cells of an implication stand in a table whose vertices are in index order.
///
/// For one cell of the given vertices they are a block: a step from one level of the first vertex to the next, and a
/// smaller step from one level of the second to the next.
#[derive(Clone, Copy)]
pub struct Layout {
    /// The number of levels of the first vertex.
    pub firsts: usize,
    /// The number of levels of the second vertex.
    pub seconds: usize,
    /// From one level of the first vertex to the next.
    pub first_step: usize,
    /// From one level of the second vertex to the next; this is the number of cells of the given vertices behind both.
    pub second_step: usize,
    /// The number of cells of the given vertices between the two.
    pub between: usize,
    /// The number of cells of all given vertices.
    pub count: usize,
}

/// Cells of a block, so many, at one distance from each other. The first is so far behind where the block begins.
#[derive(Clone, Copy)]
pub struct Line {
    pub offset: usize,
    pub step: usize,
    pub count: usize,
}

impl Layout {
    /// The cells at a level of the first vertex.
    pub fn row_cells(&self, x: usize) -> Line
        requires { x * self.now.first_step < 2 ^ 64 }
        ensures { result ≡ row_of self.now x }
    {
        Line {
            offset: x * self.first_step,
            step: self.second_step,
            count: self.seconds,
        }
    }

    /// The cells at a level of the second vertex.
    pub fn column_cells(&self, y: usize) -> Line
        requires { y * self.now.second_step < 2 ^ 64 }
        ensures { result ≡ column_of self.now y }
    {
        Line {
            offset: y * self.second_step,
            step: self.first_step,
            count: self.firsts,
        }
    }

    /// The number of a cell in order: its levels of the two and the number of the given vertices' cell as digits.
    pub fn number(&self, x: usize, y: usize, given: usize) -> usize
        requires first { x < self.now.firsts }
        requires second { y < self.now.seconds }
        requires given { given < self.now.count }
        requires few { self.now.firsts * self.now.seconds * self.now.count ≤ 2 ^ 20 }
        ensures { result ≡ number_at self.now given x y }
    {
        let pair = x * self.seconds + y;
        pair * self.count + given
    }
}

/// The sums over the vertices of an implication, and how they are laid out.
#[derive(Clone, Copy)]
pub struct BlockTable<'a> {
    pub cells: &'a [u64],
    pub layout: &'a Layout,
}

/// The given vertices between the two.
fn between(i: &Implication) -> VSet
    requires a { i.now.a < 64 }
    requires b { i.now.b < 64 }
    ensures { has result.bits ≡ between_pair i.now }
{
    let before = i.given.intersection(VSet::below(u32::from(i.b)));
    before.difference(VSet::below(u32::from(i.a)))
}

/// The given vertices behind both.
fn behind(i: &Implication) -> VSet
    requires { i.now.b < 64 }
    ensures { has result.bits ≡ behind_pair i.now }
{
    i.given.difference(VSet::below(u32::from(i.b)))
}

/// The number of cells of those vertices of a set that a table of counts uses.
fn cell_count(alloc: Global, c: &Counts, of: VSet) -> Result<usize, AllocError>
    ensures count { IfOk result (λ n. n ≡ cells_over (axes_of c.now (has of.bits))) }
    ensures some { IfOk result (λ n. 0 < n) }
    ensures few { IfOk result (λ n. n ≤ 2 ^ 20) }
{
    let places = Places::of(alloc, c, of)?;
    Ok(places.count())
}

/// The layout of an implication in the sums over its vertices.
pub fn layout_of(alloc: Global, c: &Counts, i: &Implication) -> Result<Layout, AllocError>
    requires { IsReadable c.now i.now }
    ensures { IfOk result (λ l. IsLayoutOf c.now i.now l) }
{
    // The clause `table` of `used` is needed: used vertices are below 64, and there are at most 2^20 cells.
    let _used = c.used();
    let count = cell_count(alloc, c, i.given)?;
    let between = cell_count(alloc, c, between(i))?;
    let second_step = cell_count(alloc, c, behind(i))?;
    let firsts = c.levels(i.a) as usize;
    let seconds = c.levels(i.b) as usize;
    let first_step = between * (seconds * second_step);
    Ok(Layout {
        firsts,
        seconds,
        first_step,
        second_step,
        between,
        count,
    })
}

/// Where the block of a cell of the given vertices begins; the number of this cell in order, and the numbers of its parts
/// between and behind the pair.
#[derive(Clone, Copy)]
pub struct Block {
    pub number: usize,
    pub begin: usize,
    pub between: usize,
    pub behind: usize,
}

impl Block {
    /// The block of the first cell.
    pub fn first() -> Block
        ensures number { result.number ≡ 0 }
        ensures begin { result.begin ≡ 0 }
        ensures between { result.between ≡ 0 }
        ensures behind { result.behind ≡ 0 }
    {
        Block {
            number: 0,
            begin: 0,
            between: 0,
            behind: 0,
        }
    }

    /// The block of the next cell.
    pub fn next(self, l: &Layout) -> Block
        requires stepped { IsStepped l.now }
        requires base { IsBase l.now self }
        requires begin { self.begin ≤ 2 ^ 20 }
        requires number { self.number ≤ 2 ^ 20 }
        requires gap { gap_of l.now ≤ 2 ^ 20 }
        ensures number { result.number ≡ self.number + 1 }
        ensures base { IsBase l.now result }
    {
        let number = self.number + 1;
        let begin = self.begin + 1;
        if self.behind + 1 < l.second_step {
            return Block {
                number,
                begin,
                between: self.between,
                behind: self.behind + 1,
            };
        }
        let begin = begin + (l.seconds - 1) * l.second_step;
        if self.between + 1 < l.between {
            return Block {
                number,
                begin,
                between: self.between + 1,
                behind: 0,
            };
        }
        Block {
            number,
            begin: begin + (l.firsts - 1) * l.first_step,
            between: 0,
            behind: 0,
        }
    }
}

/// Blocks that are looked at together.
#[derive(Clone, Copy)]
pub struct Strip<'a> {
    /// The first one.
    pub first: Block,
    /// How many there are.
    pub width: usize,
    /// Where each begins.
    pub begins: &'a [usize],
    /// N(W) of each.
    pub sums: &'a [u64],
}
