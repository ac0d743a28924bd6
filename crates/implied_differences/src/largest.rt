//! The largest cross difference of an implication.

ghost use Rattle.std.specs.Prelude.{◌≡◌, ◌≤◌, ◌^◌, IfOk, pos, ◌-ℤ◌};
ghost use Rattle.implied_differences.specs.Differences.{IsReadable, IsLargest};
ghost use Rattle.implied_differences.specs.Laws.{IsZeroWhereMatched};
ghost use Rattle.implied_differences.specs.Layouts.{IsLayoutOf};
ghost use Rattle.implied_differences.specs.Blocks.{IsBestOf};

use crate::candidates::Candidate;
use crate::cells::cell_at;
use crate::layout::{Layout, layout_of};
use crate::sets::vertices_of;
use crate::strips::best_in_strips;
use count_table::Counts;
use count_table::sum_tables::{Places, SumTable};
use implications::Implication;
use std::alloc::{AllocError, Global};

/// A cross difference of counts: N(a,b,W) N(W) - N(a,W) N(b,W), where N is the sum of the counts that agree with the cell.
#[derive(Clone, Copy, Debug)]
pub struct Difference {
    /// The difference.
    pub value: i128,
    /// The number of a level for each vertex of the implication, and 0 for each other one.
    pub cell: [u32; 64],
}

/// The difference of a cell's products.
fn difference_of(best: &Candidate, cell: [u32; 64]) -> Difference
    requires left { best.now.left ≤ 10 ^ 30 }
    requires right { best.now.right ≤ 10 ^ 30 }
    ensures value { result.value ≡ pos best.now.left -ℤ pos best.now.right }
    ensures cell { result.cell ≡ cell }
{
    Difference {
        value: best.left as i128 - best.right as i128,
        cell,
    }
}

/// The best of all cells of an implication.
fn best_of(alloc: Global, c: &Counts, i: &Implication, l: &Layout) -> Result<Candidate, AllocError>
    requires readable { IsReadable c.now i.now }
    requires layout { IsLayoutOf c.now i.now l.now }
    ensures { IfOk result (λ best. IsBestOf c.now i.now l.now best) }
{
    let used = c.used();
    let whole = vertices_of(i);
    if used.difference(whole).is_empty() {
        return best_in_strips(alloc, c.cells(), l);
    }
    let sums = SumTable::make(alloc, c, whole)?;
    best_in_strips(alloc, sums.sums(), l)
}

/// The difference with the greatest absolute value, and its cell: of several the first, where the level of a is the
/// slowest, then that of b, then those of the given vertices in index order.
///
/// The levels are those of the table. The sums are walked in blocks, one for each cell of the given vertices; cell by cell
/// only where a look at 64 blocks together leaves it open that one of their cells is further from 0 than those before.
/// Where a model fits a graph with this implication and matches the counts, positive or not, the difference is 0.
pub fn largest_difference(
    alloc: Global,
    c: &Counts,
    i: &Implication,
) -> Result<Difference, AllocError>
    requires { IsReadable c.now i.now }
    ensures largest { IfOk result (λ d. IsLargest c.now i.now d) }
    ensures matched { IfOk result (λ d. IsZeroWhereMatched c.now i.now d) }
{
    // The clause `table` of `used` is needed: used vertices are below 64, there are at most 2^20 cells, and counts come to at most 10^15.
    let _used = c.used();
    let given = Places::of(alloc, c, i.given)?;
    let layout = layout_of(alloc, c, i)?;
    let best = best_of(alloc, c, i, &layout)?;
    let cell = cell_at(&given, i.a, i.b, layout.seconds, best.number);
    Ok(difference_of(&best, cell))
}
