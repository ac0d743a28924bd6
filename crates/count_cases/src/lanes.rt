//! Sums of counts under a mask, and over the middle axis of a table.

ghost use Rattle.std.specs.Prelude.{◌<◌, ◌^◌, IsTrue, sum};

use case_rows::{Printed, number, wide_numbers};
use count_table::lane_sums::{axis_sum, masked_sum};
use serde_json::Value;
use std::alloc::Global;
use std::fmt::{Display, Write};

/// Prints numbers, joined by blanks.
pub(crate) fn print_numbers<T: Display>(numbers: &[T], print: &mut Printed) -> Option<()> {
    let mut between = "";
    for number in numbers {
        write!(print, "{between}{number}").ok()?;
        between = " ";
    }
    Some(())
}

/// Whether the sum of the numbers has 64 bits.
fn is_summable(numbers: &[u64]) -> bool
    ensures { IsTrue result → sum numbers.now < 2 ^ 64 }
{
    let mut total: u64 = 0;
    for number in numbers {
        let Some(more) = total.checked_add(*number) else {
            return false;
        };
        total = more;
    }
    true
}

/// The sum of the counts whose codes are, under the mask, the one that is wanted.
fn sum_under(counts: &[u64], codes: &[u64], mask: u64, want: u64) -> Option<u64> {
    if counts.len() != codes.len() || !is_summable(counts) {
        return None;
    }
    Some(masked_sum(counts, codes, mask, want))
}

/// Prints the sum of the `counts` whose `codes` are, under the `mask`, the one to `want`.
pub(crate) fn print_masked_sum(alloc: Global, case: &Value, print: &mut Printed) -> Option<()> {
    let counts = wide_numbers(alloc, case, "counts")?;
    let codes = wide_numbers(alloc, case, "codes")?;
    let sum = sum_under(&counts, &codes, number(case, "mask"), number(case, "want"))?;
    write!(print, "{sum}").ok()
}

/// The sums over the middle one of three axes of these sizes, where 7 stood before in each place.
fn sums_over_axis(
    alloc: Global,
    cells: &[u64],
    outer: usize,
    axis: usize,
    inner: usize,
) -> Option<Vec<u64>> {
    let size = outer.checked_mul(inner)?;
    let rows = outer.checked_mul(axis)?;
    let count = rows.checked_mul(inner)?;
    if cells.len() != count || !is_summable(cells) {
        return None;
    }
    let mut into = vec![in alloc; 7u64; size].ok()?;
    axis_sum(cells, outer, axis, inner, &mut into);
    Some(into)
}

/// Prints the sums of the `cells` over the middle one of the axes with these `sizes`.
pub(crate) fn print_axis_sum(alloc: Global, case: &Value, print: &mut Printed) -> Option<()> {
    let cells = wide_numbers(alloc, case, "cells")?;
    let sizes = wide_numbers(alloc, case, "sizes")?;
    let [outer, axis, inner] = sizes.as_slice() else {
        return None;
    };
    let (outer, axis, inner) = (*outer as usize, *axis as usize, *inner as usize);
    print_numbers(&sums_over_axis(alloc, &cells, outer, axis, inner)?, print)
}
