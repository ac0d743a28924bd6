//! Largest differences of counts.

use crate::sources::set_of;
use crate::values::print_cell;
use case_rows::{Printed, list, text};
use count_table::Counts;
use implications::Implication;
use implied_differences::{is_readable, largest_difference};
use mixed_graph::Names;
use serde_json::Value;
use std::alloc::Global;
use std::fmt::Write;

/// Prints the largest difference and the first n levels of its cell, or that it can't be asked for.
fn print_difference(
    alloc: Global,
    counts: &Counts,
    i: &Implication,
    n: usize,
    print: &mut Printed,
) -> Option<()> {
    if !is_readable(counts, i) {
        return print.add(b"not readable").ok();
    }
    let difference = largest_difference(alloc, counts, i).ok()?;
    let value = difference.value;
    write!(print, "{value} at").ok()?;
    print_cell(&difference.cell, n, print)
}

/// Prints the largest difference of the vertices `a` and `b`, where those of `given` are given.
pub(crate) fn print_largest(
    alloc: Global,
    names: &Names,
    counts: &Counts,
    case: &Value,
    print: &mut Printed,
) -> Option<()> {
    let a = names.index(text(case, "a").as_bytes())?;
    let b = names.index(text(case, "b").as_bytes())?;
    let given = set_of(names, list(case, "given"))?;
    let n = names.count() as usize;
    print_difference(alloc, counts, &Implication { a, b, given }, n, print)
}
