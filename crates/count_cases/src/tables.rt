//! Tables of counts, their sums and their masks.

use crate::lanes::print_numbers;
use crate::readings::print_fault;
use crate::sources::{has_levels, read, set_of};
use case_rows::{Printed, list, numbers};
use count_table::{Counts, marginal};
use mixed_graph::{Names, VSet};
use serde_json::Value;
use std::alloc::{AllocError, Global};
use std::fmt::Write;

/// Prints the levels of a vertex, each with a bar behind it.
fn print_levels(counts: &Counts, v: u8, print: &mut Printed) -> Result<(), AllocError> {
    for k in 0..counts.levels(v) {
        print.add(counts.level(v, k))?;
        print.add(b"|")?;
    }
    print.add(b";")
}

/// Prints the levels of the first n vertices, the counts, the codes and the used vertices.
fn print_counts(counts: &Counts, n: u32, print: &mut Printed) -> Option<()> {
    for v in 0..n.min(64) as u8 {
        print_levels(counts, v, print).ok()?;
    }
    print.add(b" ").ok()?;
    print_numbers(counts.cells(), print)?;
    print.add(b"; ").ok()?;
    print_numbers(counts.codes(), print)?;
    let used = counts.used().bits;
    write!(print, "; {used}").ok()
}

/// Prints a table of counts, or the fault of its text.
pub(crate) fn print_table(
    alloc: Global,
    names: &Names,
    source: &Value,
    print: &mut Printed,
) -> Option<()> {
    match read(alloc, names, source)? {
        Ok(counts) => print_counts(&counts, names.count(), print),
        Err(fault) => print_fault(&fault, print),
    }
}

/// Prints the mask of the vertices `of`.
pub(crate) fn print_mask(
    names: &Names,
    counts: &Counts,
    case: &Value,
    print: &mut Printed,
) -> Option<()> {
    let mask = counts.mask_of(set_of(names, list(case, "of"))?);
    write!(print, "{mask}").ok()
}

/// The sum of the rows that agree with an assignment on a set, where it has levels.
fn sum_at(counts: &Counts, of: VSet, at: &[u32]) -> Option<u64> {
    if !has_levels(counts, of, at) {
        return None;
    }
    Some(marginal(counts, of, at))
}

/// Prints a sum, or that a level is lacked.
pub(crate) fn print_sum(sum: Option<u64>, print: &mut Printed) -> Option<()> {
    match sum {
        Some(sum) => write!(print, "{sum}").ok(),
        None => print.add(b"no level").ok(),
    }
}

/// Prints the sum of the rows that agree with the levels `at` on the vertices `of`.
pub(crate) fn print_marginal(
    alloc: Global,
    names: &Names,
    counts: &Counts,
    case: &Value,
    print: &mut Printed,
) -> Option<()> {
    let of = set_of(names, list(case, "of"))?;
    let at = numbers(alloc, case, "at")?;
    print_sum(sum_at(counts, of, &at), print)
}
