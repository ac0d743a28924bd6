//! What a case asks for. No answer means that it asks for what can't be asked, or that memory was refused.

use crate::sources::{read, source_of};
use crate::{differences, lanes, quantities, readings, sums, tables, values};
use case_rows::{Printed, names, text};
use count_table::Counts;
use mixed_graph::Names;
use serde_json::Value;
use std::alloc::Global;
use std::fmt::Write;

/// Answers a case over a table of counts.
fn over_counts(
    alloc: Global,
    names: &Names,
    counts: &Counts,
    source: &Value,
    case: &Value,
    print: &mut Printed,
) -> Option<()> {
    match text(case, "call") {
        "mask_of" => tables::print_mask(names, counts, case, print),
        "marginal" => tables::print_marginal(alloc, names, counts, case, print),
        "cells" => sums::print_cells(alloc, names, counts, source, print),
        "sum" => sums::print_sums(alloc, names, counts, source, case, print),
        "Places" => sums::print_place(alloc, names, counts, case, print),
        "largest_difference" => differences::print_largest(alloc, names, counts, case, print),
        "value" => values::print_values(alloc, names, counts, case, print),
        _ => None,
    }
}

/// Answers a case over the table that a text has to be.
fn over_table(
    alloc: Global,
    names: &Names,
    source: &Value,
    case: &Value,
    print: &mut Printed,
) -> Option<()> {
    match read(alloc, names, source)? {
        Ok(counts) => over_counts(alloc, names, &counts, source, case, print),
        Err(_) => None,
    }
}

/// Answers a case over a text of counts.
fn over_source(alloc: Global, source: &Value, case: &Value, print: &mut Printed) -> Option<()> {
    let names = names(alloc, source, "names")?;
    match text(case, "call") {
        "read_rows" => readings::print_rows(alloc, &names, source, print),
        "square" => readings::print_square(alloc, &names, case, print),
        "read_counts" => tables::print_table(alloc, &names, source, print),
        _ => over_table(alloc, &names, source, case, print),
    }
}

/// Answers a case.
fn answer(alloc: Global, root: &Value, case: &Value, print: &mut Printed) -> Option<()> {
    match text(case, "call") {
        "masked_sum" => lanes::print_masked_sum(alloc, case, print),
        "axis_sum" => lanes::print_axis_sum(alloc, case, print),
        "Exact" => quantities::print_exact(alloc, case, print),
        "Bounds" => quantities::print_bounds(alloc, case, print),
        _ => over_source(alloc, source_of(root, case), case, print),
    }
}

/// Prints the name of a case, and its answer.
pub(crate) fn show(alloc: Global, root: &Value, case: &Value, print: &mut Printed) -> Option<()> {
    let name = text(case, "case");
    write!(print, "{name}: ").ok()?;
    answer(alloc, root, case, print)?;
    print.add(b"\n").ok()
}
