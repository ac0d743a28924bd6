//! The rows of `graphs.json`: graphs, their readers and what is asked of them.
//!
//! The file is a list of rows, each with the members `case` (its name) and `kind`, and what its kind asks for. No answer means
//! that the row asks for what can't be asked, or that memory was refused.

use crate::{
    comparisons, district_sets, graph_texts, graphs, projections, separations, target_sets,
};
use anyhow::Result;
use case_rows::{print_rows, text};
use serde_json::Value;
use std::alloc::Global;
use std::io::Write;

/// What the library answers in this row.
fn answer(alloc: Global, row: &Value) -> Option<String> {
    match text(row, "kind") {
        "graph" => graphs::graph_row(alloc, row),
        "kept text" => graphs::kept_row(alloc, row),
        "names" => graphs::names_row(alloc, row),
        "cut" => graphs::cut_row(alloc, row),
        "first edges" => graphs::first_edges_row(alloc, row),
        "survey" => graphs::survey_row(alloc, row),
        "separation" => separations::separation_row(alloc, row),
        "kept graph" => separations::kept_row(alloc, row),
        "districts" => district_sets::districts_row(alloc, row),
        "district" => district_sets::district_row(alloc, row),
        "links" => district_sets::links_row(alloc, row),
        "hedge" => district_sets::hedge_row(alloc, row),
        "equivalence" => comparisons::equivalence_row(alloc, row),
        "observed" => projections::observed_row(alloc, row),
        "projection" => projections::projection_row(alloc, row),
        "renumbering" => projections::renumbering_row(alloc, row),
        "text" => graph_texts::text_row(alloc, row),
        "bytes" => graph_texts::bytes_row(alloc, row),
        "prefixes" => graph_texts::prefixes_row(alloc, row),
        "graph line" => graph_texts::graph_line_row(alloc, row),
        "effect" => target_sets::effect_row(alloc, row),
        "target line" => target_sets::target_line_row(alloc, row),
        _ => None,
    }
}

/// Prints the name of each row and its answer.
pub(crate) fn print_graphs<W: Write>(alloc: Global, rows: &str, print: &mut W) -> Result<()> {
    print_rows(alloc, rows, answer, print)
}
