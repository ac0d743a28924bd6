//! Worked cases of JSON: names with bytes that are escaped, long names, places in texts, and trees of formulas.
//!
//! The file `cases.json` is a list of rows, each with the members `case` (its name) and `kind`, and what its kind asks for. No answer
//! means that the row asks for what can't be asked, or that memory was refused.
#![tactic(auto)]

mod faults;
mod trees;

use anyhow::Result;
use case_rows::{print_rows, text};
use serde_json::Value;
use std::alloc::Global;
use std::fs;

/// What the library answers in this row.
fn answer(alloc: Global, row: &Value) -> Option<String> {
    match text(row, "kind") {
        "name" => faults::name_row(alloc, row),
        "bytes" => faults::bytes_row(alloc, row),
        "long name" => faults::long_row(alloc, row),
        "two names" => faults::pair_row(alloc, row),
        "graph" => faults::graph_row(alloc, row),
        "tree" => trees::tree_row(alloc, row),
        _ => None,
    }
}

fn main(rt: HostRuntime) -> Result<()> {
    let alloc = rt.alloc();
    let rows = fs::read_to_string(&rt, "cases.json")?;
    print_rows(alloc, rows.as_str(), answer, &mut rt.stdout())?;
    Ok(())
}
