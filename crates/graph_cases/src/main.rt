//! Worked cases of graphs, of what is asked of them, and of texts that are read and written: each prints its name and its answer.
//!
//! Those of `graphs.json` come first, then those of `texts.json`, and at the end what is read of some files.
#![tactic(auto)]

mod answers;
mod certificates;
mod comparisons;
mod devices;
mod district_sets;
mod fields;
mod formulas;
mod graph_rows;
mod graph_texts;
mod graphs;
mod hedges;
mod projections;
mod separations;
mod target_sets;
mod text_lines;
mod words;

use anyhow::Result;
use causal_io::{ErrSink, FileShelf, OutSink, write_all};
use fields::words_of;
use std::fs;

fn main(rt: HostRuntime) -> Result<()> {
    let alloc = rt.alloc();
    let rows = fs::read_to_string(&rt, "graphs.json")?;
    graph_rows::print_graphs(alloc, rows.as_str(), &mut rt.stdout())?;
    let files = ["texts.json", "graph.txt", "no such file"];
    let words = words_of(alloc, &files)?;
    let mut shelf = FileShelf::of(&rt, alloc, &words)?;
    text_lines::print_texts(alloc, &mut shelf, &mut OutSink::of(rt.stdout()))?;
    write_all(&mut ErrSink::of(rt.stderr()), b"to the error stream\n")?;
    Ok(())
}
