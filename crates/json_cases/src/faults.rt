//! Rows on faults.

use answer_json::{pair_fault, text_fault};
use case_rows::{bytes, number, text};
use dag_reader::read_graph;
use fault_json::graph_fault;
use serde_json::Value;
use std::alloc::{AllocError, Global};

/// Bytes as text.
fn told(alloc: Global, bytes: &[u8]) -> Option<String> {
    String::from_str(alloc, str::from_utf8(bytes).ok()?).ok()
}

/// The line of a fault of a name.
fn name_line(alloc: Global, name: &[u8]) -> Result<Vec<u8>, AllocError> {
    text_fault(
        alloc,
        "target",
        1,
        "the name is not in the graph",
        "name",
        name,
    )
}

/// A name that is a text.
pub(crate) fn name_row(alloc: Global, row: &Value) -> Option<String> {
    let line = name_line(alloc, text(row, "text").as_bytes()).ok()?;
    told(alloc, &line)
}

/// A name that is a list of bytes.
pub(crate) fn bytes_row(alloc: Global, row: &Value) -> Option<String> {
    let name = bytes(alloc, row, "bytes")?;
    let line = name_line(alloc, &name).ok()?;
    told(alloc, &line)
}

/// A name that repeats a text.
fn repeated(alloc: Global, text: &[u8], count: u64) -> Result<Vec<u8>, AllocError> {
    let mut name = Vec::new(alloc);
    for _ in 0..count {
        name.extend_from_slice(text)?;
    }
    Ok(name)
}

/// How many bytes the line of a name has that repeats a text, and whether the name stands there as it has to.
pub(crate) fn long_row(alloc: Global, row: &Value) -> Option<String> {
    let name = repeated(alloc, text(row, "text").as_bytes(), number(row, "count")).ok()?;
    let shown = repeated(alloc, text(row, "shown").as_bytes(), number(row, "count")).ok()?;
    let line = name_line(alloc, &name).ok()?;
    let whole = stands_in(&line, &shown);
    let (long, bytes) = (name.len(), line.len());
    format!(in alloc; "{bytes} bytes for a name of {long}: {whole}\n").ok()
}

/// Whether a text ends with these bytes, and then with what ends the object of a fault.
fn stands_in(line: &[u8], shown: &[u8]) -> bool {
    match line.strip_suffix(b"\"}}\n") {
        Some(front) => front.ends_with(shown),
        None => false,
    }
}

/// The line of a fault of two names.
pub(crate) fn pair_row(alloc: Global, row: &Value) -> Option<String> {
    let (first, second) = (text(row, "first"), text(row, "second"));
    let line = pair_fault(
        alloc,
        "target",
        7,
        "the diagram has a bidirected edge between observed vertices",
        first.as_bytes(),
        second.as_bytes(),
    );
    told(alloc, &line.ok()?)
}

/// The line of the fault of a graph's text.
fn graph_line(alloc: Global, text: &[u8]) -> Option<Vec<u8>> {
    match read_graph(alloc, text) {
        Ok(_) => None,
        Err(fault) => graph_fault(alloc, "graph", text, &fault).ok(),
    }
}

/// The fault of a graph's text.
pub(crate) fn graph_row(alloc: Global, row: &Value) -> Option<String> {
    let line = graph_line(alloc, text(row, "text").as_bytes())?;
    told(alloc, &line)
}
