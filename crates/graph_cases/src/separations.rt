//! Rows on separations.

use caller_memory::kept::KeptDiagram;
use case_rows::{Members, Path, graph, set, text};
use m_separation::{open_path, reach, separated};
use mixed_graph::{Graph, VSet};
use serde_json::Value;
use std::alloc::Global;

/// What x reaches given a set, whether it is separated from y, and an open path if it isn't.
fn asked(alloc: Global, graph: &Graph, x: VSet, y: VSet, given: VSet) -> Option<String> {
    if !graph.covers(x) || !graph.covers(given) {
        return None;
    }
    let reached = Members(reach(graph, x, given));
    let apart = separated(graph, x, y, given);
    match open_path(graph, x, y, given) {
        Some(path) => {
            let path = Path(&path);
            format!(in alloc; "reached {reached}, separated {apart}, open path {path}\n").ok()
        }
        None => format!(in alloc; "reached {reached}, separated {apart}\n").ok(),
    }
}

/// The answers of a question of separation.
pub(crate) fn separation_row(alloc: Global, row: &Value) -> Option<String> {
    let graph = graph(alloc, row)?;
    let (x, y, given) = (set(row, "x"), set(row, "y"), set(row, "given"));
    asked(alloc, &graph, x, y, given)
}

/// What is answered of a separation in the observed graph of a text, where that is kept.
pub(crate) fn kept_row(alloc: Global, row: &Value) -> Option<String> {
    let (x, y, given) = (set(row, "x"), set(row, "y"), set(row, "given"));
    match KeptDiagram::read(alloc, text(row, "text").as_bytes()) {
        Ok(kept) => {
            let graph = &kept.diagram.observed;
            let answer = graph.separation(x, y, given);
            let vertices = graph.vertices;
            format!(in alloc; "{vertices} vertices, {answer:?}\n").ok()
        }
        Err(fault) => format!(in alloc; "{fault:?}\n").ok(),
    }
}
