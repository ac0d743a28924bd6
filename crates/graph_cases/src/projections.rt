//! Rows on latent projections.

use case_rows::{Members, Rows, graph, names, number, set};
use latent_projection::{Observed, observed, project, renumber};
use mixed_graph::{Graph, Names, VSet};
use serde_json::Value;
use std::alloc::Global;

/// The names with a blank after each.
fn names_text(alloc: Global, names: &Names) -> Option<String> {
    let mut text = String::new(alloc);
    for v in 0..64u8 {
        if (v as u32) < names.count() {
            text.push_str(str::from_utf8(names.get(v)).ok()?).ok()?;
            text.push_str(" ").ok()?;
        }
    }
    Some(text)
}

/// What is observed of a graph with these names.
fn seen(alloc: Global, names: &Names, graph: &Graph, latent: VSet) -> Option<Observed> {
    if names.count() != graph.n {
        return None;
    }
    observed(alloc, names, graph, latent).ok()
}

/// The names and the graph of what is observed.
fn observed_text(alloc: Global, part: &Observed) -> Option<String> {
    let names = names_text(alloc, &part.names)?;
    let rows = Rows(&part.graph);
    format!(in alloc; "{names}{rows}\n").ok()
}

/// The observed part of a graph.
pub(crate) fn observed_row(alloc: Global, row: &Value) -> Option<String> {
    let graph = graph(alloc, row)?;
    let names = names(alloc, row, "names")?;
    observed_text(alloc, &seen(alloc, &names, &graph, set(row, "latent"))?)
}

/// The projection, in which the latent vertices stay without edges.
pub(crate) fn projection_row(alloc: Global, row: &Value) -> Option<String> {
    let projection = project(&graph(alloc, row)?, set(row, "latent"));
    let rows = Rows(&projection);
    format!(in alloc; "{rows}\n").ok()
}

/// The new numbers of a set, among the observed vertices below n.
pub(crate) fn renumbering_row(alloc: Global, row: &Value) -> Option<String> {
    let n = number(row, "n");
    if n > 64 {
        return None;
    }
    let moved = Members(renumber(set(row, "latent"), n as u32, set(row, "of")));
    format!(in alloc; "{moved}\n").ok()
}
