//! Rows on districts, link trees and hedges.

ghost use Rattle.std.specs.Prelude.{◌<◌};

use case_rows::{Entries, Members, graph, hedge, set, vertex};
use hedge::holds;
use hedge::joined_sets::{Links, child_choice, district_of, districts, links};
use mixed_graph::{Graph, VSet};
use serde_json::Value;
use std::alloc::Global;

/// The districts of all vertices.
fn parts_text(alloc: Global, graph: &Graph, all: VSet) -> Option<String> {
    if !graph.covers(all) {
        return None;
    }
    let found = districts(graph, all);
    let mut text = String::new(alloc);
    for part in found.sets.iter().take(found.count as usize) {
        let part = Members(*part);
        text.push_str(format!(in alloc; "{part} ").ok()?.as_str())
            .ok()?;
    }
    Some(text)
}

/// The districts of all vertices, and each vertex's choice of a child toward a set.
pub(crate) fn districts_row(alloc: Global, row: &Value) -> Option<String> {
    let graph = graph(alloc, row)?;
    let all = VSet::below(graph.n);
    let parts = parts_text(alloc, &graph, all)?;
    if !graph.covers(all) {
        return None;
    }
    let choice = child_choice(&graph, all, set(row, "toward"));
    let next = choice.next;
    let choice = Entries(&next, graph.n);
    format!(in alloc; "districts {parts}choice {choice}\n").ok()
}

/// The district of a vertex within a set.
pub(crate) fn district_row(alloc: Global, row: &Value) -> Option<String> {
    let graph = graph(alloc, row)?;
    let (v, within) = (vertex(row, "of"), set(row, "within"));
    if !graph.covers(within) || !within.has(v) {
        return None;
    }
    let found = Members(district_of(&graph, within, v));
    format!(in alloc; "{found}\n").ok()
}

/// The links of a vertex's district that begin with its district alone.
fn links_at(graph: &Graph, v: u8) -> Option<Links>
    requires { v < 64 }
{
    let all = VSet::below(graph.n);
    let alone = VSet::one(v);
    if !graph.covers(all) || !graph.covers(alone) || !all.has(v) {
        return None;
    }
    let big = district_of(graph, all, v);
    let small = district_of(graph, alone, v);
    if small.is_empty() {
        return None;
    }
    Some(links(graph, small, big))
}

/// These links.
pub(crate) fn links_row(alloc: Global, row: &Value) -> Option<String> {
    let tree = links_at(&graph(alloc, row)?, vertex(row, "of"))?;
    let (found, partner) = (tree.found, tree.partner);
    let (found, partner) = (Entries(&found, tree.count), Entries(&partner, tree.count));
    format!(in alloc; "found {found}, partner {partner}\n").ok()
}

/// Whether a hedge is one for the effect of x on y.
pub(crate) fn hedge_row(alloc: Global, row: &Value) -> Option<String> {
    let graph = graph(alloc, row)?;
    let h = hedge(alloc, row)?;
    let (x, y) = (set(row, "x"), set(row, "y"));
    if !graph.covers(y) {
        return None;
    }
    let answer = holds(&graph, x, y, &h);
    format!(in alloc; "{answer:?}\n").ok()
}
