//! Rows on graphs and sets.

ghost use Rattle.std.specs.Prelude.{◌<◌};

use adjustment::proper_paths::{back_door_graph, proper_causal};
use case_rows::{Entries, Members, Rows, built, graph, list, number, set, text, vertex};
use do_rules::cuts::{EdgeSet, cut_edges, cut_into, cut_out};
use mixed_graph::{AddFault, BuildFault, Graph, Names, Text, VSet};
use serde_json::Value;
use std::alloc::Global;
use survey_command::random_graph::{bidirected_count, directed_count, survey_graph};

/// The vertices with paths to a set and from it.
fn sets_text(alloc: Global, graph: &Graph, of: VSet) -> Option<String> {
    if !graph.covers(of) {
        return None;
    }
    let ancestors = Members(graph.ancestors(of));
    let descendants = Members(graph.descendants(of));
    format!(in alloc; "ancestors {ancestors}, descendants {descendants}").ok()
}

/// A list of vertices.
fn list_text(alloc: Global, list: &[u8; 64], count: u32) -> Option<String> {
    let entries = Entries(list, count);
    format!(in alloc; "{entries}").ok()
}

/// What is asked of a graph and a set, and its part within another set.
fn asked(alloc: Global, graph: &Graph, of: VSet, within: VSet) -> Option<String> {
    let sets = sets_text(alloc, graph, of)?;
    let order = graph.order();
    let order = list_text(alloc, &order.list, order.count)?;
    let part = graph.induced(within);
    let within = Rows(&part);
    format!(in alloc; "{sets}, order {order}, within {within}\n").ok()
}

/// What is asked of a graph, or why the edges aren't one.
pub(crate) fn graph_row(alloc: Global, row: &Value) -> Option<String> {
    match built(alloc, row)? {
        Ok(graph) => asked(alloc, &graph, set(row, "of"), set(row, "within")),
        Err(BuildFault::SelfLoop(v)) => format!(in alloc; "self-loop {v}\n").ok(),
        Err(BuildFault::Cycle(cycle)) => {
            let entries = list_text(alloc, &cycle.list, cycle.count)?;
            format!(in alloc; "cycle {entries}\n").ok()
        }
    }
}

/// A text that is kept.
pub(crate) fn kept_row(alloc: Global, row: &Value) -> Option<String> {
    let kept = Text::of(alloc, text(row, "text").as_bytes()).ok()?;
    let text = str::from_utf8(kept.bytes()).ok()?;
    format!(in alloc; "{text}\n").ok()
}

/// The index of a name that is added, or why it isn't.
fn add(names: &mut Names, value: &Value) -> Option<Result<u8, AddFault>> {
    Some(names.add(value.as_str()?.as_bytes()))
}

/// The answers to the names that are added.
fn added(alloc: Global, row: &Value, names: &mut Names) -> Option<Vec<Result<u8, AddFault>>> {
    let mut answers = Vec::new(alloc);
    for value in list(row, "add") {
        answers.push(add(names, value)?).ok()?;
    }
    Some(answers)
}

/// The index of each name that is sought.
fn found(alloc: Global, row: &Value, names: &Names) -> Option<Vec<Option<u8>>> {
    let mut answers = Vec::new(alloc);
    for value in list(row, "find") {
        answers.push(names.index(value.as_str()?.as_bytes())).ok()?;
    }
    Some(answers)
}

/// The answers to names that are added and sought, and the number of names.
pub(crate) fn names_row(alloc: Global, row: &Value) -> Option<String> {
    let mut names = Names::empty(alloc);
    let added = added(alloc, row, &mut names)?;
    let found = found(alloc, row, &names)?;
    let count = names.count();
    format!(in alloc; "added {added:?}, found {found:?}, {count} names\n").ok()
}

/// The edges between a vertex and a set, named from that vertex.
fn edges_at(v: u8, ends: VSet) -> mixed_graph::Rows
    requires { v < 64 }
{
    let mut rows = [0u64; 64];
    rows[v as usize] = ends.bits;
    rows
}

/// The edges that the row names: those from a vertex to a set, and those of another with a set.
fn edges(row: &Value) -> EdgeSet {
    EdgeSet {
        out: edges_at(vertex(row, "from"), set(row, "to")),
        both: edges_at(vertex(row, "of"), set(row, "with")),
    }
}

/// A graph with edges cut: those `into` or `out` of a set, or the listed ones.
fn cut(row: &Value, graph: &Graph) -> Option<Graph> {
    let at = set(row, "at");
    if !graph.covers(at) {
        return None;
    }
    match text(row, "cut") {
        "into" => Some(cut_into(graph, at)),
        "out" => Some(cut_out(graph, at)),
        "edges" => Some(cut_edges(graph, &edges(row))),
        _ => None,
    }
}

/// What is left of a graph where edges are cut.
pub(crate) fn cut_row(alloc: Global, row: &Value) -> Option<String> {
    let left = cut(row, &graph(alloc, row)?)?;
    let left = Rows(&left);
    format!(in alloc; "{left}\n").ok()
}

/// The vertices on proper causal paths from x to y, and the graph without their first edges.
pub(crate) fn first_edges_row(alloc: Global, row: &Value) -> Option<String> {
    let graph = graph(alloc, row)?;
    let (x, y) = (set(row, "x"), set(row, "y"));
    if !graph.covers(x) || !graph.covers(y) {
        return None;
    }
    let between = Members(proper_causal(&graph, x, y));
    let left = back_door_graph(&graph, x, y);
    let left = Rows(&left);
    format!(in alloc; "between {between}, left {left}\n").ok()
}

/// The sizes of a survey's graph.
pub(crate) fn survey_row(alloc: Global, row: &Value) -> Option<String> {
    let graph = survey_graph(number(row, "seed"));
    let (n, directed) = (graph.n, directed_count(&graph));
    let bidirected = bidirected_count(&graph);
    format!(in alloc;
        "{n} vertices, {directed} directed edges, {bidirected} bidirected ones\n"
    ).ok()
}
