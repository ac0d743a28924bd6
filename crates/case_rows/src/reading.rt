//! The members of a row: numbers, sets, graphs.

ghost use Rattle.std.specs.Prelude.{◌<◌, ◌↔◌, IsTrue, All};

use mixed_graph::{BuildFault, Graph, Names, VSet};
use serde_json::Value;
use std::alloc::Global;

/// The list of this name.
pub fn list<'a>(row: &'a Value, name: &str) -> &'a [Value] {
    match row.get(name).and_then(Value::as_array) {
        Some(values) => values.as_slice(),
        None => &[],
    }
}

/// The text of this name.
pub fn text<'a>(row: &'a Value, name: &str) -> &'a str {
    row.get(name).and_then(Value::as_str).unwrap_or("")
}

/// The number of this name.
pub fn number(row: &Value, name: &str) -> u64 {
    row.get(name).and_then(Value::as_u64).unwrap_or(0)
}

/// Whether the row says so.
pub fn flag(row: &Value, name: &str) -> bool {
    row.get(name).and_then(Value::as_bool).unwrap_or(false)
}

/// The byte that a value is.
fn byte(value: &Value) -> Option<u8> {
    u8::try_from(value.as_u64()?).ok()
}

/// The vertex of this name.
pub fn vertex(row: &Value, name: &str) -> u8
    ensures { result < 64 }
{
    (number(row, name) & 63) as u8
}

/// The set of this name.
pub fn set(row: &Value, name: &str) -> VSet {
    let mut set = VSet::empty();
    for value in list(row, name) {
        if let Some(v) = byte(value) {
            if v < 64 {
                set = set.union(VSet::one(v));
            }
        }
    }
    set
}

/// The numbers of this name.
pub fn numbers(alloc: Global, row: &Value, name: &str) -> Option<Vec<u32>> {
    let mut numbers = Vec::new(alloc);
    for value in list(row, name) {
        let number = u32::try_from(value.as_u64()?).ok()?;
        numbers.push(number).ok()?;
    }
    Some(numbers)
}

/// The numbers of this name, each of 64 bits.
pub fn wide_numbers(alloc: Global, row: &Value, name: &str) -> Option<Vec<u64>> {
    let mut numbers = Vec::new(alloc);
    for value in list(row, name) {
        numbers.push(value.as_u64()?).ok()?;
    }
    Some(numbers)
}

/// The numbers of this name, none over 255.
pub fn bytes(alloc: Global, row: &Value, name: &str) -> Option<Vec<u8>> {
    let mut bytes = Vec::new(alloc);
    for value in list(row, name) {
        bytes.push(byte(value)?).ok()?;
    }
    Some(bytes)
}

/// The bytes of the text that a value is.
fn text_at(alloc: Global, value: &Value) -> Option<Vec<u8>> {
    Vec::from_slice(alloc, value.as_str()?.as_bytes()).ok()
}

/// The texts of this name.
pub fn texts(alloc: Global, row: &Value, name: &str) -> Option<Vec<Vec<u8>>> {
    let mut texts = Vec::new(alloc);
    for value in list(row, name) {
        texts.push(text_at(alloc, value)?).ok()?;
    }
    Some(texts)
}

/// The names of this name, in this order.
pub fn names(alloc: Global, row: &Value, name: &str) -> Option<Names> {
    let mut names = Names::empty(alloc);
    for value in list(row, name) {
        names.add(value.as_str()?.as_bytes()).ok()?;
    }
    Some(names)
}

/// The pair that a value is.
fn pair(value: &Value) -> Option<(u8, u8)> {
    match value.as_array()?.as_slice() {
        [a, b] => Some((byte(a)?, byte(b)?)),
        _ => None,
    }
}

/// The edges of this name.
pub fn pairs(alloc: Global, row: &Value, name: &str) -> Option<Vec<(u8, u8)>> {
    let mut pairs = Vec::new(alloc);
    for value in list(row, name) {
        pairs.push(pair(value)?).ok()?;
    }
    Some(pairs)
}

/// Whether all ends are below n.
pub fn all_below(n: u32, pairs: &[(u8, u8)]) -> bool
    ensures { IsTrue result ↔ All (λ p. (p.0 < n) × (p.1 < n)) pairs.now }
{
    pairs.iter().all(|p| (p.0 as u32) < n && (p.1 as u32) < n)
}

/// The graph of these edges, or what keeps them from being one; nothing where there are over 64 vertices or an end is none of them.
fn with_edges(
    n: u64,
    directed: &[(u8, u8)],
    both: &[(u8, u8)],
) -> Option<Result<Graph, BuildFault>> {
    if n > 64 {
        return None;
    }
    let n = n as u32;
    if !all_below(n, directed) || !all_below(n, both) {
        return None;
    }
    Some(Graph::build(n, directed, both))
}

/// The row's graph, or what keeps its edges from being one.
pub fn built(alloc: Global, row: &Value) -> Option<Result<Graph, BuildFault>> {
    let directed = pairs(alloc, row, "directed")?;
    let both = pairs(alloc, row, "both")?;
    with_edges(number(row, "n"), &directed, &both)
}

/// The row's graph.
pub fn graph(alloc: Global, row: &Value) -> Option<Graph> {
    built(alloc, row)?.ok()
}

/// What rows of several kinds are asked over. Who runs a row reads it once and lends it.
#[derive(Drop)]
pub struct Inputs {
    graph: Option<Graph>,
    names: Names,
}

impl Inputs {
    /// The row's graph, if its edges are one, and its names.
    pub fn of(alloc: Global, row: &Value) -> Option<Inputs> {
        let graph = graph(alloc, row);
        match names(alloc, row, "names") {
            Some(names) => Some(Inputs { graph, names }),
            None => None,
        }
    }

    /// The graph.
    pub fn graph(&self) -> Option<&Graph> {
        self.graph.as_ref()
    }

    /// The names.
    pub fn names(&self) -> &Names {
        &self.names
    }
}
