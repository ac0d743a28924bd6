//! Sets of the second graph in the numbers of the first.

ghost use Rattle.std.specs.Prelude.{◌≡◌, ◌<◌, ◌≤◌, ◌&&◌, ℕ, length, nat_lt, slice_index, true};
ghost use Rattle.mixed_graph.specs.Vocabulary.{has, index_of, is_named, name_of, graph_of};
ghost use Rattle.equivalent_command.specs.Numbers.{AreAmong, on_names};

use dag_reader::ReadGraph;
use mixed_graph::{Graph, Names, Rows, VSet};

/// Where the name of v stands among the others.
fn place(names: &Names, others: &Names, v: u8) -> u8
    requires below { v < length names.now }
    requires among { is_named others.now (name_of names.now v) ≡ true }
    ensures place { result ≡ index_of others.now (name_of names.now v) }
    ensures few { result < 64 }
{
    match others.index(names.get(v)) {
        Some(place) => place,
        None => unreachable!(),
    }
}

/// Where each name stands among the others.
fn places(names: &Names, others: &Names) -> [u8; 64]
    requires { AreAmong names.now others.now }
    ensures places { (v : ℕ) → v < length names.now → slice_index result v ≡ index_of others.now (name_of names.now v) }
    ensures few { (v : ℕ) → slice_index result v < 64 }
{
    let mut out = [0u8; 64];
    for v in 0..names.count() as u8 {
        out[v as usize] = place(names, others, v);
    }
    out
}

/// The set s on the numbers below n: k is a member where its place is one.
fn members_at(places: &[u8; 64], n: u32, s: VSet) -> VSet
    requires size { n ≤ 64 }
    requires few { (k : ℕ) → slice_index places.now k < 64 }
    ensures { (k : ℕ) → has result.bits k ≡ (nat_lt k n && has s.bits (slice_index places.now k)) }
{
    let mut found = VSet::empty();
    for k in 0..n as u8 {
        found = found.union(VSet::one(k).only_if(s.has(places[k as usize])));
    }
    found
}

/// The rows on the numbers below n: row a is that of the place of a.
fn rows_at(places: &[u8; 64], n: u32, rows: &Rows) -> Rows
    requires size { n ≤ 64 }
    requires few { (k : ℕ) → slice_index places.now k < 64 }
    ensures { (a b : ℕ) → has (slice_index result a) b
        ≡ (nat_lt a n && (nat_lt b n && has (slice_index rows.now (slice_index places.now a)) (slice_index places.now b))) }
{
    let mut out = [0u64; 64];
    for a in 0..n as u8 {
        let row = VSet::row(rows, places[a as usize]);
        out[a as usize] = members_at(places, n, row).bits;
    }
    out
}

/// The graph on the numbers of the names: an edge joins a and b where it joins the vertices of the other graph with their names.
pub fn graph_on(names: &Names, other: &ReadGraph) -> Graph
    requires { AreAmong names.now other.now.names }
    ensures { graph_of result ≡ on_names names.now other.now.names (graph_of other.now.graph) }
{
    let n = names.count();
    let places = places(names, &other.names);
    Graph {
        n,
        parents: rows_at(&places, n, &other.graph.parents),
        children: rows_at(&places, n, &other.graph.children),
        spouses: rows_at(&places, n, &other.graph.spouses),
    }
}
