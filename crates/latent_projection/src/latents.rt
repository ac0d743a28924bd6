//! The latent projection (Verma and Pearl).

ghost use Rattle.std.specs.Prelude.{◌≡◌, ℕ, ◌<◌, ◌&&◌, ◌||◌, ◌==◌, not, slice_index};
ghost use Rattle.mixed_graph.specs.Vocabulary.{has, graph_of};
ghost use Rattle.latent_projection.specs.Projection.{IsProjection};
ghost use Rattle.latent_projection.specs.Removal.{without};

use mixed_graph::{Graph, Rows, VSet};

/// The latent projection: a -> b where a directed path from a to b has only latent inner vertices,
/// a <-> b where a path without colliders and with arrowheads at both ends has only latent inner vertices.
///
/// The latent vertices stay, without edges.
pub fn project(g: &Graph, latent: VSet) -> Graph
    ensures { IsProjection (graph_of g.now) (has latent.bits) (graph_of result) }
{
    let mut graph = Graph {
        n: g.n,
        parents: g.parents,
        children: g.children,
        spouses: g.spouses,
    };
    'vertices: for k in latent.iter() {
        graph = remove(&graph, k);
    }
    graph
}

/// The graph without the edges of k, and with an edge for each pair of edges that led through k.
fn remove(g: &Graph, k: u8) -> Graph
    requires { k < 64 }
    ensures { graph_of result ≡ without (graph_of g.now) k }
{
    Graph {
        n: g.n,
        parents: arrows_past(&g.parents, k),
        children: arrows_past(&g.children, k),
        spouses: spouses_past(g, k),
    }
}

/// The rows without k, where a row that holds k holds the row of k.
fn arrows_past(rows: &Rows, k: u8) -> Rows
    requires { k < 64 }
    ensures { (a b : ℕ) → has (slice_index result a) b
        ≡ (not (a == k) && (not (b == k) && (has (slice_index rows.now a) b
        || (has (slice_index rows.now a) k && has (slice_index rows.now k) b)))) }
{
    let next = VSet::row(rows, k);
    let gone = VSet::one(k);
    let mut out = [0u64; 64];
    for v in 0..64u8 {
        let row = VSet::row(rows, v);
        out[v as usize] = row
            .union(next.only_if(row.has(k)))
            .difference(gone)
            .only_if(v != k)
            .bits;
    }
    out
}

/// The bidirected edges without k: those that there are, and one for each path through k with arrowheads at both ends.
fn spouses_past(g: &Graph, k: u8) -> Rows
    requires { k < 64 }
    ensures { (a b : ℕ) → has (slice_index result a) b ≡ (without (graph_of g.now) k).both a b }
{
    let gone = VSet::one(k);
    let children = g.children(k);
    let headed = children.union(g.spouses(k));
    let mut out = [0u64; 64];
    for v in 0..64u8 {
        let row = g.spouses(v);
        let past = headed
            .only_if(children.has(v))
            .union(children.only_if(row.has(k)));
        out[v as usize] = row
            .union(past)
            .difference(gone.union(VSet::one(v)))
            .only_if(v != k)
            .bits;
    }
    out
}
