//! The numbers of the observed vertices.

ghost use Rattle.std.specs.Prelude.{◌≡◌, ℕ, ◌<◌, ◌≤◌, ◌&&◌, nat_lt, length, slice_index};
ghost use Rattle.mixed_graph.specs.Vocabulary.{has, graph_of};
ghost use Rattle.latent_projection.specs.Renumbering.{observed_below, renumbered_set, renumbered};

use mixed_graph::{Graph, Rows, VSet};

/// The set s of vertices below n in the numbers of the observed ones: k is a member where the observed vertex k is in s.
pub fn renumber(latent: VSet, n: u32, s: VSet) -> VSet
    requires { n ≤ 64 }
    ensures { (k : ℕ) → has result.bits k ≡ renumbered_set (observed_below (has latent.bits) n) (has s.bits) k }
{
    let mut found = VSet::empty();
    let mut place = 0u8;
    for v in 0..n as u8 {
        if !latent.has(v) {
            found = found.union(VSet::one(place).only_if(s.has(v)));
            place += 1;
        }
    }
    found
}

/// How many vertices below n are observed.
fn count_observed(latent: VSet, n: u32) -> u32
    requires { n ≤ 64 }
    ensures { result ≡ length (observed_below (has latent.bits) n) }
{
    VSet::below(n).difference(latent).count()
}

/// The rows of the observed vertices, in the numbers of these.
fn observed_rows(latent: VSet, n: u32, rows: &Rows) -> Rows
    requires { n ≤ 64 }
    ensures { (a b : ℕ) → has (slice_index result a) b
        ≡ (nat_lt a (length (observed_below (has latent.bits) n))
        && renumbered_set (observed_below (has latent.bits) n)
        (has (slice_index rows.now (slice_index (observed_below (has latent.bits) n) a))) b) }
{
    let mut out = [0u64; 64];
    let mut place = 0usize;
    for v in 0..n as u8 {
        if !latent.has(v) {
            out[place] = renumber(latent, n, VSet::row(rows, v)).bits;
            place += 1;
        }
    }
    out
}

/// The graph without the latent vertices, the others numbered anew in their old order.
pub fn drop_latent(g: &Graph, latent: VSet) -> Graph
    ensures { graph_of result ≡ renumbered (graph_of g.now) (observed_below (has latent.bits) g.now.n) }
{
    Graph {
        n: count_observed(latent, g.n),
        parents: observed_rows(latent, g.n, &g.parents),
        children: observed_rows(latent, g.n, &g.children),
        spouses: observed_rows(latent, g.n, &g.spouses),
    }
}
