//! Counts of edges.

ghost use Rattle.std.specs.Prelude.{◌≡◌, ℕ, ◌<◌, ◌≤◌, ◌*◌, ◌&&◌, nat_lt, slice_index};
ghost use Rattle.mixed_graph.specs.Vocabulary.{has, graph_of};
ghost use Rattle.survey_command.specs.Counts.{pairs_from, arrow_count, spouse_count};

use mixed_graph::{Graph, Rows, VSet};

/// How many bits the first n rows have.
fn count_rows(n: u32, rows: &Rows) -> u32
    requires { n ≤ 64 }
    ensures { result ≡ pairs_from 64 (λ a b. has (slice_index rows.now a) b) n }
{
    let mut total = 0u32;
    for v in 0..n as u8 {
        total += VSet::row(rows, v).count();
    }
    total
}

/// The number of directed edges.
pub fn directed_count(g: &Graph) -> u32
    ensures { result ≡ arrow_count (graph_of g.now) }
{
    count_rows(g.n, &g.children)
}

/// The number of bidirected edges.
pub fn bidirected_count(g: &Graph) -> u32
    ensures { result ≡ spouse_count (graph_of g.now) }
{
    let mut total = 0u32;
    for v in 0..g.n as u8 {
        let later = g.spouses(v).difference(VSet::below(v as u32 + 1));
        total += later.count();
    }
    total
}
