//! How large the table of a mechanism is.

ghost use Rattle.std.specs.Prelude.{◌≡◌, ℕ, ◌*◌, ◌+◌, ◌^◌, ◌<◌, ◌≤◌, ◌↔◌, IsTrue, EachIndex, cond, min, length, slice_index};
ghost use Rattle.mixed_graph.specs.Vocabulary.{has, graph_of};
ghost use Rattle.finite_models.specs.Tables.{radix_range};
ghost use Rattle.finite_models.specs.Data.{children_of, weights_of};
ghost use Rattle.finite_models.specs.Inputs.{places_of};

use crate::model::Model;
use mixed_graph::{Graph, VSet};

/// The range, times the base where it is kept, and at most the cap.
fn widened(range: u128, kept: bool, base: u64, cap: u128) -> u128
    requires below { range ≤ cap }
    requires small { cap ≤ 2 ^ 64 }
    ensures { result ≡ cond kept (min (range * base) cap) range }
{
    if kept {
        (range * u128::from(base)).min(cap)
    } else {
        range
    }
}

/// The number of values of the parents of v together, at most the cap.
pub fn parents_range(g: &Graph, m: &Model, v: u8, cap: u128) -> u128
    requires vertex { v < 64 }
    requires sizes { length m.now.sizes.items ≡ g.now.n }
    requires above { 1 ≤ cap }
    requires small { cap ≤ 2 ^ 64 }
    ensures { result ≡ min (radix_range g.now.n (λ p. (graph_of g.now).arrow p v) (λ p. slice_index m.now.sizes.items p)) cap }
{
    let row = g.parents(v);
    let mut range = 1u128;
    for p in 0..m.sizes.len() {
        range = widened(range, row.has(p as u8), u64::from(m.sizes[p]), cap);
    }
    range
}

/// The start times the number of values of the causes of v together, at most the cap.
fn causes_range(m: &Model, v: u8, start: u128, cap: u128) -> u128
    requires vertex { v < 64 }
    requires below { start ≤ cap }
    requires small { cap ≤ 2 ^ 64 }
    ensures { result ≡ min (start * radix_range (length m.now.causes.items) (λ j. has (children_of m.now.causes.items j) v) (λ j. length (weights_of m.now.causes.items j))) cap }
{
    let mut range = start;
    for j in 0..m.causes.len() {
        let c = &m.causes[j];
        range = widened(range, c.children.has(v), c.weights.len() as u64, cap);
    }
    range
}

/// Whether the table of v has an output for each place.
pub fn has_table_length(g: &Graph, m: &Model, v: u8, outputs: &[u32]) -> bool
    requires vertex { v < 64 }
    requires sizes { length m.now.sizes.items ≡ g.now.n }
    ensures { IsTrue result ↔ (length outputs.now ≡ places_of (graph_of g.now) m.now v) }
{
    let wanted = outputs.len() as u128;
    let start = parents_range(g, m, v, wanted + 1);
    causes_range(m, v, start, wanted + 1) == wanted
}

/// Whether each output is below the size.
pub fn are_below(outputs: &[u32], size: u32) -> bool
    ensures { IsTrue result ↔ EachIndex outputs.now (λ i. slice_index outputs.now i < size) }
{
    outputs.iter().all(|x| *x < size)
}
