//! How large the table of a folded mechanism is.

ghost use Rattle.std.specs.Prelude.{◌≡◌, ℕ, ◌*◌, ◌+◌, ◌^◌, ◌<◌, ◌≤◌, cond, min, length, slice_index};
ghost use Rattle.mixed_graph.specs.Vocabulary.{has, graph_of};
ghost use Rattle.finite_models.specs.Vocabulary.{radix_range, weights_of};
ghost use Rattle.hidden_models.specs.Reaching.{mask_at};
ghost use Rattle.hidden_models.specs.Tables.{entries};

use finite_models::Model;
use mixed_graph::{Graph, VSet};

/// The range, times the base where it is kept, and at most 2^20 + 1.
fn widened(range: u64, kept: bool, base: usize) -> u64
    requires { range ≤ 1048577 }
    ensures { result ≡ cond kept (min (range * base) 1048577) range }
{
    if kept {
        (u128::from(range) * base as u128).min(1_048_577) as u64
    } else {
        range
    }
}

/// The number of values of the parents of v together, at most 2^20 + 1.
fn parents_range(p: &Graph, m: &Model, v: u8) -> u64
    requires vertex { v < 64 }
    requires sizes { length m.now.sizes.items ≡ p.now.n }
    ensures { result ≡ min (radix_range p.now.n (λ k. (graph_of p.now).arrow k v) (λ k. slice_index m.now.sizes.items k)) 1048577 }
{
    let parents = p.parents(v);
    let mut range = 1u64;
    for k in 0..m.sizes.len() {
        range = widened(range, parents.has(k as u8), m.sizes[k] as usize);
    }
    range
}

/// The start times the number of values of the causes that reach v together, at most 2^20 + 1.
pub fn causes_range(m: &Model, reached: &[VSet], v: u8, start: u64) -> u64
    requires vertex { v < 64 }
    requires below { start ≤ 1048577 }
    requires sets { length reached.now ≡ length m.now.causes.items }
    ensures { result ≡ min (start * radix_range (length m.now.causes.items) (λ j. has (mask_at reached.now j) v) (λ j. length (weights_of m.now.causes.items j))) 1048577 }
{
    let mut range = start;
    for j in 0..m.causes.len() {
        range = widened(range, reached[j].has(v), m.causes[j].weights.len());
    }
    range
}

/// How many entries the table of v has, at most 2^20 + 1.
pub fn count_entries(p: &Graph, m: &Model, reached: &[VSet], v: u8) -> u64
    requires vertex { v < 64 }
    requires sizes { length m.now.sizes.items ≡ p.now.n }
    requires sets { length reached.now ≡ length m.now.causes.items }
    ensures { result ≡ min (entries (graph_of p.now) m.now reached.now v) 1048577 }
{
    causes_range(m, reached, v, parents_range(p, m, v))
}
