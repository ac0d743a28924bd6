//! Numbers as the digits of values.

ghost use Rattle.std.specs.Prelude.{◌≡◌, ℕ, ◌/◌, ◌%◌, ◌<◌, ◌≤◌, cond, length, slice_index, IfOk};
ghost use Rattle.mixed_graph.specs.Vocabulary.{has, graph_of};
ghost use Rattle.finite_models.specs.Vocabulary.{values_of};
ghost use Rattle.hidden_models.specs.Digits.{digits};
ghost use Rattle.hidden_models.specs.Reaching.{mask_at};

use finite_models::Model;
use mixed_graph::{Graph, VSet};
use std::alloc::{AllocError, Global};

/// The last digit of a number, where it has one at this place.
fn last_digit(number: usize, kept: bool, base: usize) -> usize
    requires { 0 < base }
    ensures digit { result ≡ cond kept (number % base) 0 }
    ensures below { result < base }
{
    if kept { number % base } else { 0 }
}

/// The number without that digit.
fn without_last(number: usize, kept: bool, base: usize) -> usize
    requires { 0 < base }
    ensures { result ≡ cond kept (number / base) number }
{
    if kept { number / base } else { number }
}

/// The values of the parents of v that a number writes, and 0 for each other vertex.
pub fn parent_values(p: &Graph, m: &Model, v: u8, number: usize) -> [u32; 64]
    requires vertex { v < 64 }
    requires sizes { length m.now.sizes.items ≡ p.now.n }
    requires positive { (k : ℕ) → k < p.now.n → 0 < slice_index m.now.sizes.items k }
    ensures { (k : ℕ) → slice_index result k ≡ digits p.now.n (λ k. (graph_of p.now).arrow k v) (λ k. slice_index m.now.sizes.items k) number k }
{
    let parents = p.parents(v);
    let n = m.sizes.len();
    let mut values = [0u32; 64];
    let mut rest = number;
    for i in 0..n {
        let k = n - 1 - i;
        let kept = parents.has(k as u8);
        let base = m.sizes[k] as usize;
        values[k] = last_digit(rest, kept, base) as u32;
        rest = without_last(rest, kept, base);
    }
    values
}

/// The values of the causes that reach v that a number writes, and 0 for each other cause.
pub fn cause_values(
    alloc: Global,
    m: &Model,
    reached: &[VSet],
    v: u8,
    number: usize,
) -> Result<Vec<usize>, AllocError>
    requires vertex { v < 64 }
    requires sets { length reached.now ≡ length m.now.causes.items }
    requires positive { (j : ℕ) → j < length m.now.causes.items → 0 < values_of m.now.causes.items j }
    ensures long { IfOk result (λ world. length world.items ≡ length m.now.causes.items) }
    ensures values { IfOk result (λ world. (j : ℕ) → slice_index world.items j ≡ digits (length m.now.causes.items) (λ j. has (mask_at reached.now j) v) (values_of m.now.causes.items) number j) }
{
    let n = m.causes.len();
    let mut world = vec![in alloc; 0usize; n]?;
    let mut rest = number;
    for i in 0..n {
        let j = n - 1 - i;
        let kept = reached[j].has(v);
        let base = m.causes[j].weights.len();
        world[j] = last_digit(rest, kept, base);
        rest = without_last(rest, kept, base);
    }
    Ok(world)
}
