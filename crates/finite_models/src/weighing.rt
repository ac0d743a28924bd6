//! The weight of an event.

ghost use Rattle.std.specs.Prelude.{◌≡◌, ℕ, ◌^◌, ◌<◌, ◌≤◌, ◌↔◌, IfOk, length, slice_index};
ghost use Rattle.mixed_graph.specs.Vocabulary.{has, graph_of};
ghost use Rattle.finite_models.specs.Sums.{product_below};
ghost use Rattle.finite_models.specs.Models.{IsAssignment, agree, weight_of, world_count, total};
ghost use Rattle.finite_models.specs.Data.{meaning};
ghost use Rattle.finite_models.specs.Worlds.{values_of, weight_sum, IsAcceptedModel};

use crate::model::{Model, WeightFault};
use crate::solving::solve;
use crate::worlds::{count_worlds, total_weight, world_weight};
use mixed_graph::{Graph, VSet};

/// Whether the values of the members of the event are those in `at`.
fn agrees(values: &[u32; 64], event: VSet, at: &[u32]) -> bool
    requires { length at.now ≤ 64 }
    ensures { result ≡ agree (length at.now) (has event.bits) (λ v. slice_index values.now v) (λ v. slice_index at.now v) }
{
    for v in 0..at.len() {
        if event.has(v as u8) && values[v] != at[v] {
            return false;
        }
    }
    true
}

/// The sum of the weights of the worlds below this number whose solution agrees with `at` on the event.
fn agreeing_weight(
    m: &Model,
    g: &Graph,
    do_set: VSet,
    event: VSet,
    at: &[u32],
    worlds: usize,
) -> u128
    requires accepted { IsAcceptedModel (graph_of g.now) m.now }
    requires length { length at.now ≡ g.now.n }
    requires in_range { IsAssignment g.now.n (λ v. slice_index m.now.sizes.items v) (λ v. slice_index at.now v) }
    requires worlds { worlds ≡ product_below (length m.now.causes.items) (values_of m.now.causes.items) }
    requires fits { product_below (length m.now.causes.items) (weight_sum m.now.causes.items) < 2 ^ 128 }
    ensures { result ≡ weight_of (meaning (graph_of g.now) m.now) (has do_set.bits) (has event.bits) (λ v. slice_index at.now v) }
{
    let order = g.order();
    let mut sum = 0u128;
    for world in 0..worlds {
        let values = solve(g, m, do_set, at, &order, world);
        if agrees(&values, event, at) {
            sum += world_weight(m, world);
        }
    }
    sum
}

/// The weight of an event under an intervention, both at the values in `at`: the sum of the weights of the worlds in which the vertices of the event have these values, where those of `do_set` are given theirs.
///
/// The model is one that `check_model` accepts, and each value is one of its vertex.
///
/// `TooMany` where there are more than 2^20 worlds; else `TooWide` where the weights of all worlds sum to 2^128 or more.
pub fn weight(
    m: &Model,
    g: &Graph,
    do_set: VSet,
    event: VSet,
    at: &[u32],
) -> Result<u128, WeightFault>
    requires accepted { IsAcceptedModel (graph_of g.now) m.now }
    requires length { length at.now ≡ g.now.n }
    requires in_range { IsAssignment g.now.n (λ v. slice_index m.now.sizes.items v) (λ v. slice_index at.now v) }
    ensures sum { IfOk result (λ w. w ≡ weight_of (meaning (graph_of g.now) m.now) (has do_set.bits) (has event.bits) (λ v. slice_index at.now v)) }
    ensures too_many { (result ≡ Err WeightFault.TooMany) ↔ (2 ^ 20 < world_count (meaning (graph_of g.now) m.now)) }
    ensures too_wide { (result ≡ Err WeightFault.TooWide) ↔ ((world_count (meaning (graph_of g.now) m.now) ≤ 2 ^ 20) × (2 ^ 128 ≤ total (meaning (graph_of g.now) m.now))) }
{
    let worlds = count_worlds(m);
    if worlds > 1 << 20 {
        return Err(WeightFault::TooMany);
    }
    match total_weight(m) {
        None => Err(WeightFault::TooWide),
        Some(_) => Ok(agreeing_weight(m, g, do_set, event, at, worlds as usize)),
    }
}
