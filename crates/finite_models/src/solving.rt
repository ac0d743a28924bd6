//! The solution of a model in a world, under an intervention.

ghost use Rattle.std.specs.Prelude.{◌≡◌, ℕ, ◌<◌, length, slice_index};
ghost use Rattle.mixed_graph.specs.Vocabulary.{has, IsOrder, graph_of};
ghost use Rattle.finite_models.specs.Models.{IsAssignment, intervene, solution};
ghost use Rattle.finite_models.specs.Data.{meaning};
ghost use Rattle.finite_models.specs.Worlds.{value_in_world, IsAcceptedModel};

use crate::model::{Mechanism, Model};
use crate::outputs::output;
use crate::parities::value_of_parts;
use mixed_graph::{Graph, Order, VSet};

/// The value that the mechanism of v gives in a world, where the vertices have these values.
fn mechanism_value(g: &Graph, m: &Model, v: u8, world: usize, values: &[u32; 64]) -> u32
    requires accepted { IsAcceptedModel (graph_of g.now) m.now }
    requires vertex { v < g.now.n }
    requires in_range { IsAssignment g.now.n (λ p. slice_index m.now.sizes.items p) (λ p. slice_index values.now p) }
    ensures { result ≡ (meaning (graph_of g.now) m.now).mechanism v (λ p. slice_index values.now p) (value_in_world m.now.causes.items world) }
{
    match &m.mechanisms[v as usize] {
        Mechanism::Table { outputs } => output(g, m, v, world, values, outputs),
        Mechanism::Parity { hedge, carried } => value_of_parts(m, world, values, hedge, carried),
    }
}

/// The values of the vertices in a world under the intervention that gives those of the set their values in `at`.
pub fn solve(
    g: &Graph,
    m: &Model,
    do_set: VSet,
    at: &[u32],
    order: &Order,
    world: usize,
) -> [u32; 64]
    requires accepted { IsAcceptedModel (graph_of g.now) m.now }
    requires order { IsOrder (graph_of g.now) order.now.list order.now.count }
    requires length { length at.now ≡ g.now.n }
    requires in_range { IsAssignment g.now.n (λ p. slice_index m.now.sizes.items p) (λ p. slice_index at.now p) }
    ensures { (v : ℕ) → v < g.now.n → slice_index result v ≡ solution (intervene (meaning (graph_of g.now) m.now) (has do_set.bits) (λ p. slice_index at.now p)) (value_in_world m.now.causes.items world) v }
{
    let mut values = [0u32; 64];
    for i in 0..order.count as usize {
        let v = order.list[i];
        let value = if do_set.has(v) {
            at[v as usize]
        } else {
            mechanism_value(g, m, v, world, &values)
        };
        values[v as usize] = value;
    }
    values
}
