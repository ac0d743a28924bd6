//! The values of hidden vertices where the observed ones are set.

ghost use Rattle.std.specs.Prelude.{◌≡◌, ℕ, ◌<◌, length, slice_index};
ghost use Rattle.mixed_graph.specs.Vocabulary.{has, IsOrder, graph_of};
ghost use Rattle.finite_models.specs.Vocabulary.{IsAssignment, meaning, IsAcceptedModel};
ghost use Rattle.hidden_models.specs.Values.{IsWorldOf, filled};

use crate::evaluation::output;
use crate::parities::value_of_parts;
use finite_models::{Mechanism, Model};
use mixed_graph::{Graph, Order, VSet};

/// The value that the mechanism of v gives in a world, where the vertices have these values.
pub fn mechanism_value(g: &Graph, m: &Model, v: u8, world: &[usize], values: &[u32; 64]) -> u32
    requires accepted { IsAcceptedModel (graph_of g.now) m.now }
    requires vertex { v < g.now.n }
    requires world { IsWorldOf m.now.causes.items world.now }
    requires in_range { IsAssignment g.now.n (λ p. slice_index m.now.sizes.items p) (λ p. slice_index values.now p) }
    ensures { result ≡ (meaning (graph_of g.now) m.now).mechanism v (λ p. slice_index values.now p) (λ j. slice_index world.now j) }
{
    match &m.mechanisms[v as usize] {
        Mechanism::Table { outputs } => output(g, m, v, world, values, outputs),
        Mechanism::Parity { hedge, carried } => value_of_parts(m, world, values, hedge, carried),
    }
}

/// The values of all vertices where the observed ones have those in `at`: the hidden mechanisms are evaluated in the order.
pub fn fill(
    g: &Graph,
    m: &Model,
    latent: VSet,
    order: &Order,
    at: &[u32; 64],
    world: &[usize],
) -> [u32; 64]
    requires accepted { IsAcceptedModel (graph_of g.now) m.now }
    requires order { IsOrder (graph_of g.now) order.now.list order.now.count }
    requires world { IsWorldOf m.now.causes.items world.now }
    requires in_range { IsAssignment g.now.n (λ p. slice_index m.now.sizes.items p) (λ p. slice_index at.now p) }
    ensures values { (v : ℕ) → v < g.now.n → slice_index result v ≡ filled (meaning (graph_of g.now) m.now) (has latent.bits) (λ p. slice_index at.now p) (λ j. slice_index world.now j) v }
    ensures in_range { IsAssignment g.now.n (λ p. slice_index m.now.sizes.items p) (λ p. slice_index result p) }
{
    let mut values = [0u32; 64];
    for i in 0..order.count as usize {
        let v = order.list[i];
        let value = if latent.has(v) {
            mechanism_value(g, m, v, world, &values)
        } else {
            at[v as usize]
        };
        values[v as usize] = value;
    }
    values
}
