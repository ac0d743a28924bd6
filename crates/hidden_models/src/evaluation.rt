//! The output of a folded mechanism.

ghost use Rattle.std.specs.Prelude.{◌≡◌, ℕ, ◌+◌, ◌*◌, ◌^◌, ◌<◌, length, slice_index};
ghost use Rattle.mixed_graph.specs.Vocabulary.{has, graph_of};
ghost use Rattle.finite_models.specs.Vocabulary.{IsAssignment, radix, radix_range, table_value, children_of, place_in_table, places_of, values_of};
ghost use Rattle.hidden_models.specs.Values.{IsWorldOf};

use finite_models::{Model, parents_place, with_digit};
use mixed_graph::Graph;

/// The number that a world's values of the causes of v write after this start.
fn causes_place(m: &Model, v: u8, world: &[usize], start: usize) -> usize
    requires vertex { v < 64 }
    requires world { IsWorldOf m.now.causes.items world.now }
    requires fits { (start + 1) * radix_range (length m.now.causes.items) (λ j. has (children_of m.now.causes.items j) v) (values_of m.now.causes.items) < 2 ^ 64 }
    ensures { result ≡ start * radix_range (length m.now.causes.items) (λ j. has (children_of m.now.causes.items j) v) (values_of m.now.causes.items) + radix (length m.now.causes.items) (λ j. has (children_of m.now.causes.items j) v) (values_of m.now.causes.items) (λ j. slice_index world.now j) }
{
    let mut place = start;
    for j in 0..m.causes.len() {
        let c = &m.causes[j];
        place = with_digit(place, c.children.has(v), c.weights.len(), world[j]);
    }
    place
}

/// The output of the table of v in a world, where the vertices have these values.
pub fn output(
    g: &Graph,
    m: &Model,
    v: u8,
    world: &[usize],
    values: &[u32; 64],
    outputs: &[u32],
) -> u32
    requires vertex { v < 64 }
    requires sizes { length m.now.sizes.items ≡ g.now.n }
    requires world { IsWorldOf m.now.causes.items world.now }
    requires in_range { IsAssignment g.now.n (λ p. slice_index m.now.sizes.items p) (λ p. slice_index values.now p) }
    requires table { length outputs.now ≡ places_of (graph_of g.now) m.now v }
    ensures { result ≡ table_value outputs.now (place_in_table (graph_of g.now) m.now v (λ p. slice_index values.now p) (λ j. slice_index world.now j)) }
{
    let start = parents_place(g, m, v, values);
    outputs[causes_place(m, v, world, start)]
}
