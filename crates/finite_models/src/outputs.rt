//! The place of a mechanism's output in its table.

ghost use Rattle.std.specs.Prelude.{◌≡◌, ℕ, ◌+◌, ◌*◌, ◌^◌, ◌<◌, ◌≤◌, cond, length, slice_index};
ghost use Rattle.mixed_graph.specs.Vocabulary.{has, graph_of};
ghost use Rattle.finite_models.specs.Models.{IsAssignment};
ghost use Rattle.finite_models.specs.Tables.{radix, radix_range, table_value};
ghost use Rattle.finite_models.specs.Data.{children_of, place_in_table};
ghost use Rattle.finite_models.specs.Inputs.{places_of};
ghost use Rattle.finite_models.specs.Worlds.{values_of, value_in_world, HaveWeight};

use crate::model::Model;
use mixed_graph::{Graph, VSet};

/// The place with one more digit, where it is kept.
pub fn with_digit(place: usize, kept: bool, base: usize, digit: usize) -> usize
    requires { cond kept (place * base + digit) place < 2 ^ 64 }
    ensures { result ≡ cond kept (place * base + digit) place }
{
    if kept { place * base + digit } else { place }
}

/// The number that the values of the parents of v write.
pub fn parents_place(g: &Graph, m: &Model, v: u8, values: &[u32; 64]) -> usize
    requires vertex { v < 64 }
    requires sizes { length m.now.sizes.items ≡ g.now.n }
    requires in_range { IsAssignment g.now.n (λ p. slice_index m.now.sizes.items p) (λ p. slice_index values.now p) }
    requires fits { radix_range g.now.n (λ p. (graph_of g.now).arrow p v) (λ p. slice_index m.now.sizes.items p) < 2 ^ 64 }
    ensures { result ≡ radix g.now.n (λ p. (graph_of g.now).arrow p v) (λ p. slice_index m.now.sizes.items p) (λ p. slice_index values.now p) }
{
    let row = g.parents(v);
    let mut place = 0usize;
    for p in 0..m.sizes.len() {
        place = with_digit(
            place,
            row.has(p as u8),
            m.sizes[p] as usize,
            values[p] as usize,
        );
    }
    place
}

/// The number that a world's values of the causes of v write after this start.
fn causes_place(m: &Model, v: u8, world: usize, start: usize) -> usize
    requires vertex { v < 64 }
    requires weight { HaveWeight m.now.causes.items }
    requires fits { (start + 1) * radix_range (length m.now.causes.items) (λ j. has (children_of m.now.causes.items j) v) (values_of m.now.causes.items) < 2 ^ 64 }
    ensures { result ≡ start * radix_range (length m.now.causes.items) (λ j. has (children_of m.now.causes.items j) v) (values_of m.now.causes.items) + radix (length m.now.causes.items) (λ j. has (children_of m.now.causes.items j) v) (values_of m.now.causes.items) (value_in_world m.now.causes.items world) }
{
    let mut rest = world;
    let mut place = start;
    for j in 0..m.causes.len() {
        let c = &m.causes[j];
        let base = c.weights.len();
        place = with_digit(place, c.children.has(v), base, rest % base);
        rest /= base;
    }
    place
}

/// The output of the table of v in a world, where the vertices have these values.
pub fn output(g: &Graph, m: &Model, v: u8, world: usize, values: &[u32; 64], outputs: &[u32]) -> u32
    requires vertex { v < 64 }
    requires sizes { length m.now.sizes.items ≡ g.now.n }
    requires weight { HaveWeight m.now.causes.items }
    requires in_range { IsAssignment g.now.n (λ p. slice_index m.now.sizes.items p) (λ p. slice_index values.now p) }
    requires table { length outputs.now ≡ places_of (graph_of g.now) m.now v }
    ensures { result ≡ table_value outputs.now (place_in_table (graph_of g.now) m.now v (λ p. slice_index values.now p) (value_in_world m.now.causes.items world)) }
{
    let start = parents_place(g, m, v, values);
    outputs[causes_place(m, v, world, start)]
}
