//! What a mechanism of a sound model is.

ghost use Rattle.std.specs.Prelude.{◌≡◌, ℕ, ◌<◌, ◌≤◌, ◌↔◌, IsTrue, IfSome, IfNone, length, slice_index};
ghost use Rattle.mixed_graph.specs.Vocabulary.{graph_of};
ghost use Rattle.finite_models.specs.Inputs.{HasInputs, HasInputsAt, HasValues, HasValuesAt, parity_size};
ghost use Rattle.finite_models.specs.Sound.{IsFirstWrong, AllRight};

use crate::inputs::{carried_may_read, hedge_may_read};
use crate::model::{Mechanism, Model, Part};
use crate::tables::{are_below, has_table_length};
use mixed_graph::Graph;

/// The number of values of these bits.
fn values_of_parts(hedge: &Option<Part>, carried: &Option<Part>) -> u32
    ensures { result ≡ parity_size hedge.now carried.now }
{
    match hedge {
        None => match carried {
            None => 1,
            Some(_) => 2,
        },
        Some(_) => match carried {
            None => 2,
            Some(_) => 4,
        },
    }
}

/// Whether the mechanism of v reads what it may, and its table has an output for each place.
fn has_inputs(g: &Graph, m: &Model, v: u8, k: &Mechanism) -> bool
    requires vertex { v < 64 }
    requires few { length m.now.mechanisms.items ≤ 64 }
    requires sizes { length m.now.sizes.items ≡ g.now.n }
    ensures { IsTrue result ↔ HasInputs (graph_of g.now) m.now v k.now }
{
    match k {
        Mechanism::Table { outputs } => has_table_length(g, m, v, outputs),
        Mechanism::Parity { hedge, carried } => {
            hedge_may_read(g, m, v, hedge) && carried_may_read(g, m, v, hedge, carried)
        }
    }
}

/// Whether the mechanism gives values below the size.
fn has_values(size: u32, k: &Mechanism) -> bool
    ensures { IsTrue result ↔ HasValues size k.now }
{
    match k {
        Mechanism::Table { outputs } => are_below(outputs, size),
        Mechanism::Parity { hedge, carried } => size == values_of_parts(hedge, carried),
    }
}

/// The lowest vertex that reads what it may not, if there is one.
pub fn wrong_input(g: &Graph, m: &Model) -> Option<u8>
    requires sizes { length m.now.sizes.items ≡ g.now.n }
    requires mechanisms { length m.now.mechanisms.items ≡ g.now.n }
    ensures wrong { IfSome result (IsFirstWrong g.now.n (HasInputsAt (graph_of g.now) m.now)) }
    ensures right { IfNone result (AllRight g.now.n (HasInputsAt (graph_of g.now) m.now)) }
{
    for v in 0..g.n as u8 {
        if !has_inputs(g, m, v, &m.mechanisms[v as usize]) {
            return Some(v);
        }
    }
    None
}

/// The lowest vertex with a value that isn't below its size, if there is one.
pub fn wrong_value(g: &Graph, m: &Model) -> Option<u8>
    requires sizes { length m.now.sizes.items ≡ g.now.n }
    requires mechanisms { length m.now.mechanisms.items ≡ g.now.n }
    ensures wrong { IfSome result (IsFirstWrong g.now.n (HasValuesAt m.now)) }
    ensures right { IfNone result (AllRight g.now.n (HasValuesAt m.now)) }
{
    for v in 0..g.n as u8 {
        if !has_values(m.sizes[v as usize], &m.mechanisms[v as usize]) {
            return Some(v);
        }
    }
    None
}
