//! Whether a model fits a graph.

ghost use Rattle.std.specs.Prelude.{◌≡◌, ℕ, ◌≤◌, ◌↔◌, IsOk, IfErr, EachIndex, length, slice_index};
ghost use Rattle.mixed_graph.specs.Vocabulary.{graph_of};
ghost use Rattle.finite_models.specs.Models.{Fits};
ghost use Rattle.finite_models.specs.Data.{meaning};
ghost use Rattle.finite_models.specs.Faults.{cap, IsWellFormed, IsFirstModelFault};

use crate::causes::wrong_cause;
use crate::mechanisms::{wrong_input, wrong_value};
use crate::model::{Model, ModelFault};
use mixed_graph::Graph;

/// The number, or the last one of 32 bits where it would pass that.
pub fn cap(j: usize) -> u32
    ensures { result ≡ cap j }
{
    if j < u32::MAX as usize {
        j as u32
    } else {
        u32::MAX
    }
}

/// Whether the model fits the graph; else the first fault: causes, then inputs, then values.
pub fn check_model(g: &Graph, m: &Model) -> Result<(), ModelFault>
    requires sizes { length m.now.sizes.items ≡ g.now.n }
    requires mechanisms { length m.now.mechanisms.items ≡ g.now.n }
    requires positive { EachIndex m.now.sizes.items (λ v. 1 ≤ slice_index m.now.sizes.items v) }
    ensures fits { IsOk result ↔ (IsWellFormed (graph_of g.now) m.now × Fits (graph_of g.now) (meaning (graph_of g.now) m.now)) }
    ensures fault { IfErr result (IsFirstModelFault (graph_of g.now) m.now) }
{
    if let Some(j) = wrong_cause(g, m) {
        return Err(ModelFault::Cause(cap(j)));
    }
    if let Some(v) = wrong_input(g, m) {
        return Err(ModelFault::Input(v));
    }
    match wrong_value(g, m) {
        Some(v) => Err(ModelFault::Value(v)),
        None => Ok(()),
    }
}
