//! Rows on models and weights.

ghost use Rattle.std.specs.Prelude.{◌≡◌, ◌<◌, IsTrue, length, slice_index};
ghost use Rattle.mixed_graph.specs.Vocabulary.{graph_of};
ghost use Rattle.finite_models.specs.Vocabulary.{IsAssignment, IsAcceptedModel};

use case_rows::{flag, graph, list, number, numbers, set};
use finite_models::{Cause, Mechanism, Model, ModelFault, Part, WeightFault, check_model, weight};
use mixed_graph::{Graph, VSet};
use serde_json::Value;
use std::alloc::Global;

/// The part that a value is.
fn part(alloc: Global, value: &Value) -> Option<Part> {
    Some(Part {
        hedge_of: set(value, "hedge of"),
        carried_of: set(value, "carried of"),
        own_hedge: flag(value, "own"),
        causes: numbers(alloc, value, "causes")?,
    })
}

/// The part of this name: nothing where there is none.
fn part_of(alloc: Global, row: &Value, name: &str) -> Option<Option<Part>> {
    match row.get(name) {
        Some(value) => Some(Some(part(alloc, value)?)),
        None => Some(None),
    }
}

/// The numbers of this name, or so many equal ones where the value says how many there are.
fn listed_or_equal(alloc: Global, value: &Value, name: &str, equal: u32) -> Option<Vec<u32>> {
    if value.get("many").is_some() {
        return vec![in alloc; equal; number(value, "many") as usize].ok();
    }
    numbers(alloc, value, name)
}

/// The mechanism that a value is: a table of outputs, or two parts.
fn mechanism(alloc: Global, value: &Value) -> Option<Mechanism> {
    if value.get("outputs").is_some() || value.get("many").is_some() {
        let outputs = listed_or_equal(alloc, value, "outputs", 0)?;
        return Some(Mechanism::Table { outputs });
    }
    let hedge = part_of(alloc, value, "hedge")?;
    let carried = part_of(alloc, value, "carried")?;
    Some(Mechanism::Parity { hedge, carried })
}

/// The row's causes.
fn causes(alloc: Global, row: &Value) -> Option<Vec<Cause>> {
    let mut causes = Vec::new(alloc);
    for value in list(row, "causes") {
        let weights = listed_or_equal(alloc, value, "weights", 1)?;
        let children = set(value, "children");
        causes.push(Cause { weights, children }).ok()?;
    }
    Some(causes)
}

/// The row's mechanisms.
fn mechanisms(alloc: Global, row: &Value) -> Option<Vec<Mechanism>> {
    let mut mechanisms = Vec::new(alloc);
    for value in list(row, "mechanisms") {
        mechanisms.push(mechanism(alloc, value)?).ok()?;
    }
    Some(mechanisms)
}

/// The row's model.
pub(crate) fn model(alloc: Global, row: &Value) -> Option<Model> {
    let sizes = numbers(alloc, row, "sizes")?;
    let causes = causes(alloc, row)?;
    let mechanisms = mechanisms(alloc, row)?;
    Some(Model {
        sizes,
        causes,
        mechanisms,
    })
}

/// What is said of the model, where it has a size of at least 1 and a mechanism for each vertex.
fn said(g: &Graph, m: &Model) -> Option<Result<(), ModelFault>> {
    let n = g.n as usize;
    if m.sizes.len() == n && m.mechanisms.len() == n && m.sizes.iter().all(|s| *s >= 1) {
        Some(check_model(g, m))
    } else {
        None
    }
}

/// Whether the model fits the graph, or its first fault.
pub(crate) fn model_row(alloc: Global, row: &Value) -> Option<String> {
    let graph = graph(alloc, row)?;
    let model = model(alloc, row)?;
    let answer = said(&graph, &model)?;
    format!(in alloc; "{answer:?}\n").ok()
}

/// Whether the model is accepted.
pub(crate) fn is_accepted(g: &Graph, m: &Model) -> bool
    ensures { IsTrue result → IsAcceptedModel (graph_of g.now) m.now }
{
    let n = g.n as usize;
    m.sizes.len() == n
        && m.mechanisms.len() == n
        && m.sizes.iter().all(|s| *s >= 1)
        && check_model(g, m).is_ok()
}

/// Whether each value is below its size.
fn are_values(sizes: &[u32], at: &[u32]) -> bool
    requires { length at.now ≡ length sizes.now }
    ensures { IsTrue result → IsAssignment (length at.now) (λ v. slice_index sizes.now v) (λ v. slice_index at.now v) }
{
    for v in 0..at.len() {
        if at[v] >= sizes[v] {
            return false;
        }
    }
    true
}

/// The weight of the event under the intervention at these values, where the model and they are sound.
fn weighed(
    g: &Graph,
    m: &Model,
    doing: VSet,
    event: VSet,
    at: &[u32],
) -> Option<Result<u128, WeightFault>> {
    if is_accepted(g, m) && at.len() == m.sizes.len() && are_values(&m.sizes, at) {
        Some(weight(m, g, doing, event, at))
    } else {
        None
    }
}

/// The weight of the row's event at its values, where its set is intervened on.
pub(crate) fn weight_text(alloc: Global, g: &Graph, m: &Model, row: &Value) -> Option<String> {
    let at = numbers(alloc, row, "at")?;
    let answer = weighed(g, m, set(row, "do"), set(row, "event"), &at)?;
    format!(in alloc; "{answer:?}\n").ok()
}

/// The weight of an event in the row's model.
pub(crate) fn weight_row(alloc: Global, row: &Value) -> Option<String> {
    let graph = graph(alloc, row)?;
    let model = model(alloc, row)?;
    weight_text(alloc, &graph, &model, row)
}
