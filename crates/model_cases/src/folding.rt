//! Rows on folded models.

use crate::model_texts::model_text;
use crate::models::{is_accepted, model};
use case_rows::{graph, set};
use finite_models::Model;
use hidden_models::{FoldFault, fold_model};
use mixed_graph::{Graph, VSet};
use serde_json::Value;
use std::alloc::Global;

/// The folded model, or the vertex whose table would be too large.
fn folded_text(alloc: Global, g: &Graph, latent: VSet, m: &Model) -> Option<String> {
    if !is_accepted(g, m) {
        return None;
    }
    match fold_model(alloc, g, latent, m) {
        Ok(folded) => model_text(alloc, &folded),
        Err(FoldFault::TooLarge(v)) => format!(in alloc; "too large at {v}\n").ok(),
        Err(FoldFault::NoMemory) => None,
    }
}

/// The model of the observed graph that folds the row's model.
pub(crate) fn folded_row(alloc: Global, row: &Value) -> Option<String> {
    let graph = graph(alloc, row)?;
    let model = model(alloc, row)?;
    folded_text(alloc, &graph, set(row, "latent"), &model)
}
