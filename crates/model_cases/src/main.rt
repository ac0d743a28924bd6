//! Worked cases of finite models, the rules, formulas, derivations and identification: each prints its name and its answer.
//!
//! The file `cases.json` is a list of rows, each with the members `case` (its name) and `kind`, and what its kind asks for. No answer
//! means that the row asks for what can't be asked, or that memory was refused.
#![tactic(auto)]

mod adjusting;
mod conditioning;
mod derivations;
mod factors;
mod folding;
mod formulas;
mod identifying;
mod listing;
mod model_texts;
mod models;
mod ruling;
mod surrogating;

use anyhow::Result;
use case_rows::{print_rows, text};
use serde_json::Value;
use std::alloc::Global;
use std::fs;

/// What the library answers in this row.
fn answer(alloc: Global, row: &Value) -> Option<String> {
    match text(row, "kind") {
        "model" => models::model_row(alloc, row),
        "weight" => models::weight_row(alloc, row),
        "folded model" => folding::folded_row(alloc, row),
        "rule" => ruling::rule_row(alloc, row),
        "formula" => formulas::formula_row(alloc, row),
        "same formulas" => formulas::same_row(alloc, row),
        "step" => derivations::step_row(alloc, row),
        "derivation" => derivations::derivation_row(alloc, row),
        "factor" => factors::factor_row(alloc, row),
        "effect" => identifying::effect_row(alloc, row),
        "conditional" => conditioning::conditional_row(alloc, row),
        "short" => conditioning::short_row(alloc, row),
        "surrogate" => surrogating::surrogate_row(alloc, row),
        "two models" => identifying::two_models_row(alloc, row),
        "weight in a built model" => identifying::built_weight_row(alloc, row),
        "adjustment" => adjusting::adjustment_row(alloc, row),
        "back door" => adjusting::back_door_row(alloc, row),
        "adjustment formula" => adjusting::formula_row(alloc, row),
        "minimal sets" => listing::minimal_sets_row(alloc, row),
        "many minimal sets" => listing::many_row(alloc, row),
        _ => None,
    }
}

fn main(rt: HostRuntime) -> Result<()> {
    let rows = fs::read_to_string(&rt, "cases.json")?;
    print_rows(rt.alloc(), rows.as_str(), answer, &mut rt.stdout())
}
