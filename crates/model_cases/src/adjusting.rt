//! Rows on the two criteria.

ghost use Rattle.std.specs.Prelude.{◌<◌};

use crate::formulas::shown;
use adjustment::{AdjFault, adjusts, back_door, formula_for};
use case_rows::{Path, graph, names, set, vertex};
use do_rules::are_three_sets;
use mixed_graph::{Graph, VSet};
use serde_json::Value;
use std::alloc::Global;

/// A criterion's answer.
fn answer_text(alloc: Global, answer: &Result<(), AdjFault>) -> Option<String> {
    match answer {
        Ok(()) => String::from_str(alloc, "yes\n").ok(),
        Err(AdjFault::Forbidden(v)) => format!(in alloc; "excluded {v}\n").ok(),
        Err(AdjFault::Unblocked(path)) => {
            let path = Path(path);
            format!(in alloc; "open path {path}\n").ok()
        }
    }
}

fn admissible(graph: &Graph, x: VSet, y: VSet, z: VSet) -> Option<Result<(), AdjFault>> {
    if are_three_sets(graph, x, y, z) {
        Some(adjusts(graph, x, y, z))
    } else {
        None
    }
}

/// Whether a set is admissible.
pub(crate) fn adjustment_row(alloc: Global, row: &Value) -> Option<String> {
    let graph = graph(alloc, row)?;
    let answer = admissible(&graph, set(row, "x"), set(row, "y"), set(row, "z"))?;
    answer_text(alloc, &answer)
}

fn closes_back_doors(graph: &Graph, x: u8, y: VSet, z: VSet) -> Option<Result<(), AdjFault>>
    requires { x < 64 }
{
    if are_three_sets(graph, VSet::one(x), y, z) {
        Some(back_door(graph, x, y, z))
    } else {
        None
    }
}

/// Whether a set meets the back-door criterion for one exposure.
pub(crate) fn back_door_row(alloc: Global, row: &Value) -> Option<String> {
    let graph = graph(alloc, row)?;
    let answer = closes_back_doors(&graph, vertex(row, "x"), set(row, "y"), set(row, "z"))?;
    answer_text(alloc, &answer)
}

/// The formula that sums over a set.
pub(crate) fn formula_row(alloc: Global, row: &Value) -> Option<String> {
    let names = names(alloc, row, "names")?;
    let formula = formula_for(alloc, set(row, "x"), set(row, "y"), set(row, "z")).ok()?;
    shown(alloc, &formula, &names)
}
