//! Rows on lists of names.

use crate::graph_texts::{Input, input_of, told};
use case_rows::{Members, names, text, texts};
use mixed_graph::{Names, Text};
use serde_json::Value;
use std::alloc::Global;
use targets::{EffectSets, TargetFault, find_effect_sets};

/// The names that are listed for x and for y.
#[derive(Drop)]
struct Lists {
    x: Vec<Vec<u8>>,
    y: Vec<Vec<u8>>,
}

fn listed_names(alloc: Global, row: &Value) -> Option<Lists> {
    let x = texts(alloc, row, "x")?;
    let y = texts(alloc, row, "y")?;
    Some(Lists { x, y })
}

/// The sets of an effect.
fn sets_text(alloc: Global, sets: EffectSets) -> Option<String> {
    let (x, y) = (Members(sets.x), Members(sets.y));
    format!(in alloc; "x {x}, y {y}\n").ok()
}

/// The line of a fault.
fn line_text(alloc: Global, fault: &TargetFault, of: Input) -> Option<String> {
    let line = match of {
        Input::First => fault.line(alloc),
        Input::Second => fault.second_line(alloc),
    };
    told(alloc, &line.ok()?)
}

/// The sets of an effect, or the line of what is wrong with its names.
fn effect_text(alloc: Global, all: &Names, observed: &Names, lists: &Lists) -> Option<String> {
    match find_effect_sets(alloc, all, observed, &lists.x, &lists.y) {
        Ok(sets) => sets_text(alloc, sets),
        Err(fault) => line_text(alloc, &fault, Input::First),
    }
}

/// The sets of an effect among vertices of these names.
fn effect_among(alloc: Global, row: &Value, all: &Names) -> Option<String> {
    let observed = names(alloc, row, "observed")?;
    effect_text(alloc, all, &observed, &listed_names(alloc, row)?)
}

/// The sets of an effect.
pub(crate) fn effect_row(alloc: Global, row: &Value) -> Option<String> {
    effect_among(alloc, row, &names(alloc, row, "all")?)
}

/// The text of this name.
fn kept(alloc: Global, row: &Value, name: &str) -> Option<Text> {
    Text::of(alloc, text(row, name).as_bytes()).ok()
}

/// The fault that names a bidirected edge.
fn bidirected(alloc: Global, row: &Value) -> Option<TargetFault> {
    let from = kept(alloc, row, "from")?;
    Some(TargetFault::Bidirected(from, kept(alloc, row, "to")?))
}

/// The fault that a row names.
fn fault(alloc: Global, row: &Value) -> Option<TargetFault> {
    match text(row, "fault") {
        "not one exposure" => Some(TargetFault::NotOneX),
        "no outcome" => Some(TargetFault::EmptyY),
        "bidirected" => bidirected(alloc, row),
        "other names" => Some(TargetFault::OtherNames(kept(alloc, row, "name")?)),
        _ => None,
    }
}

/// The line of a fault of listed names.
pub(crate) fn target_line_row(alloc: Global, row: &Value) -> Option<String> {
    let fault = fault(alloc, row)?;
    line_text(alloc, &fault, input_of(row))
}
