//! Rows on effects over experiments.

use crate::formulas::shown;
use case_rows::{Members, graph, names, set};
use counter_models::CounterPair;
use do_rules::are_three_sets;
use hedge::Hedge;
use mixed_graph::{Graph, VSet};
use serde_json::Value;
use std::alloc::Global;
use surrogates::{CommonHedge, Surrogate, are_experiments, identify_with};

/// What is found for the effect of x on y over experiments on two sets.
fn asked(
    alloc: Global,
    graph: &Graph,
    x: VSet,
    y: VSet,
    first: VSet,
    second: VSet,
) -> Option<Surrogate> {
    if !are_three_sets(graph, x, y, VSet::empty()) || y.bits == 0 {
        return None;
    }
    if !are_experiments(graph, &[first, second]) {
        return None;
    }
    identify_with(alloc, graph, x, y, &[first, second]).ok()
}

/// The sets of a hedge and the event of its models.
fn hedge_text(alloc: Global, h: &Hedge, pair: &CounterPair) -> Option<String> {
    let (big, roots) = (Members(h.big), Members(h.roots));
    let event = Members(pair.event);
    format!(in alloc; "big {big}, roots {roots}, event {event}\n").ok()
}

/// A district and what is said of its hedge, and the common hedge, where there is one.
fn stop_text(
    alloc: Global,
    district: VSet,
    hedge: &str,
    common: &Option<CommonHedge>,
) -> Option<String> {
    let district = Members(district);
    match common {
        Some(common) => {
            let shared = hedge_text(alloc, &common.hedge, &common.pair)?;
            format!(in alloc; "district {district}, {hedge}common {shared}").ok()
        }
        None => format!(in alloc; "district {district}, {hedge}").ok(),
    }
}

/// The formula of an effect over the row's experiments `first` and `second`, or the district that they don't free.
pub(crate) fn surrogate_row(alloc: Global, row: &Value) -> Option<String> {
    let graph = graph(alloc, row)?;
    let (first, second) = (set(row, "first"), set(row, "second"));
    match asked(alloc, &graph, set(row, "x"), set(row, "y"), first, second)? {
        Surrogate::Formula(formula, _) => shown(alloc, &formula, &names(alloc, row, "names")?),
        Surrogate::Stopped {
            district,
            hedge,
            pair,
            common,
        } => {
            let text = hedge_text(alloc, &hedge, &pair)?;
            stop_text(alloc, district, text.as_str(), &common)
        }
    }
}
