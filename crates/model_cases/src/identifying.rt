//! Rows on identification and on the two models of a hedge.

use crate::formulas::shown;
use crate::model_texts::model_text;
use crate::models::weight_text;
use case_rows::{Entries, Members, graph, hedge, names, set, text};
use counter_models::{CounterPair, build};
use do_rules::are_three_sets;
use hedge::{Hedge, holds};
use identify::{Answer, identify};
use mixed_graph::{Graph, VSet};
use serde_json::Value;
use std::alloc::Global;

/// A hedge's choice of children and its links.
fn entries_text(alloc: Global, n: u32, h: &Hedge) -> Option<String> {
    let (next, found, partner) = (h.choice.next, h.links.found, h.links.partner);
    let count = h.links.count;
    let (choice, found) = (Entries(&next, n), Entries(&found, count));
    let partner = Entries(&partner, count);
    format!(in alloc; "choice {choice}, found {found}, partner {partner}").ok()
}

/// A hedge and the event of its models.
fn hedge_text(alloc: Global, n: u32, h: &Hedge, event: VSet) -> Option<String> {
    let entries = entries_text(alloc, n, h)?;
    let (big, small) = (Members(h.big), Members(h.small));
    let (roots, event) = (Members(h.roots), Members(event));
    format!(in alloc; "big {big}, small {small}, roots {roots}, {entries}, event {event}\n").ok()
}

/// What is answered for the effect of x on y.
fn asked(alloc: Global, graph: &Graph, x: VSet, y: VSet) -> Option<Answer> {
    if !are_three_sets(graph, x, y, VSet::empty()) || y.bits == 0 {
        return None;
    }
    identify(alloc, graph, x, y).ok()
}

/// The formula of an effect, or its hedge and the event of its models.
pub(crate) fn effect_row(alloc: Global, row: &Value) -> Option<String> {
    let graph = graph(alloc, row)?;
    match asked(alloc, &graph, set(row, "x"), set(row, "y"))? {
        Answer::Formula(formula, _) => shown(alloc, &formula, &names(alloc, row, "names")?),
        Answer::Hedge(h, pair) => hedge_text(alloc, graph.n, &h, pair.event),
    }
}

/// The two models of a hedge for the effect of x on y.
fn built(alloc: Global, graph: &Graph, x: VSet, y: VSet, h: &Hedge) -> Option<CounterPair> {
    if !are_three_sets(graph, x, y, VSet::empty()) {
        return None;
    }
    match holds(graph, x, y, h) {
        Ok(()) => build(alloc, graph, x, y, h).ok(),
        Err(_) => None,
    }
}

/// The event, the choice toward it and the noise of two models.
fn head_text(alloc: Global, n: u32, pair: &CounterPair) -> Option<String> {
    let (event, noise) = (Members(pair.event), pair.noise);
    let next = pair.carry.next;
    let carry = Entries(&next, n);
    format!(in alloc; "event {event}, carry {carry}, noise {noise}\n").ok()
}

/// Two models.
fn pair_text(alloc: Global, n: u32, pair: &CounterPair) -> Option<String> {
    let head = head_text(alloc, n, pair)?;
    let first = model_text(alloc, &pair.first)?;
    let second = model_text(alloc, &pair.second)?;
    format!(in alloc; "{head}first {first}second {second}").ok()
}

/// The two models of the row's hedge.
pub(crate) fn two_models_row(alloc: Global, row: &Value) -> Option<String> {
    let graph = graph(alloc, row)?;
    let h = hedge(alloc, row)?;
    let pair = built(alloc, &graph, set(row, "x"), set(row, "y"), &h)?;
    pair_text(alloc, graph.n, &pair)
}

/// The weight of an event in the first or the second of the two models of the row's hedge.
pub(crate) fn built_weight_row(alloc: Global, row: &Value) -> Option<String> {
    let graph = graph(alloc, row)?;
    let h = hedge(alloc, row)?;
    let pair = built(alloc, &graph, set(row, "x"), set(row, "y"), &h)?;
    if text(row, "of") == "first" {
        return weight_text(alloc, &graph, &pair.first, row);
    }
    weight_text(alloc, &graph, &pair.second, row)
}
