//! Rows on effects under a condition.

use crate::formulas::shown;
use case_rows::{Members, graph, names, set};
use conditional_id::{Conditional, identify_given};
use do_rules::are_three_sets;
use hedge::Hedge;
use mixed_graph::{Graph, VSet};
use prob_expr::Target;
use serde_json::Value;
use short_formulas::identify_short;
use std::alloc::Global;

/// What is found for P(y | do(x), given).
fn asked(alloc: Global, graph: &Graph, x: VSet, y: VSet, given: VSet) -> Option<Conditional> {
    if !are_three_sets(graph, x, y, given) || y.bits == 0 {
        return None;
    }
    identify_given(alloc, graph, &Target { x, y, given }).ok()
}

/// A joint effect with the sets of its hedge and the event of its models, and whether it settles the target.
fn joint_text(
    alloc: Global,
    x: VSet,
    y: VSet,
    settled: bool,
    h: &Hedge,
    event: VSet,
) -> Option<String> {
    let (x, y, event) = (Members(x), Members(y), Members(event));
    let (big, small) = (Members(h.big), Members(h.small));
    let roots = Members(h.roots);
    format!(in alloc;
        "x {x}, y {y}, big {big}, small {small}, roots {roots}, event {event}, settled {settled}\n"
    ).ok()
}

/// A short formula for P(y | do(x), given), where there is one.
fn asked_short(alloc: Global, graph: &Graph, x: VSet, y: VSet, given: VSet) -> Option<Conditional> {
    if !are_three_sets(graph, x, y, given) || y.bits == 0 {
        return None;
    }
    identify_short(alloc, graph, &Target { x, y, given }).ok()
}

/// A formula, or a joint effect that isn't identifiable.
fn answer_text(alloc: Global, row: &Value, answer: &Conditional) -> Option<String> {
    match answer {
        Conditional::Formula(formula, _) => shown(alloc, formula, &names(alloc, row, "names")?),
        Conditional::Joint {
            x,
            y,
            settled,
            hedge,
            pair,
        } => joint_text(alloc, *x, *y, *settled, hedge, pair.event),
    }
}

/// The formula of the row's effect under a condition, or the joint effect that isn't identifiable.
pub(crate) fn conditional_row(alloc: Global, row: &Value) -> Option<String> {
    let graph = graph(alloc, row)?;
    let (x, y) = (set(row, "x"), set(row, "y"));
    let answer = asked(alloc, &graph, x, y, set(row, "given"))?;
    answer_text(alloc, row, &answer)
}

/// The short formula of the row's effect, or the joint effect that isn't identifiable.
pub(crate) fn short_row(alloc: Global, row: &Value) -> Option<String> {
    let graph = graph(alloc, row)?;
    let (x, y) = (set(row, "x"), set(row, "y"));
    let answer = asked_short(alloc, &graph, x, y, set(row, "given"))?;
    answer_text(alloc, row, &answer)
}
