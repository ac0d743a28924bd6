//! Rows on steps and derivations.

use crate::formulas::{formula, is_formula, shown};
use case_rows::{Path, graph, names, set};
use do_derivation::{CheckFault, Derivation, Step, StepFault, StepPlace, apply, check, check_with};
use mixed_graph::{Graph, Names, VSet};
use prob_expr::{Expr, Formula, Target, are_term_sets};
use serde_json::Value;
use std::alloc::Global;
use step_json::read_step;

/// The row's step.
fn step(alloc: Global, row: &Value, names: &Names) -> Option<Step> {
    read_step(alloc, names, row.get("step")?).ok()
}

/// What a step makes of a formula's main expression.
fn made(alloc: Global, graph: &Graph, step: &Step, start: Formula) -> Option<Expr> {
    if !is_formula(&start, graph.n) {
        return None;
    }
    apply(alloc, graph, &[], step, start.main).ok()
}

/// What the row's step makes.
pub(crate) fn step_row(alloc: Global, row: &Value) -> Option<String> {
    let graph = graph(alloc, row)?;
    let names = names(alloc, row, "names")?;
    let step = step(alloc, row, &names)?;
    let main = made(alloc, &graph, &step, formula(alloc, row, "from", &names)?)?;
    let defs = Vec::new(alloc);
    shown(alloc, &Formula { defs, main }, &names)
}

/// What is answered for P(y | do(x)), a formula and a step, without lemmas, where a set, if it isn't empty, may be intervened on.
fn checked(
    alloc: Global,
    graph: &Graph,
    x: VSet,
    y: VSet,
    allowed: VSet,
    f: &Formula,
    main: Step,
) -> Option<Result<(), CheckFault>> {
    let given = VSet::empty();
    if !are_term_sets(graph.n, y, x, given) || y.is_empty() {
        return None;
    }
    let target = Target { x, y, given };
    let lemmas = Vec::new(alloc);
    let d = Derivation { lemmas, main };
    if allowed.is_empty() {
        return Some(check(alloc, graph, &target, f, &d));
    }
    Some(check_with(alloc, graph, &target, &[allowed], f, &d))
}

/// Where a step stands and why it is refused.
fn refusal_text(alloc: Global, place: StepPlace, fault: &StepFault) -> Option<String> {
    let (lemma, number) = (place.lemma, place.number);
    match fault {
        StepFault::Unblocked(path) => {
            let path = Path(path);
            format!(in alloc; "lemma {lemma:?}, step {number}: open path {path}\n").ok()
        }
        _ => format!(in alloc; "lemma {lemma:?}, step {number}\n").ok(),
    }
}

/// A checker's answer.
fn answer_text(alloc: Global, answer: &Result<(), CheckFault>) -> Option<String> {
    match answer {
        Ok(()) => String::from_str(alloc, "accepted\n").ok(),
        Err(CheckFault::EndDiffers(k)) => format!(in alloc; "another end than {k}\n").ok(),
        Err(CheckFault::DoLeft) => String::from_str(alloc, "an intervention is left\n").ok(),
        Err(CheckFault::Step { place, fault }) => refusal_text(alloc, *place, fault),
        Err(CheckFault::NoMemory) => None,
    }
}

/// The checker's answer to a formula and a step for the row's effect.
fn judged(alloc: Global, row: &Value, f: &Formula, main: Step) -> Option<String> {
    let graph = graph(alloc, row)?;
    let (x, y) = (set(row, "x"), set(row, "y"));
    let answer = checked(alloc, &graph, x, y, set(row, "allowed"), f, main)?;
    answer_text(alloc, &answer)
}

/// Whether the row's derivation, a step without lemmas, is accepted.
pub(crate) fn derivation_row(alloc: Global, row: &Value) -> Option<String> {
    let names = names(alloc, row, "names")?;
    let formula = formula(alloc, row, "formula", &names)?;
    judged(alloc, row, &formula, step(alloc, row, &names)?)
}
