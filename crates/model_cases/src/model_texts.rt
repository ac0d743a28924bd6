//! Models as rows print them.

use case_rows::Members;
use finite_models::{Cause, Mechanism, Model, Part};
use std::alloc::Global;

/// The hedge bits and the carried bits that a part reads, its own, where it does, and its causes.
fn part_text(alloc: Global, part: &Option<Part>) -> Option<String> {
    match part {
        Some(p) => {
            let (hedge_of, carried_of) = (Members(p.hedge_of), Members(p.carried_of));
            let own = if p.own_hedge { " own" } else { "" };
            let causes = &p.causes;
            format!(in alloc; "{hedge_of} {carried_of}{own} {causes:?}").ok()
        }
        None => String::from_str(alloc, "none").ok(),
    }
}

/// A mechanism.
fn mechanism_text(alloc: Global, mechanism: &Mechanism) -> Option<String> {
    match mechanism {
        Mechanism::Table { outputs } => format!(in alloc; "outputs {outputs:?}\n").ok(),
        Mechanism::Parity { hedge, carried } => {
            let hedge = part_text(alloc, hedge)?;
            let carried = part_text(alloc, carried)?;
            format!(in alloc; "hedge {hedge}, carried {carried}\n").ok()
        }
    }
}

/// A cause.
fn cause_text(alloc: Global, cause: &Cause) -> Option<String> {
    let (weights, children) = (&cause.weights, Members(cause.children));
    format!(in alloc; "cause {weights:?} of {children}\n").ok()
}

/// The causes of a model.
fn causes_text(alloc: Global, causes: &[Cause]) -> Option<String> {
    let mut text = String::new(alloc);
    for cause in causes {
        text.push_str(cause_text(alloc, cause)?.as_str()).ok()?;
    }
    Some(text)
}

/// The mechanisms of a model.
fn mechanisms_text(alloc: Global, mechanisms: &[Mechanism]) -> Option<String> {
    let mut text = String::new(alloc);
    for mechanism in mechanisms {
        text.push_str(mechanism_text(alloc, mechanism)?.as_str())
            .ok()?;
    }
    Some(text)
}

/// A model: its sizes, its causes and its mechanisms.
pub(crate) fn model_text(alloc: Global, m: &Model) -> Option<String> {
    let sizes = &m.sizes;
    let causes = causes_text(alloc, &m.causes)?;
    let mechanisms = mechanisms_text(alloc, &m.mechanisms)?;
    format!(in alloc; "sizes {sizes:?}\n{causes}{mechanisms}").ok()
}
