//! Answers that are hedges.

ghost use Rattle.std.specs.Prelude.{IsTrue};
ghost use Rattle.mixed_graph.specs.Vocabulary.{has, Apart};

use crate::fields::text_in;
use anyhow::{Result, bail};
use certificate::{Certificate, read_answer};
use counter_models::build;
use dag_reader::{ReadGraph, read_graph};
use hedge::{Hedge, holds};
use identify_text::{hedge_answer, hedge_heading};
use mixed_graph::VSet;
use prob_expr::Target;
use serde_json::Value;
use std::alloc::{AllocError, Global};

/// Whether no vertex is in both sets.
fn are_apart(s: VSet, t: VSet) -> bool
    ensures { IsTrue result → Apart (has s.bits) (has t.bits) }
{
    s.intersection(t).is_empty()
}

/// The answer that the effect of x on y has the hedge, with its two models, where it is a hedge of the graph.
fn text_of(
    alloc: Global,
    read: &ReadGraph,
    x: VSet,
    y: VSet,
    h: &Hedge,
) -> Result<Option<Vec<u8>>, AllocError> {
    let g = &read.graph;
    if !g.covers(x) || !g.covers(y) {
        return Ok(None);
    }
    if !are_apart(x, y) {
        return Ok(None);
    }
    match holds(g, x, y, h) {
        Ok(()) => {
            let pair = build(alloc, g, x, y, h)?;
            Ok(Some(hedge_answer(alloc, x, y, h, &pair, &read.names)?))
        }
        Err(_) => Ok(None),
    }
}

/// The heading of that answer.
fn heading_of(
    alloc: Global,
    read: &ReadGraph,
    x: VSet,
    y: VSet,
    h: &Hedge,
) -> Result<Option<Vec<u8>>, AllocError> {
    let g = &read.graph;
    if !g.covers(x)
        || !g.covers(y)
        || !g.covers(h.big)
        || !g.covers(h.small)
        || !g.covers(h.roots)
    {
        return Ok(None);
    }
    Ok(Some(hedge_heading(alloc, x, y, h, &read.names)?))
}

/// The hedge of a certificate, with its target.
fn hedge_of(alloc: Global, read: &ReadGraph, text: &str) -> Result<(Target, Hedge)> {
    match read_answer(alloc, text.as_bytes(), &read.names) {
        Ok(Certificate::Hedge(target, hedge)) => Ok((target, hedge)),
        _ => bail!("no certificate of a hedge"),
    }
}

/// Adds the answer that the hedge of the case's `certificate` keeps an effect of its `graph` from being identified.
pub(crate) fn add_answer(alloc: Global, line: &mut Vec<u8>, case: &Value) -> Result<()> {
    let Ok(read) = read_graph(alloc, text_in(case, "graph")?.as_bytes()) else {
        bail!("the graph isn't read");
    };
    let (target, hedge) = hedge_of(alloc, &read, text_in(case, "certificate")?)?;
    let text = match text_in(case, "call")? {
        "hedge_answer" => text_of(alloc, &read, target.x, target.y, &hedge)?,
        "hedge_heading" => heading_of(alloc, &read, target.x, target.y, &hedge)?,
        other => bail!("no call {other}"),
    };
    let Some(text) = text else {
        bail!("the hedge doesn't hold");
    };
    line.extend_from_slice(&text)?;
    Ok(())
}
