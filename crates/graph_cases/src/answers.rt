//! Answers that are formulas.

use crate::fields::{names_in, text_in, vertex};
use answer_text::Notation;
use anyhow::{Result, bail};
use expr_text::read_formula;
use identify_text::answer_in;
use mixed_graph::Names;
use prob_expr::{Formula, Target, check};
use serde_json::Value;
use std::alloc::Global;

/// The answer that the effect of X on Y, given G, has this formula, as text or as LaTeX.
fn text_of(alloc: Global, call: &str, f: &Formula, names: &Names) -> Result<Vec<u8>> {
    let target = Target {
        x: vertex(names, "X"),
        y: vertex(names, "Y"),
        given: vertex(names, "G"),
    };
    match check(f, names.count()) {
        Ok(()) => match call {
            "formula_answer" => Ok(answer_in(alloc, Notation::Plain, f, &target, names)?),
            "latex_answer" => Ok(answer_in(alloc, Notation::Latex, f, &target, names)?),
            other => bail!("no call {other}"),
        },
        Err(_) => bail!("the formula has a fault"),
    }
}

/// Adds the answer that the effect of X on Y, given G, has the formula that the case's `text` is.
pub(crate) fn add_answer(alloc: Global, line: &mut Vec<u8>, case: &Value) -> Result<()> {
    let names = names_in(alloc, case)?;
    let text = text_in(case, "text")?;
    let call = text_in(case, "call")?;
    let Ok(f) = read_formula(alloc, text.as_bytes(), &names) else {
        bail!("the formula isn't read");
    };
    let text = text_of(alloc, call, &f, &names)?;
    line.extend_from_slice(&text)?;
    Ok(())
}
