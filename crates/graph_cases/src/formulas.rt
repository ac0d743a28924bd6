//! Texts of formulas, and formulas as texts.

use crate::fields::{add_text, names_in, text_in, vertex};
use anyhow::{Result, bail};
use expr_text::{
    TextFault, formula_text, latex_text, read_expr, read_formula, target_latex, target_text,
    write_expr,
};
use mixed_graph::Names;
use prob_expr::{Formula, Target, check};
use serde_json::Value;
use std::alloc::Global;

/// Adds where reading stopped.
fn add_fault(alloc: Global, line: &mut Vec<u8>, fault: TextFault) -> Result<()> {
    add_text(line, format!(in alloc; "{fault:?}")?.as_str())
}

/// The text of a formula, its LaTeX, or the text of its main expression.
fn text_of(alloc: Global, call: &str, f: &Formula, names: &Names) -> Result<Vec<u8>> {
    match check(f, names.count()) {
        Ok(()) => match call {
            "formula_text" => Ok(formula_text(alloc, f, names)?),
            "latex_text" => Ok(latex_text(alloc, f, names)?),
            "write_expr" => Ok(write_expr(alloc, &f.main, names)?),
            other => bail!("no call {other}"),
        },
        Err(_) => bail!("the formula has a fault"),
    }
}

/// Adds whether the text is that of an expression.
fn add_expression(alloc: Global, line: &mut Vec<u8>, text: &str, names: &Names) -> Result<()> {
    match read_expr(alloc, text.as_bytes(), names) {
        Ok(_) => add_text(line, "read"),
        Err(fault) => add_fault(alloc, line, fault),
    }
}

/// Adds what a call gives for the formula that a text is, or where that isn't one.
fn add_formula(
    alloc: Global,
    line: &mut Vec<u8>,
    call: &str,
    text: &str,
    names: &Names,
) -> Result<()> {
    match read_formula(alloc, text.as_bytes(), names) {
        Ok(f) => {
            let text = text_of(alloc, call, &f, names)?;
            line.extend_from_slice(&text)?;
            Ok(())
        }
        Err(fault) => add_fault(alloc, line, fault),
    }
}

/// Adds what a case's call gives for its `text`.
pub(crate) fn add_answer(alloc: Global, line: &mut Vec<u8>, case: &Value) -> Result<()> {
    let names = names_in(alloc, case)?;
    let text = text_in(case, "text")?;
    match text_in(case, "call")? {
        "read_expr" => add_expression(alloc, line, text, &names),
        call => add_formula(alloc, line, call, text, &names),
    }
}

/// The target P(y | do(x)) as text, or as LaTeX.
fn target_of(alloc: Global, call: &str, names: &Names, x: &str, y: &str) -> Result<Vec<u8>> {
    let target = Target {
        x: vertex(names, x),
        y: vertex(names, y),
        given: vertex(names, ""),
    };
    match call {
        "target_text" => Ok(target_text(alloc, &target, names)?),
        "target_latex" => Ok(target_latex(alloc, &target, names)?),
        other => bail!("no call {other}"),
    }
}

/// Adds a target of `y` under an intervention on `x`, as text or as LaTeX.
pub(crate) fn add_target(alloc: Global, line: &mut Vec<u8>, case: &Value) -> Result<()> {
    let names = names_in(alloc, case)?;
    let call = text_in(case, "call")?;
    let x = text_in(case, "x")?;
    let y = text_in(case, "y")?;
    let text = target_of(alloc, call, &names, x, y)?;
    line.extend_from_slice(&text)?;
    Ok(())
}
