//! Worked cases: each is run over inputs and outputs in memory, and prints its status, what stands on `out`, and behind a
//! line `-- err` what stands on `err`, where anything does.
//!
//! The file `cases.json` is a list of objects with the members `case` (its name) and `words`, and, where wanted,
//! `files` (texts by name), `pad` (a size up to which blanks follow each of these), `bytes` (contents by name, as lists of
//! numbers), `repeats` (contents by name, as lists of pieces, each a text and how often it stands), `fails` (a name and the
//! number of the read of it that fails), `most` (the most bytes that one write takes), `room` (the bytes that fit into `out`),
//! `fails_out` and `fails_err` (the number of the write that fails), `cuts` (the name of a file; the case is run again with
//! each shorter front of it) and `each_write` (true: it is run again with each write of `out` failing). A byte that stands a
//! thousand times in a row or more in an output is printed once, and behind it in braces how often it stands.
#![tactic(auto)]

mod endings;
mod inputs;
mod outputs;
mod turns;

use crate::endings::{Ending, ending_of};
use crate::inputs::{number_of, shelf_of};
use crate::outputs::shown;
use crate::turns::{print_cuts, print_writes};
use anyhow::{Context, Result};
use serde_json::Value;
use std::alloc::Global;
use std::fs;
use std::io::Write;

/// Runs a case and prints what it gave.
fn show<W: Write>(alloc: Global, case: &Value, print: &mut W) -> Result<()> {
    let mut shelf = shelf_of(alloc, case)?;
    let ending = ending_of(alloc, case, &mut shelf, number_of(case, "fails_out"))?;
    let name = case.get("case").and_then(Value::as_str).unwrap_or("");
    print_ending(alloc, name, &ending, print)?;
    if let Some(file) = case.get("cuts").and_then(Value::as_str) {
        print_cuts(alloc, case, file, print)?;
    }
    if case.get("each_write").is_some() {
        print_writes(alloc, case, ending.out.bytes(), print)?;
    }
    Ok(())
}

/// Prints the status and both outputs.
fn print_ending<W: Write>(alloc: Global, name: &str, ending: &Ending, print: &mut W) -> Result<()> {
    let code = ending.status;
    let head = format!(in alloc; "== {name}: {code}\n")?;
    print.write_all(head.as_bytes())?;
    let out = shown(alloc, ending.out.bytes())?;
    print.write_all(out.as_slice())?;
    if !ending.err.bytes().is_empty() {
        let err = shown(alloc, ending.err.bytes())?;
        print.write_all(b"-- err\n")?;
        print.write_all(err.as_slice())?;
    }
    Ok(())
}

fn main(rt: HostRuntime) -> Result<()> {
    let alloc = rt.alloc();
    let text = fs::read_to_string(&rt, "cases.json")?;
    let cases = Value::from_str(alloc, text.as_str())?;
    let mut print = rt.stdout();
    for case in cases.as_array().context("a list of cases")? {
        show(alloc, case, &mut print)?;
    }
    print.flush()?;
    Ok(())
}
