//! The cases of `texts.json`: texts that are read and written.
//!
//! The file is an object with three members. `cases` is a list of objects, each with a name (`case`), a subject (`of`), a call
//! of that subject (`call`) and what the call is given. `texts` has by name the fronts of texts (`front`) that cases share.
//! `files` is a list of files, each with the most bytes that are to be read of it.

use crate::fields::{add_text, list_in, text_in};
use crate::{answers, certificates, devices, formulas, hedges, words};
use anyhow::{Result, bail};
use causal_io::{Shelf, Sink, read_all, write_all};
use serde_json::Value;
use std::alloc::Global;

/// The most bytes of the file of cases.
const MOST: u64 = 1 << 20;

/// Adds what a case's call gives to a line.
fn add_answer(alloc: Global, line: &mut Vec<u8>, root: &Value, case: &Value) -> Result<()> {
    match text_in(case, "of")? {
        "words" => words::add_answer(alloc, line, case),
        "devices" => devices::add_answer(alloc, line, case),
        "certificates" => certificates::add_answer(alloc, line, root, case),
        "formulas" => formulas::add_answer(alloc, line, case),
        "targets" => formulas::add_target(alloc, line, case),
        "answers" => answers::add_answer(alloc, line, case),
        "hedges" => hedges::add_answer(alloc, line, case),
        other => bail!("no subject {other}"),
    }
}

/// The line of a case: its name, and what its call gives.
fn line_of(alloc: Global, root: &Value, case: &Value) -> Result<Vec<u8>> {
    let mut line = Vec::from_slice(alloc, text_in(case, "case")?.as_bytes())?;
    add_text(&mut line, ": ")?;
    add_answer(alloc, &mut line, root, case)?;
    add_text(&mut line, "\n")?;
    Ok(line)
}

/// All cases.
fn root_of<S: Shelf>(alloc: Global, shelf: &mut S) -> Result<Value> {
    let text = read_all(alloc, shelf, "texts.json", MOST)?;
    Ok(Value::from_str(alloc, str::from_utf8(&text)?)?)
}

/// Prints a line for each case, or its text, and what is read of each file.
pub(crate) fn print_texts<S: Shelf, O: Sink>(
    alloc: Global,
    shelf: &mut S,
    out: &mut O,
) -> Result<()> {
    let root = root_of(alloc, shelf)?;
    for case in list_in(&root, "cases")? {
        write_all(out, &line_of(alloc, &root, case)?)?;
    }
    let mut line = Vec::from_slice(alloc, b"files")?;
    devices::add_reads(alloc, &mut line, shelf, list_in(&root, "files")?)?;
    add_text(&mut line, "\n")?;
    write_all(out, &line)?;
    Ok(())
}
