//! Certificates and counts that are read, and the lines of those that are refused.

use crate::fields::{add_text, names_in, text_in};
use anyhow::{Context, Result, bail};
use certificate::{CertFault, read_answer};
use count_rows::{CountFault, read_rows};
use mixed_graph::{Names, VSet};
use serde_json::Value;
use std::alloc::Global;

/// The `text` of a case, behind the text of the name `front`, if there is one.
fn text_of(alloc: Global, root: &Value, case: &Value) -> Result<String> {
    let mut text = String::new(alloc);
    if let Some(front) = case.get("front").and_then(Value::as_str) {
        let texts = root.get("texts").context("no texts")?;
        text.push_str(text_in(texts, front)?)?;
    }
    text.push_str(text_in(case, "text")?)?;
    Ok(text)
}

/// Adds whether a text is read as a certificate, or the line of its fault.
fn add_certificate(alloc: Global, line: &mut Vec<u8>, names: &Names, text: &[u8]) -> Result<()> {
    match read_answer(alloc, text, names) {
        Ok(_) => add_text(line, "read"),
        Err(fault) => {
            let refused = fault.line(alloc)?;
            line.extend_from_slice(&refused)?;
            Ok(())
        }
    }
}

/// Whether the text is no JSON.
fn is_no_json(alloc: Global, names: &Names, text: &[u8]) -> bool {
    matches!(read_answer(alloc, text, names), Err(CertFault::NotJson))
}

/// Adds how many fronts of a text, each shorter than the text, there are, and how many of these are no JSON.
fn add_prefixes(alloc: Global, line: &mut Vec<u8>, names: &Names, text: &[u8]) -> Result<()> {
    let mut found = 0usize;
    for length in 0..text.len() {
        if is_no_json(alloc, names, &text[..length]) {
            found = found.saturating_add(1);
        }
    }
    let count = text.len();
    add_text(line, format!(in alloc; "{found} of {count}")?.as_str())
}

/// Adds whether a text of counts is read, or the line of its fault.
fn add_counts(alloc: Global, line: &mut Vec<u8>, names: &Names, text: &[u8]) -> Result<()> {
    let used = VSet::below(names.count());
    if used.is_empty() {
        bail!("no vertex is used");
    }
    match read_rows(alloc, text, names, used, Some(b"count")) {
        Ok(_) => add_text(line, "read"),
        Err(fault) => {
            let refused = fault.line(alloc)?;
            line.extend_from_slice(&refused)?;
            Ok(())
        }
    }
}

/// Adds what a case's call gives for a text.
fn add_read(alloc: Global, line: &mut Vec<u8>, root: &Value, case: &Value) -> Result<()> {
    let names = names_in(alloc, case)?;
    let text = text_of(alloc, root, case)?;
    match text_in(case, "call")? {
        "read_answer" => add_certificate(alloc, line, &names, text.as_bytes()),
        "prefixes" => add_prefixes(alloc, line, &names, text.as_bytes()),
        "read_rows" => add_counts(alloc, line, &names, text.as_bytes()),
        other => bail!("no call {other}"),
    }
}

/// Adds what a case's call gives.
pub(crate) fn add_answer(
    alloc: Global,
    line: &mut Vec<u8>,
    root: &Value,
    case: &Value,
) -> Result<()> {
    match text_in(case, "call")? {
        "certificate_size_line" => {
            let size = CertFault::size_line(alloc)?;
            line.extend_from_slice(&size)?;
            Ok(())
        }
        "counts_size_line" => {
            let size = CountFault::size_line(alloc)?;
            line.extend_from_slice(&size)?;
            Ok(())
        }
        _ => add_read(alloc, line, root, case),
    }
}
