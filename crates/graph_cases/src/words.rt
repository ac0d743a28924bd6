//! The words of a command line, and the values in them.

use crate::fields::{add_text, number_in, text_in, words_in};
use anyhow::{Result, bail};
use command_words::forms::{Entry, read_call};
use command_words::lists::{read_list, read_number};
use serde_json::Value;
use std::alloc::Global;

// `list`, and `weigh FILE [COUNTS] --rule N [--do L] [--exact]`
static TABLE: [Entry; 2] = [
    Entry {
        name: "list",
        positionals: &[],
        optional: &[],
        required: &[],
        options: &[],
        flags: &[],
    },
    Entry {
        name: "weigh",
        positionals: &["file"],
        optional: &["counts"],
        required: &["rule"],
        options: &["do"],
        flags: &["exact"],
    },
];

/// Adds the number of names and the names, each between bars.
fn add_names(alloc: Global, line: &mut Vec<u8>, names: &[Vec<u8>]) -> Result<()> {
    let count = names.len();
    add_text(line, format!(in alloc; "{count} |")?.as_str())?;
    for name in names {
        line.extend_from_slice(name)?;
        add_text(line, "|")?;
    }
    Ok(())
}

/// Adds the list that a `text` is.
fn add_list(alloc: Global, line: &mut Vec<u8>, case: &Value) -> Result<()> {
    match read_list(alloc, text_in(case, "text")?)? {
        Some(names) => add_names(alloc, line, &names),
        None => add_text(line, "none"),
    }
}

/// Adds the number from `low` to `high` that a `text` is.
fn add_number(alloc: Global, line: &mut Vec<u8>, case: &Value) -> Result<()> {
    let low = number_in(case, "low")?;
    let high = number_in(case, "high")?;
    match read_number(text_in(case, "text")?, low, high) {
        Some(number) => add_text(line, format!(in alloc; "{number}")?.as_str()),
        None => add_text(line, "none"),
    }
}

/// Adds how the `words` are used, by the table above.
fn add_call(alloc: Global, line: &mut Vec<u8>, case: &Value) -> Result<()> {
    let words = words_in(alloc, case)?;
    match read_call(alloc, &TABLE, &words)? {
        Some(call) => {
            let uses = call.uses.as_slice();
            add_text(line, format!(in alloc; "{uses:?}")?.as_str())
        }
        None => add_text(line, "none"),
    }
}

/// Adds what a case's call gives.
pub(crate) fn add_answer(alloc: Global, line: &mut Vec<u8>, case: &Value) -> Result<()> {
    match text_in(case, "call")? {
        "read_list" => add_list(alloc, line, case),
        "read_number" => add_number(alloc, line, case),
        "read_call" => add_call(alloc, line, case),
        other => bail!("no call {other}"),
    }
}
