//! Rows on texts of graphs.

use case_rows::{bytes, flag, number, text};
use dag_reader::{GraphFault, read_graph, write_graph};
use serde_json::Value;
use std::alloc::{AllocError, Global};

/// Bytes as text.
pub(crate) fn told(alloc: Global, bytes: &[u8]) -> Option<String> {
    String::from_str(alloc, str::from_utf8(bytes).ok()?).ok()
}

/// What is written of what was read, or the line of its fault.
fn read_and_written(alloc: Global, text: &[u8]) -> Result<Vec<u8>, AllocError> {
    match read_graph(alloc, text) {
        Ok(graph) => write_graph(alloc, &graph),
        Err(fault) => fault.line(alloc),
    }
}

/// A graph's text, read and written.
pub(crate) fn text_row(alloc: Global, row: &Value) -> Option<String> {
    let found = read_and_written(alloc, text(row, "text").as_bytes()).ok()?;
    told(alloc, &found)
}

/// The same for bytes that are no text.
pub(crate) fn bytes_row(alloc: Global, row: &Value) -> Option<String> {
    let bytes = bytes(alloc, row, "bytes")?;
    let found = read_and_written(alloc, &bytes).ok()?;
    told(alloc, &found)
}

/// How many of the beginnings of a text are refused, and how many there are.
pub(crate) fn prefixes_row(alloc: Global, row: &Value) -> Option<String> {
    let bytes = text(row, "text").as_bytes();
    let mut refused = 0usize;
    for end in 0..bytes.len() {
        if read_graph(alloc, &bytes[..end]).is_err() {
            refused = refused.saturating_add(1);
        }
    }
    let all = bytes.len();
    format!(in alloc; "{refused} of {all} refused\n").ok()
}

/// The input whose fault a line names.
#[derive(Clone, Copy)]
pub(crate) enum Input {
    First,
    Second,
}

/// The input of a row.
pub(crate) fn input_of(row: &Value) -> Input {
    if flag(row, "second") {
        Input::Second
    } else {
        Input::First
    }
}

/// The line of a token that isn't one.
fn token_line(alloc: Global, at: usize, of: Input) -> Result<Vec<u8>, AllocError> {
    match of {
        Input::First => GraphFault::Token(at).line(alloc),
        Input::Second => GraphFault::Token(at).second_line(alloc),
    }
}

/// The line of a fault of a graph's text.
pub(crate) fn graph_line_row(alloc: Global, row: &Value) -> Option<String> {
    let of = input_of(row);
    let line = match text(row, "fault") {
        "token" => {
            let at = usize::try_from(number(row, "byte")).ok()?;
            token_line(alloc, at, of)
        }
        "size" => match of {
            Input::First => GraphFault::size_line(alloc),
            Input::Second => GraphFault::second_size_line(alloc),
        },
        _ => return None,
    };
    told(alloc, &line.ok()?)
}
