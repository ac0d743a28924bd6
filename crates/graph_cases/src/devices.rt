//! Bytes that are read and written.

use crate::fields::{add_text, list_in, number_in, text_in};
use anyhow::{Context, Result, bail};
use causal_io::{
    MemoryShelf, MemorySink, Shelf, SureShelf, SureSink, WriteError, read_all, write_all,
};
use serde_json::Value;
use std::alloc::Global;

/// Takes a step with a shelf: puts a text under a name, or has a read of that name fail.
fn prepare(shelf: &mut MemoryShelf, step: &Value) -> Result<()> {
    if let Some(name) = step.get("put").and_then(Value::as_str) {
        shelf.put(name, text_in(step, "text")?.as_bytes())?;
        return Ok(());
    }
    shelf.fail(text_in(step, "fail")?, number_in(step, "read")?)?;
    Ok(())
}

/// Adds what reading all under a name gives, if it has at most so many bytes.
fn add_read<S: Shelf>(
    alloc: Global,
    line: &mut Vec<u8>,
    shelf: &mut S,
    name: &str,
    most: u64,
) -> Result<()> {
    match read_all(alloc, shelf, name, most) {
        Ok(bytes) => {
            add_text(line, "Ok ")?;
            line.extend_from_slice(&bytes)?;
        }
        Err(error) => add_text(line, format!(in alloc; "{error:?}")?.as_str())?,
    }
    Ok(())
}

/// Adds a line for each of these reads.
pub(crate) fn add_reads<S: Shelf>(
    alloc: Global,
    line: &mut Vec<u8>,
    shelf: &mut S,
    reads: &[Value],
) -> Result<()> {
    for read in reads {
        let name = text_in(read, "name")?;
        let most = number_in(read, "most")?;
        add_text(
            line,
            format!(in alloc; "\n{name}, at most {most}: ")?.as_str(),
        )?;
        add_read(alloc, line, shelf, name, most)?;
    }
    Ok(())
}

/// Adds what reads from a shelf in memory give, and then from one that never fails.
fn add_shelf(alloc: Global, line: &mut Vec<u8>, case: &Value) -> Result<()> {
    let mut shelf = MemoryShelf::empty(alloc);
    for step in list_in(case, "steps")? {
        prepare(&mut shelf, step)?;
    }
    add_reads(alloc, line, &mut shelf, list_in(case, "reads")?)?;
    let mut sure = SureShelf::of(shelf);
    add_text(line, "\nnever failing")?;
    add_reads(alloc, line, &mut sure, list_in(case, "sure")?)
}

/// The sink of a case: the most bytes of one write, the bytes for which it has room, and the write that fails.
fn sink_of(alloc: Global, case: &Value) -> Result<MemorySink> {
    let most = number_in(case, "most")? as usize;
    let room = number_in(case, "room")? as usize;
    let mut sink = MemorySink::with_room(alloc, most.max(1), room)?;
    if let Some(call) = case.get("fail").and_then(Value::as_u64) {
        sink.fail(call)?;
    }
    Ok(sink)
}

/// Adds whether a piece was written whole.
fn add_written(line: &mut Vec<u8>, written: Result<(), WriteError>) -> Result<()> {
    match written {
        Ok(()) => add_text(line, "Ok"),
        Err(WriteError::Fault) => add_text(line, "Fault"),
    }
}

/// Adds a line for each piece that is written: whether it was, and what the sink has then.
fn add_sink(alloc: Global, line: &mut Vec<u8>, case: &Value) -> Result<()> {
    let mut sink = sink_of(alloc, case)?;
    for value in list_in(case, "pieces")? {
        let piece = value.as_str().context("no piece")?;
        let written = write_all(&mut sink, piece.as_bytes());
        add_text(line, "\n")?;
        add_written(line, written)?;
        add_text(line, " ")?;
        line.extend_from_slice(sink.bytes())?;
    }
    Ok(())
}

/// Adds what a case's call gives.
pub(crate) fn add_answer(alloc: Global, line: &mut Vec<u8>, case: &Value) -> Result<()> {
    match text_in(case, "call")? {
        "MemoryShelf" => add_shelf(alloc, line, case),
        "MemorySink" => add_sink(alloc, line, case),
        "SureSink" => {
            let piece = text_in(case, "piece")?;
            add_written(line, write_all(&mut SureSink::new(), piece.as_bytes()))
        }
        other => bail!("no call {other}"),
    }
}
