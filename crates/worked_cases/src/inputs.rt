// What a case is run over: its words and its inputs.

use anyhow::Result;
use causal_io::MemoryShelf;
use serde_json::Value;
use std::alloc::Global;

pub(crate) const ROOM: usize = 1 << 20;

/// The inputs of a case.
pub(crate) fn shelf_of(alloc: Global, case: &Value) -> Result<MemoryShelf> {
    let mut shelf = MemoryShelf::empty(alloc);
    if let Some(files) = case.get("files").and_then(Value::as_object) {
        let size = size_of(case, "pad", 0);
        for (name, text) in files {
            let bytes = padded(alloc, text.as_str().unwrap_or(""), size)?;
            shelf.put(name.as_str(), &bytes)?;
        }
    }
    if let Some(files) = case.get("bytes").and_then(Value::as_object) {
        for (name, list) in files {
            let bytes = bytes_of(alloc, list)?;
            shelf.put(name.as_str(), &bytes)?;
        }
    }
    put_repeated(alloc, case, &mut shelf)?;
    if let Some(fails) = case.get("fails").and_then(Value::as_object) {
        for (name, call) in fails {
            shelf.fail(name.as_str(), call.as_u64().unwrap_or(0))?;
        }
    }
    Ok(shelf)
}

/// Puts the inputs that are made of repeated pieces.
fn put_repeated(alloc: Global, case: &Value, shelf: &mut MemoryShelf) -> Result<()> {
    if let Some(files) = case.get("repeats").and_then(Value::as_object) {
        for (name, pieces) in files {
            let bytes = repeated(alloc, pieces)?;
            shelf.put(name.as_str(), &bytes)?;
        }
    }
    Ok(())
}

/// The text with blanks behind it, up to a size.
fn padded(alloc: Global, text: &str, size: usize) -> Result<Vec<u8>> {
    let mut bytes = Vec::from_slice(alloc, text.as_bytes())?;
    if bytes.len() < size {
        bytes.resize(size, b' ')?;
    }
    Ok(bytes)
}

/// The bytes of a list of numbers.
fn bytes_of(alloc: Global, list: &Value) -> Result<Vec<u8>> {
    let mut bytes = Vec::new(alloc);
    if let Some(numbers) = list.as_array() {
        for number in numbers {
            bytes.push(u8::try_from(number.as_u64().unwrap_or(0)).unwrap_or(0))?;
        }
    }
    Ok(bytes)
}

/// The bytes of a list of pieces, each a text and how often it stands.
fn repeated(alloc: Global, pieces: &Value) -> Result<Vec<u8>> {
    let mut bytes = Vec::new(alloc);
    if let Some(pieces) = pieces.as_array() {
        for piece in pieces {
            let text = piece.get("text").and_then(Value::as_str).unwrap_or("");
            append_times(&mut bytes, text, size_of(piece, "times", 1))?;
        }
    }
    Ok(bytes)
}

/// Appends a text so many times.
fn append_times(bytes: &mut Vec<u8>, text: &str, times: usize) -> Result<()> {
    for _ in 0..times {
        bytes.extend_from_slice(text.as_bytes())?;
    }
    Ok(())
}

/// The words of a case.
pub(crate) fn words_of(alloc: Global, case: &Value) -> Result<Vec<String>> {
    let mut words = Vec::new(alloc);
    if let Some(list) = case.get("words").and_then(Value::as_array) {
        for word in list {
            words.push(String::from_str(alloc, word.as_str().unwrap_or(""))?)?;
        }
    }
    Ok(words)
}

/// A number of a case, where it has one.
pub(crate) fn number_of(case: &Value, name: &str) -> Option<u64> {
    case.get(name).and_then(Value::as_u64)
}

/// A size of a case, or the default.
pub(crate) fn size_of(case: &Value, name: &str, default: usize) -> usize {
    match number_of(case, name) {
        Some(size) => usize::try_from(size).unwrap_or(default),
        None => default,
    }
}
