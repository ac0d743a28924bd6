//! What stands in a case, and texts in a line.

ghost use Rattle.std.specs.Prelude.{length};
ghost use Rattle.mixed_graph.specs.Vocabulary.{has, Within};

use anyhow::{Context, Result, bail};
use mixed_graph::{Names, VSet};
use serde_json::Value;
use std::alloc::Global;

/// The text of that name.
pub(crate) fn text_in<'a>(case: &'a Value, name: &str) -> Result<&'a str> {
    case.get(name)
        .and_then(Value::as_str)
        .context(format_args!("no text {name}"))
}

/// The list of that name.
pub(crate) fn list_in<'a>(case: &'a Value, name: &str) -> Result<&'a [Value]> {
    match case.get(name).and_then(Value::as_array) {
        Some(list) => Ok(list.as_slice()),
        None => bail!("no list {name}"),
    }
}

/// The number of that name.
pub(crate) fn number_in(case: &Value, name: &str) -> Result<u64> {
    case.get(name)
        .and_then(Value::as_u64)
        .context(format_args!("no number {name}"))
}

/// The texts as words of a command line.
pub(crate) fn words_of(alloc: Global, texts: &[&str]) -> Result<Vec<String>> {
    let mut words = Vec::new(alloc);
    for text in texts {
        words.push(String::from_str(alloc, text)?)?;
    }
    Ok(words)
}

/// The words of a case.
pub(crate) fn words_in(alloc: Global, case: &Value) -> Result<Vec<String>> {
    let mut words = Vec::new(alloc);
    for value in list_in(case, "words")? {
        let word = value.as_str().context("no word")?;
        words.push(String::from_str(alloc, word)?)?;
    }
    Ok(words)
}

/// The names of a case.
pub(crate) fn names_in(alloc: Global, case: &Value) -> Result<Names> {
    let mut names = Names::empty(alloc);
    for value in list_in(case, "names")? {
        let name = value.as_str().context("no name")?;
        if names.add(name.as_bytes()).is_err() {
            bail!("no name {name}");
        }
    }
    Ok(names)
}

/// The vertex of that name, or none.
pub(crate) fn vertex(names: &Names, name: &str) -> VSet
    ensures { Within (length names.now) (has result.bits) }
{
    match names.index(name.as_bytes()) {
        Some(v) => VSet::one(v),
        None => VSet::empty(),
    }
}

/// Adds a text to a line.
pub(crate) fn add_text(line: &mut Vec<u8>, text: &str) -> Result<()> {
    line.extend_from_slice(text.as_bytes())?;
    Ok(())
}
