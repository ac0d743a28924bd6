//! The run of a list of rows.

use crate::reading::text;
use anyhow::{Context, Result};
use serde_json::Value;
use std::alloc::Global;
use std::io::Write;

/// Prints the row's name and its answer.
fn print_row<W: Write>(row: &Value, answer: Option<String>, print: &mut W) -> Result<()> {
    print.write_all(b"== ")?;
    print.write_all(text(row, "case").as_bytes())?;
    print.write_all(b"\n")?;
    match answer {
        Some(answer) => print.write_all(answer.as_bytes())?,
        None => print.write_all(b"no answer\n")?,
    }
    Ok(())
}

/// Prints the name of each row of a list in JSON, and behind it what `answer` gives for the row.
pub fn print_rows<W: Write, F: Fn(Global, &Value) -> Option<String>>(
    alloc: Global,
    rows: &str,
    answer: F,
    print: &mut W,
) -> Result<()>
    requires { F.IsAlwaysCallable answer }
{
    let rows = Value::from_str(alloc, rows)?;
    for row in rows.as_array().context("a list of rows")? {
        print_row(row, answer(alloc, row), print)?;
    }
    print.flush()?;
    Ok(())
}
