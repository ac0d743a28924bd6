//! Worked cases of counts, of their sums and differences, and of quantities: each prints a line. Behind them, or for a word alone, what
//! the bench times.
//!
//! The file `cases.json` is an object with two members. `tables` has tables of counts by name: a text of CSV (`text`), the
//! names of its vertices (`names`), those of them that aren't used (`unused`) and the column of counts (`count`). `cases` is a
//! list of objects, each with a name (`case`), a call (`call`) and what that call is given. Where it is given a table, that
//! is the one of the name `table`, or the case itself has the table's members.
#![tactic(auto)]

mod asking;
mod difference_times;
mod differences;
mod lanes;
mod quantities;
mod readings;
mod sources;
mod sums;
mod tables;
mod times;
mod values;

use anyhow::{Context, Result};
use case_rows::{Printed, list};
use serde_json::Value;
use std::alloc::Global;
use std::io::{Read, Write};
use std::{env, fs};
use times::{Asked, asked_by, print_asked};

/// Prints a line for each case.
fn print_cases<W: Write>(alloc: Global, text: &str, out: &mut W) -> Result<()> {
    let root = Value::from_str(alloc, text)?;
    let mut print = Printed::new(alloc);
    for case in list(&root, "cases") {
        asking::show(alloc, &root, case, &mut print).context("a case that can't be asked")?;
    }
    out.write_all(print.bytes())?;
    out.flush()?;
    Ok(())
}

fn main(rt: HostRuntime) -> Result<()> {
    let alloc = rt.alloc();
    let word = env::args(&rt)?.skip(1).next();
    let asked = asked_by(word.as_deref());
    if let Asked::Cases = asked {
        let text = fs::read_to_string(&rt, "cases.json")?;
        print_cases(alloc, text.as_str(), &mut rt.stdout())?;
    }
    let mut text = Vec::new(alloc);
    if !matches!(asked, Asked::Lanes) {
        rt.reader().read_to_end(&mut text)?;
    }
    print_asked(&rt, alloc, text.as_slice(), asked)?;
    Ok(())
}
