//! Readings of texts of counts.

use crate::lanes::print_numbers;
use crate::sources::column_of;
use case_rows::{Printed, number, text};
use count_rows::{CountFault, Levels, Tally, read_rows};
use mixed_graph::{Names, VSet};
use serde_json::Value;
use std::alloc::{AllocError, Global};
use std::fmt::Write;

/// Prints the levels, joined by bars.
fn print_levels(levels: &Levels, print: &mut Printed) -> Result<(), AllocError> {
    for k in 0..levels.count() {
        if k > 0 {
            print.add(b"|")?;
        }
        print.add(levels.get(k))?;
    }
    print.add(b"; ")
}

/// Prints the number of a fault and its name.
fn print_name(fault: &[u8], name: &[u8], print: &mut Printed) -> Option<()> {
    print.add(fault).ok()?;
    print.add(name).ok()
}

/// Prints a fault.
pub(crate) fn print_fault(fault: &CountFault, print: &mut Printed) -> Option<()> {
    match fault {
        CountFault::NotCsv(row) => write!(print, "1: {row}").ok(),
        CountFault::NoColumn(name) => print_name(b"2: ", name.bytes(), print),
        CountFault::TwoColumns(name) => print_name(b"3: ", name.bytes(), print),
        CountFault::Count(row) => write!(print, "4: {row}").ok(),
        CountFault::TooLarge => print.add(b"5").ok(),
        CountFault::SumTooLarge => print.add(b"6").ok(),
        CountFault::NoRows => print.add(b"7").ok(),
        CountFault::NoMemory => None,
    }
}

/// Prints the levels of each vertex, the numbers of the levels of each row, the counts and their sum.
fn print_tally(tally: &Tally, print: &mut Printed) -> Option<()> {
    for levels in tally.levels.as_slice() {
        print_levels(levels, print).ok()?;
    }
    print_numbers(tally.cells.as_slice(), print)?;
    print.add(b"; ").ok()?;
    print_numbers(tally.counts.as_slice(), print)?;
    let sum = tally.sum;
    write!(print, "; {sum}").ok()
}

/// What reading the rows of all vertices gives.
fn read(
    alloc: Global,
    names: &Names,
    text: &[u8],
    column: Option<&[u8]>,
) -> Option<Result<Tally, CountFault>> {
    let count = names.count();
    if count > 64 {
        return None;
    }
    let used = VSet::below(count);
    if used.is_empty() {
        return None;
    }
    Some(read_rows(alloc, text, names, used, column))
}

/// Prints what reading the rows of a text gives.
pub(crate) fn print_rows(
    alloc: Global,
    names: &Names,
    source: &Value,
    print: &mut Printed,
) -> Option<()> {
    match read(
        alloc,
        names,
        text(source, "text").as_bytes(),
        column_of(source),
    )? {
        Ok(tally) => print_tally(&tally, print),
        Err(fault) => print_fault(&fault, print),
    }
}

/// Writes the case's text with so many records behind it, each with a level of its own in both columns, and the `end`.
fn write_square(case: &Value, square: &mut Printed) -> Option<()> {
    square.add(text(case, "text").as_bytes()).ok()?;
    for k in 0..number(case, "records") {
        write!(square, "a{k},b{k}\n").ok()?;
    }
    square.add(text(case, "end").as_bytes()).ok()
}

/// Prints the sum of the counts in a text with many records.
pub(crate) fn print_square(
    alloc: Global,
    names: &Names,
    case: &Value,
    print: &mut Printed,
) -> Option<()> {
    let mut square = Printed::new(alloc);
    write_square(case, &mut square)?;
    match read(alloc, names, square.bytes(), None)? {
        Ok(tally) => print_sum(&tally, print),
        Err(fault) => print_fault(&fault, print),
    }
}

/// Prints the sum of the counts.
fn print_sum(tally: &Tally, print: &mut Printed) -> Option<()> {
    let sum = tally.sum;
    write!(print, "{sum}").ok()
}
