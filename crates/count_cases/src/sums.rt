//! Sums of counts by tables of sums, and the places of cells.

ghost use Rattle.std.specs.Prelude.{◌≡◌, IfSome};
ghost use Rattle.mixed_graph.specs.Vocabulary.{has};
ghost use Rattle.count_table.specs.Vocabulary.{HasLevels};

use crate::sources::{has_levels, set_of};
use case_rows::{Printed, list, number};
use count_table::sum_tables::{Places, SumTable, SumTables};
use count_table::{Counts, marginal};
use mixed_graph::{Names, VSet};
use serde_json::Value;
use std::alloc::Global;
use std::fmt::Write;

/// The levels of a cell.
pub(crate) fn levels_of(alloc: Global, cell: &Value) -> Option<Vec<u32>> {
    let mut levels = Vec::new(alloc);
    for value in cell.as_array()?.as_slice() {
        levels.push(u32::try_from(value.as_u64()?).ok()?).ok()?;
    }
    Some(levels)
}

/// The set that a list of names is.
fn set_in(names: &Names, value: &Value) -> Option<VSet> {
    set_of(names, value.as_array()?.as_slice())
}

/// Adds tables of sums over these sets, as long as all have at most so many cells.
fn add_tables(
    alloc: Global,
    names: &Names,
    sets: &[Value],
    most: usize,
    tables: &mut SumTables,
) -> Option<()>
    ensures { tables.new.table ≡ tables.old.table }
{
    for set in sets {
        tables.add(alloc, set_in(names, set)?, most).ok()?;
    }
    Some(())
}

/// Tables of sums over the `sets` of a table's case, as long as all have at most so many cells.
fn tables_of<'a>(
    alloc: Global,
    counts: &'a Counts,
    names: &Names,
    source: &Value,
) -> Option<SumTables<'a>>
    ensures { IfSome result (λ tables. tables.table ≡ counts.now) }
{
    let most = number(source, "most") as usize;
    let mut tables = SumTables::new(alloc, counts);
    add_tables(alloc, names, list(source, "sets"), most, &mut tables)?;
    Some(tables)
}

/// Prints the number of cells that all tables of sums have together.
pub(crate) fn print_cells(
    alloc: Global,
    names: &Names,
    counts: &Counts,
    source: &Value,
    print: &mut Printed,
) -> Option<()> {
    let tables = tables_of(alloc, counts, names, source)?;
    let cells = tables.cells();
    write!(print, "{cells}").ok()
}

/// The sum of the rows that agree with an assignment on a set, from a table of sums over it.
fn sum_by_table(alloc: Global, counts: &Counts, of: VSet, at: &[u32]) -> Option<u64>
    requires { HasLevels counts.now (has of.bits) at.now }
{
    let table = SumTable::make(alloc, counts, of).ok()?;
    Some(table.sum(at))
}

/// Prints the sum of the rows that agree with an assignment on a set, where a table of its own and several tables give the same.
fn print_sum(
    alloc: Global,
    counts: &Counts,
    tables: &SumTables,
    of: VSet,
    at: &[u32],
    print: &mut Printed,
) -> Option<()>
    requires { tables.now.table ≡ counts.now }
{
    if !has_levels(counts, of, at) {
        return print.add(b"no level").ok();
    }
    let sum = marginal(counts, of, at);
    if sum_by_table(alloc, counts, of, at)? != sum || tables.sum(of, at) != sum {
        return print.add(b"another sum").ok();
    }
    write!(print, "{sum}").ok()
}

/// Prints the sums over a set at each of these cells.
fn print_sums_at(
    alloc: Global,
    counts: &Counts,
    tables: &SumTables,
    of: VSet,
    cells: &[Value],
    print: &mut Printed,
) -> Option<()>
    requires { tables.now.table ≡ counts.now }
{
    let mut between = "";
    for cell in cells {
        print.add(between.as_bytes()).ok()?;
        print_sum(alloc, counts, tables, of, &levels_of(alloc, cell)?, print)?;
        between = " ";
    }
    Some(())
}

/// Prints the sum of the rows that agree with the levels of each cell of `at` on the vertices `of`.
pub(crate) fn print_sums(
    alloc: Global,
    names: &Names,
    counts: &Counts,
    source: &Value,
    case: &Value,
    print: &mut Printed,
) -> Option<()> {
    let of = set_of(names, list(case, "of"))?;
    let tables = tables_of(alloc, counts, names, source)?;
    print_sums_at(alloc, counts, &tables, of, list(case, "at"), print)
}

/// Prints the levels of the cell at a place, and the place of this cell.
fn print_cell(places: &Places, place: usize, print: &mut Printed) -> Option<()> {
    if place >= places.count() {
        return print.add(b"no place").ok();
    }
    let cell = places.cell(place);
    let back = places.place(&cell);
    for v in places.vertices() {
        let level = cell[*v as usize % 64];
        write!(print, "{level} ").ok()?;
    }
    write!(print, "at {back}").ok()
}

/// Prints the cell of the vertices `of` at a `place`.
pub(crate) fn print_place(
    alloc: Global,
    names: &Names,
    counts: &Counts,
    case: &Value,
    print: &mut Printed,
) -> Option<()> {
    let of = set_of(names, list(case, "of"))?;
    let places = Places::of(alloc, counts, of).ok()?;
    print_cell(&places, number(case, "place") as usize, print)
}
