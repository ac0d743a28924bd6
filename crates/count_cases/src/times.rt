//! What the bench times: a table of counts from standard input is read, and its sums are printed.
//!
//! With the word `lanes` counts are summed under a mask instead. With the words `plain` or `prepared` a front-door formula is
//! evaluated over the table of standard input, by the plain evaluator at the first cells, or by the prepared form at more. With the
//! word `differences` the largest differences of some pairs of a table of 20 vertices are timed.

ghost use Rattle.std.specs.Prelude.{◌≡◌, ◌<◌, ◌^◌, IfOk, length, sum};

use crate::difference_times;
use count_eval::tables::prepare;
use count_eval::{is_cell, is_evaluable, value_by_nodes};
use count_table::lane_sums::masked_sum;
use count_table::{CountFault, Counts, marginal, read_counts};
use mixed_graph::{Names, VSet};
use prob_expr::{Expr, Formula};
use quantity::Bounds;
use std::alloc::{AllocError, Global};
use std::io;
use std::rt::Clock;

/// The used vertices of the bench's table.
const VERTICES: [&str; 4] = ["stone", "treatment", "sex", "year"];

/// The vertices of the table whose differences are timed.
const COLUMNS: [&str; 20] = [
    "v0", "v1", "v2", "v3", "v4", "v5", "v6", "v7", "v8", "v9", "v10", "v11", "v12", "v13", "v14",
    "v15", "v16", "v17", "v18", "v19",
];

/// The number of cells that are summed.
const CELLS: usize = 1048576;

/// Prints the number of levels of each vertex, the number of cells and the sum of the counts.
fn print_table(rt: &impl Print, counts: &Counts) -> io::Result<()> {
    for v in 0..4 {
        let levels = counts.levels(v);
        rt.println(format_args!("levels {levels}"))?;
    }
    let cells = counts.cells().len();
    let sum = marginal(counts, VSet::empty(), &[]);
    rt.println(format_args!("cells {cells}"))?;
    rt.println(format_args!("sum {sum}"))
}

/// The table of these vertices that a text is.
fn table_of(alloc: Global, text: &[u8], vertices: &[&str]) -> Result<Counts, CountFault> {
    let mut names = Names::empty(alloc);
    for name in vertices {
        if names.add(name.as_bytes()).is_err() {
            return Err(CountFault::NoMemory);
        }
    }
    let used = VSet::below(names.count());
    if used.is_empty() {
        return Err(CountFault::NoRows);
    }
    read_counts(alloc, text, &names, used, Some(b"count"))
}

/// The counts 1, .., 1, and the codes 0, 1, .., of n cells.
fn cells(alloc: Global, n: usize) -> Result<(Vec<u64>, Vec<u64>), AllocError>
    ensures lengths { IfOk result (λ made. length made.0.items ≡ length made.1.items) }
    ensures room { IfOk result (λ made. sum made.0.items < 2 ^ 64) }
{
    let counts = vec![in alloc; 1; n]?;
    let mut codes = Vec::new(alloc);
    for i in 0..n {
        codes.push(i as u64)?;
    }
    Ok((counts, codes))
}

/// Sums the cells under each of the masks below `rounds`, and prints the sum of these sums, without its carries.
fn print_sums(rt: &impl Print, alloc: Global, rounds: u64) -> io::Result<()> {
    let Ok((counts, codes)) = cells(alloc, CELLS) else {
        return rt.println("memory");
    };
    let mut total: u64 = 0;
    for mask in 0..rounds {
        total = total.wrapping_add(masked_sum(counts.as_slice(), codes.as_slice(), mask, 1));
    }
    rt.println(format_args!("total {total}"))
}

/// The term P(of | given).
fn term(of: VSet, given: VSet) -> Expr {
    Expr::Prob {
        of,
        doing: VSet::EMPTY,
        given,
    }
}

/// The front-door formula of X, M and Y: sum{M} P(M|X) * (sum{X} P(X) * P(Y|X,M)).
fn front_door(alloc: Global) -> Result<Formula, AllocError> {
    let (x, m, y) = (VSet::one(0), VSet::one(1), VSet::one(2));
    let outcome = term(y, x.union(m));
    let inner = Expr::Sum {
        over: x,
        body: Box::new(
            alloc,
            Expr::Product(vec![in alloc; term(x, VSet::EMPTY), outcome]?),
        )?,
    };
    let main = Expr::Sum {
        over: m,
        body: Box::new(alloc, Expr::Product(vec![in alloc; term(m, x), inner]?))?,
    };
    Ok(Formula {
        defs: Vec::new(alloc),
        main,
    })
}

/// How many of the first cells of Y, at the first levels of X and M, have a value by the plain evaluator.
fn count_plain(f: &Formula, c: &Counts, cells: u32) -> u32 {
    let mut found: u32 = 0;
    if !is_evaluable(3, f, c) {
        return found;
    }
    for y in 0..cells {
        let at = [0, 0, y];
        if is_cell(c, &at) && value_by_nodes::<Bounds>(3, f, c, false, &at).is_ok() {
            found = found.saturating_add(1);
        }
    }
    found
}

/// How many of them have a value by the prepared form.
fn count_prepared(alloc: Global, f: &Formula, c: &Counts, cells: u32) -> Result<u32, AllocError> {
    let mut found: u32 = 0;
    if !is_evaluable(3, f, c) {
        return Ok(found);
    }
    let prepared = prepare::<Bounds>(alloc, 3, f, c, false)?;
    for y in 0..cells {
        let at = [0, 0, y];
        if is_cell(c, &at) && prepared.value(&at).is_ok() {
            found = found.saturating_add(1);
        }
    }
    Ok(found)
}

/// What a word asks for.
#[derive(Clone, Copy)]
pub(crate) enum Asked {
    /// The worked cases, and behind them the table of standard input.
    Cases,
    /// The table of standard input, and its sums.
    Table,
    /// Sums under masks.
    Lanes,
    /// A front door over the table of standard input, by the plain evaluator.
    Plain,
    /// The same by the prepared form.
    Prepared,
    /// Largest differences over the table of standard input.
    Differences,
}

/// What the word asks for, if there is one.
pub(crate) fn asked_by(word: Option<&str>) -> Asked {
    match word {
        Some("table") => Asked::Table,
        Some("plain") => Asked::Plain,
        Some("prepared") => Asked::Prepared,
        Some("differences") => Asked::Differences,
        Some(_) => Asked::Lanes,
        None => Asked::Cases,
    }
}

/// How many cells of a front door have a value.
fn count_values(alloc: Global, c: &Counts, asked: Asked) -> Result<u32, AllocError> {
    let f = front_door(alloc)?;
    match asked {
        Asked::Plain => Ok(count_plain(&f, c, 20)),
        _ => count_prepared(alloc, &f, c, 60_000),
    }
}

/// Prints how many cells of a front door have a value over the table that a text is.
fn print_values(rt: &impl Print, alloc: Global, text: &[u8], asked: Asked) -> io::Result<()> {
    match table_of(alloc, text, &["X", "M", "Y"]) {
        Ok(counts) => match count_values(alloc, &counts, asked) {
            Ok(values) => rt.println(format_args!("values {values}")),
            Err(_) => rt.println("memory"),
        },
        Err(_) => rt.println("fault"),
    }
}

/// Prints the table that a text is, or that it is none.
fn print_text(rt: &impl Print, alloc: Global, text: &[u8]) -> io::Result<()> {
    match table_of(alloc, text, &VERTICES) {
        Ok(counts) => print_table(rt, &counts),
        Err(_) => rt.println("fault"),
    }
}

/// Times the largest differences over the table that a text is.
fn print_differences<R: Print + Clock>(rt: &R, alloc: Global, text: &[u8]) -> io::Result<()> {
    match table_of(alloc, text, &COLUMNS) {
        Ok(counts) => difference_times::print_times(rt, alloc, &counts),
        Err(_) => rt.println("fault"),
    }
}

/// Prints what is asked of the text of standard input, or the sums under masks.
pub(crate) fn print_asked<R: Print + Clock>(
    rt: &R,
    alloc: Global,
    text: &[u8],
    asked: Asked,
) -> io::Result<()> {
    match asked {
        Asked::Lanes => print_sums(rt, alloc, 2000),
        Asked::Cases | Asked::Table => print_text(rt, alloc, text),
        Asked::Differences => print_differences(rt, alloc, text),
        Asked::Plain | Asked::Prepared => print_values(rt, alloc, text, asked),
    }
}
