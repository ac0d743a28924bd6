//! Values of formulas over counts: by the call, prepared, and plain.

use crate::quantities::print_quantity;
use crate::sums::levels_of;
use case_rows::{Printed, list, text};
use count_eval::tables::{EvalFault, is_cell, is_evaluable, prepare, value};
use count_eval::value_by_nodes;
use count_table::Counts;
use expr_text::read_formula;
use mixed_graph::Names;
use prob_expr::{Formula, Place};
use quantity::{Bounds, Exact, Quantity};
use serde_json::Value;
use std::alloc::Global;
use std::fmt;
use std::fmt::{Formatter, Write};

/// The place of a node: its definition, if it is in one, and its number.
#[derive(Clone, Copy)]
struct Node(Place);

impl fmt::Display for Node {
    fn fmt<W: Write>(&self, f: &mut Formatter<W>) -> fmt::Result {
        let node = self.0.node;
        match self.0.def {
            Some(def) => write!(f, " q{def} node {node}"),
            None => write!(f, " node {node}"),
        }
    }
}

/// Prints the first n levels of a cell.
pub(crate) fn print_cell(cell: &[u32; 64], n: usize, print: &mut Printed) -> Option<()> {
    for level in cell.iter().take(n) {
        write!(print, " {level}").ok()?;
    }
    Some(())
}

/// Prints where a denominator is 0: the node, and the first n levels of the cell.
fn print_support(place: Place, cell: &[u32; 64], n: usize, print: &mut Printed) -> Option<()> {
    let node = Node(place);
    write!(print, "no support,{node}, cell").ok()?;
    print_cell(cell, n, print)
}

/// Prints a fault at a cell of n levels.
fn print_fault(fault: &EvalFault, n: usize, print: &mut Printed) -> Option<()> {
    let (what, place) = match fault {
        EvalFault::NoSupport { cell, place } => return print_support(*place, cell, n, print),
        EvalFault::TooWide { place } => ("too wide", *place),
        EvalFault::TooFine { place } => ("too fine", *place),
        EvalFault::NoMemory => return None,
    };
    let node = Node(place);
    write!(print, "{what},{node}").ok()
}

/// Prints a value, or its fault at a cell of n levels.
fn print_outcome<Q: Quantity>(
    alloc: Global,
    outcome: Result<Q, EvalFault>,
    n: usize,
    print: &mut Printed,
) -> Option<()> {
    match outcome {
        Ok(quantity) => print_quantity(alloc, &quantity, print)?,
        Err(fault) => print_fault(&fault, n, print)?,
    }
    print.add(b";").ok()
}

/// How a value is found.
#[derive(Clone, Copy)]
enum Way {
    /// By the call that prepares the formula and evaluates it.
    Called,
    /// By the formula itself.
    Plain,
    /// By the prepared formula.
    Prepared,
}

/// How values are found; with `zero` a product with a factor 0 is 0 whatever its other factors are.
#[derive(Clone, Copy)]
struct Finding {
    way: Way,
    zero: bool,
}

/// A formula's value at a cell, or its fault.
fn valued<Q: Quantity>(
    alloc: Global,
    by: Finding,
    f: &Formula,
    counts: &Counts,
    at: &[u32],
) -> Option<Result<Q, EvalFault>> {
    if at.len() > 64 {
        return None;
    }
    let n = at.len() as u32;
    if !is_evaluable(n, f, counts) || !is_cell(counts, at) {
        return None;
    }
    match by.way {
        Way::Called => Some(value::<Q>(alloc, f, counts, by.zero, at)),
        Way::Plain => Some(value_by_nodes::<Q>(n, f, counts, by.zero, at)),
        Way::Prepared => Some(prepare::<Q>(alloc, n, f, counts, by.zero).ok()?.value(at)),
    }
}

/// Prints a formula's values at these cells, or their faults.
fn print_each<Q: Quantity>(
    alloc: Global,
    by: Finding,
    f: &Formula,
    counts: &Counts,
    cells: &[Value],
    print: &mut Printed,
) -> Option<()> {
    for cell in cells {
        let at = levels_of(alloc, cell)?;
        let outcome = valued::<Q>(alloc, by, f, counts, &at)?;
        print_outcome(alloc, outcome, at.len(), print)?;
    }
    Some(())
}

/// Prints a formula's values in the kind of quantity that the case names.
fn print_by(
    alloc: Global,
    f: &Formula,
    counts: &Counts,
    case: &Value,
    print: &mut Printed,
) -> Option<()> {
    let cells = list(case, "at");
    let zero = case.get("zero").is_some();
    let called = Finding {
        way: Way::Called,
        zero,
    };
    let plain = Finding {
        way: Way::Plain,
        zero,
    };
    let prepared = Finding {
        way: Way::Prepared,
        zero,
    };
    match text(case, "by") {
        "fractions" => print_each::<Exact>(alloc, called, f, counts, cells, print),
        "bounds" => print_each::<Bounds>(alloc, called, f, counts, cells, print),
        "plain fractions" => print_each::<Exact>(alloc, plain, f, counts, cells, print),
        "plain bounds" => print_each::<Bounds>(alloc, plain, f, counts, cells, print),
        "prepared fractions" => print_each::<Exact>(alloc, prepared, f, counts, cells, print),
        "prepared bounds" => print_each::<Bounds>(alloc, prepared, f, counts, cells, print),
        _ => None,
    }
}

/// Prints the values of the `formula` at the cells `at`, as the case says.
pub(crate) fn print_values(
    alloc: Global,
    names: &Names,
    counts: &Counts,
    case: &Value,
    print: &mut Printed,
) -> Option<()> {
    let Ok(f) = read_formula(alloc, text(case, "formula").as_bytes(), names) else {
        return None;
    };
    print_by(alloc, &f, counts, case, print)
}
