//! Operations of exact fractions and of bounds, and the texts of their results.

use case_rows::{Printed, list};
use quantity::{Bounds, Exact, Quantity, QuantityFault, laws};
use serde_json::Value;
use std::alloc::Global;
use std::fmt::Write;

/// 2^127 - 1.
const MOST: u128 = 170141183460469231731687303715884105727;

/// The quantity of a fraction from 0 to 1.
fn ratio<Q: Quantity>(p: u64, q: u64) -> Option<Q> {
    if q < 1 || p > q || q > 1_000_000_000_000_000 {
        return None;
    }
    Some(Q::from_ratio(p, q))
}

/// The quantity that two numbers are.
fn ratio_of<Q: Quantity>(value: &Value) -> Option<Q> {
    ratio(value.get(0)?.as_u64()?, value.get(1)?.as_u64()?)
}

/// What lies between two numbers of units.
fn between(lo: u128, hi: u128) -> Option<Bounds> {
    if lo > hi || hi > MOST {
        return None;
    }
    Some(Bounds { lo, hi })
}

/// The bounds that two numbers are, or two texts of numbers of units.
fn bounds_of(value: &Value) -> Option<Bounds> {
    match value.get(0)?.as_str() {
        Some(lo) => between(lo.parse().ok()?, value.get(1)?.as_str()?.parse().ok()?),
        None => ratio_of(value),
    }
}

/// What an operation gives.
fn result_of<Q: Quantity>(by: &Value, a: &Q, b: &Q) -> Option<Result<Q, QuantityFault>> {
    match by.as_str()? {
        "add" => Some(a.add(b)),
        "mul" => Some(a.mul(b)),
        "div" => Some(a.div(b)),
        _ => None,
    }
}

/// Prints a quantity.
pub(crate) fn print_quantity<Q: Quantity>(
    alloc: Global,
    quantity: &Q,
    print: &mut Printed,
) -> Option<()> {
    let mut text = Vec::new(alloc);
    quantity.print(alloc, &mut text).ok()?;
    print.add(&text).ok()
}

/// Prints the first value, and then what the operations give one after the other, up to a fault.
fn print_results<Q: Quantity>(
    alloc: Global,
    values: &[Q],
    operations: &[Value],
    print: &mut Printed,
) -> Option<()> {
    let (first, rest) = values.split_first()?;
    let mut total = *first;
    print_quantity(alloc, &total, print)?;
    for (value, by) in rest.iter().zip(operations) {
        print.add(b"; ").ok()?;
        match result_of(by, &total, value)? {
            Ok(result) => total = result,
            Err(fault) => return write!(print, "{fault:?}").ok(),
        }
        print_quantity(alloc, &total, print)?;
    }
    Some(())
}

/// Prints the results of the operations `by` on exact `values`.
pub(crate) fn print_exact(alloc: Global, case: &Value, print: &mut Printed) -> Option<()> {
    laws();
    let mut values: Vec<Exact> = Vec::new(alloc);
    for value in list(case, "values") {
        values.push(ratio_of(value)?).ok()?;
    }
    print_results(alloc, &values, list(case, "by"), print)
}

/// Prints the results of the operations `by` on `values` that are bounds.
pub(crate) fn print_bounds(alloc: Global, case: &Value, print: &mut Printed) -> Option<()> {
    let mut values: Vec<Bounds> = Vec::new(alloc);
    for value in list(case, "values") {
        values.push(bounds_of(value)?).ok()?;
    }
    print_results(alloc, &values, list(case, "by"), print)
}
