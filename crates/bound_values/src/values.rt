//! The bounds at a cell.

ghost use Rattle.std.specs.Prelude.{ℕ, ◌≡◌, ◌≤◌, true, false};
ghost use Rattle.mixed_graph.specs.Vocabulary.{Apart, has};
ghost use Rattle.count_table.specs.Vocabulary.{HasLevels};
ghost use Rattle.count_eval.specs.Vocabulary.{weights_in, is_used, cell_of};
ghost use Rattle.quantity.specs.Kinds.{pair};
ghost use Rattle.natural_bounds.specs.Vocabulary.{condition};
ghost use Rattle.bound_values.specs.Questions.{asked_of, IsScope};
ghost use Rattle.bound_values.specs.Told.{value_in, end_value, cell_bounds};

use crate::questions::Scope;
use crate::strata::effect_bound;
use natural_bounds::End;
use quantity::{Bounds, Exact, QuantityFault};

/// An end of a bound, as it is told.
#[derive(Clone, Copy, Debug, PartialEq, Eq)]
pub enum Value {
    /// top / bottom, in lowest terms.
    Fraction { top: u128, bottom: u128 },
    /// So many units of 10^-18: rounded down where it is what an effect is at least, and else up.
    Units(u128),
}

/// What the effect at a cell is at least and at most.
#[derive(Clone, Copy, Debug)]
pub struct CellBounds {
    pub cell: [u32; 64],
    pub at_least: Value,
    pub at_most: Value,
}

/// Why an effect has no bounds at a cell.
#[derive(Clone, Copy, Debug)]
pub enum CellFault {
    /// What is given has no records at this cell.
    NoRecords([u32; 64]),
    /// A number would be over 2^127 - 1.
    TooWide,
    /// Want of memory.
    NoMemory,
}

/// An end in exact fractions.
fn exact_end(scope: &Scope, end: End, cell: [u32; 64]) -> Result<Value, QuantityFault>
    requires scope { IsScope scope.now.n scope.now.counts.now scope.now.question.method (asked_of scope.now.question) scope.now.sums.now }
    requires levels { HasLevels scope.now.counts.now (is_used scope.now.counts.now) cell }
    requires some { 1 ≤ condition (weights_in scope.now.n scope.now.counts.now) (asked_of scope.now.question) (cell_of cell) }
    requires apart { Apart (has scope.now.question.given.bits) (has scope.now.question.strata.bits) }
    ensures { result ≡ end_value true scope.now.question.method end (weights_in scope.now.n scope.now.counts.now) (asked_of scope.now.question) (cell_of cell) }
{
    let bound: Result<Exact, QuantityFault> = effect_bound(scope, end, cell);
    match bound {
        Ok(bound) => Ok(Value::Fraction {
            top: bound.p,
            bottom: bound.q,
        }),
        Err(fault) => Err(fault),
    }
}

/// The end of two bounds that is on the outer side.
fn outer(end: End, bounds: Bounds) -> Value
    ensures { result ≡ value_in false end (pair bounds.lo bounds.hi) }
{
    match end {
        End::AtLeast => Value::Units(bounds.lo),
        End::AtMost => Value::Units(bounds.hi),
    }
}

/// An end in units of 10^-18.
fn rounded_end(scope: &Scope, end: End, cell: [u32; 64]) -> Result<Value, QuantityFault>
    requires scope { IsScope scope.now.n scope.now.counts.now scope.now.question.method (asked_of scope.now.question) scope.now.sums.now }
    requires levels { HasLevels scope.now.counts.now (is_used scope.now.counts.now) cell }
    requires some { 1 ≤ condition (weights_in scope.now.n scope.now.counts.now) (asked_of scope.now.question) (cell_of cell) }
    requires apart { Apart (has scope.now.question.given.bits) (has scope.now.question.strata.bits) }
    ensures { result ≡ end_value false scope.now.question.method end (weights_in scope.now.n scope.now.counts.now) (asked_of scope.now.question) (cell_of cell) }
{
    let bound: Result<Bounds, QuantityFault> = effect_bound(scope, end, cell);
    match bound {
        Ok(bound) => Ok(outer(end, bound)),
        Err(fault) => Err(fault),
    }
}

/// An end in exact fractions, or else in units of 10^-18.
fn end_value(scope: &Scope, exact: bool, end: End, cell: [u32; 64]) -> Result<Value, QuantityFault>
    requires scope { IsScope scope.now.n scope.now.counts.now scope.now.question.method (asked_of scope.now.question) scope.now.sums.now }
    requires levels { HasLevels scope.now.counts.now (is_used scope.now.counts.now) cell }
    requires some { 1 ≤ condition (weights_in scope.now.n scope.now.counts.now) (asked_of scope.now.question) (cell_of cell) }
    requires apart { Apart (has scope.now.question.given.bits) (has scope.now.question.strata.bits) }
    ensures { result ≡ end_value exact scope.now.question.method end (weights_in scope.now.n scope.now.counts.now) (asked_of scope.now.question) (cell_of cell) }
{
    if exact {
        exact_end(scope, end, cell)
    } else {
        rounded_end(scope, end, cell)
    }
}

/// The bounds at a cell, or why there are none.
pub fn bounds_at(scope: &Scope, exact: bool, cell: [u32; 64]) -> Result<CellBounds, CellFault>
    requires scope { IsScope scope.now.n scope.now.counts.now scope.now.question.method (asked_of scope.now.question) scope.now.sums.now }
    requires levels { HasLevels scope.now.counts.now (is_used scope.now.counts.now) cell }
    requires apart { Apart (has scope.now.question.given.bits) (has scope.now.question.strata.bits) }
    ensures { result ≡ cell_bounds exact scope.now.question.method scope.now.n scope.now.counts.now (asked_of scope.now.question) cell }
{
    if scope.sums.sum(scope.question.given, &cell) == 0 {
        return Err(CellFault::NoRecords(cell));
    }
    let Ok(at_least) = end_value(scope, exact, End::AtLeast, cell) else {
        return Err(CellFault::TooWide);
    };
    let Ok(at_most) = end_value(scope, exact, End::AtMost, cell) else {
        return Err(CellFault::TooWide);
    };
    Ok(CellBounds {
        cell,
        at_least,
        at_most,
    })
}
