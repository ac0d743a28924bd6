//! The values at the cells along some names.

ghost use Rattle.std.specs.Prelude.{◌≡◌, ◌++◌, ◌∷◌, [], All, true, false, Some, Ok, OnOk, IfErr};
ghost use Rattle.prob_expr.specs.Vocabulary.{formula_view};
ghost use Rattle.count_table.specs.Vocabulary.{AreCounts, HasLevels};
ghost use Rattle.count_eval.specs.Vocabulary.{after, cell_of, is_used, weights_in};
ghost use Rattle.factor_values.specs.Vocabulary.{AreEvaluable, factors_outcome, factors_view};
ghost use Rattle.split_values.specs.Vocabulary.{IsSplitEvaluable, split_outcome};
ghost use Rattle.evaluate_command.specs.Vocabulary.{plain_in};
ghost use Rattle.paired_values.specs.Cells.{cells_at, IsAxis, IsNameCell};
ghost use Rattle.paired_values.specs.Readings.{IsOver, paired_view};
ghost use Rattle.paired_values.specs.Values.{IsBelow, MayAnswer, is_wanting, value_by};
ghost use Rattle.paired_values.specs.Walking.{Appends, IsFaultAt};

use crate::axes::Axis;
use crate::fault::PairFault;
use crate::observed::as_observed;
use crate::readings::{PairedEffect, Reading};
use count_eval::{EvalFault, fault_of};
use count_table::Counts;
use differences::Difference;
use evaluate_command::{Valued, push_valued};
use factor_values::Factors;
use prob_expr::Formula;
use quantity::Quantity;
use std::alloc::Global;
use targets::Sets;

/// The value of factors at two cells.
fn factors_at<Q: Quantity>(
    n: u32,
    factors: &Factors,
    counts: &Counts,
    first: &[u32; 64],
    second: &[u32; 64],
) -> Result<Option<Q>, EvalFault>
    requires counts { AreCounts counts.now }
    requires factors { AreEvaluable n counts.now (factors_view factors.now) }
    requires first { HasLevels counts.now (is_used counts.now) first.now }
    requires second { HasLevels counts.now (is_used counts.now) second.now }
    ensures { MayAnswer Q.numbers counts.now
        (after (factors_outcome Q.kind (weights_in n counts.now) (factors_view factors.now) (cell_of first.now) (cell_of second.now)) (λ q. Ok (Some q))) result }
{
    let reading = factor_values::Reading {
        lookup: counts,
        n,
        factors,
        first,
        second,
    };
    match factor_values::value_of::<Q, Counts>(&reading) {
        Ok(quantity) => Ok(Some(quantity)),
        Err(failure) => Err(fault_of(counts.used(), failure)),
    }
}

/// The value at two cells by the two levels of x.
fn split_at<Q: Difference>(
    effect: &PairedEffect<'_>,
    joint: &Formula,
    counts: &Counts,
    first: &[u32; 64],
    second: &[u32; 64],
) -> Result<Option<Q>, EvalFault>
    requires counts { AreCounts counts.now }
    requires joint { IsSplitEvaluable effect.now.n counts.now effect.now.sets.x.bits effect.now.sets.y.bits effect.now.sets.given.bits (formula_view joint.now) }
    requires first { HasLevels counts.now (is_used counts.now) first.now }
    requires second { HasLevels counts.now (is_used counts.now) second.now }
    ensures { MayAnswer Q.numbers counts.now
        (split_outcome Q.kind Q.difference (weights_in effect.now.n counts.now) effect.now.sets.x.bits effect.now.sets.y.bits effect.now.sets.given.bits
        (formula_view joint.now) (cell_of first.now) (cell_of second.now)) result }
{
    let Sets { x, y, given } = effect.sets;
    let reading = split_values::Reading {
        lookup: counts,
        n: effect.n,
        x,
        y,
        given,
        joint,
        first,
        second,
    };
    match split_values::value_of::<Q, Counts>(&reading) {
        Ok(found) => Ok(found),
        Err(failure) => Err(fault_of(counts.used(), failure)),
    }
}

/// The value at a cell: none where it would be below 0.
fn value_at<Q: Difference>(
    effect: &PairedEffect<'_>,
    counts: &Counts,
    cell: &[u32; 64],
) -> Result<Option<Q>, EvalFault>
    requires over { IsOver (paired_view effect.now) counts.now }
    requires cell { IsNameCell effect.now.n effect.now.sets.x.bits counts.now cell.now }
    ensures { MayAnswer Q.numbers counts.now (value_by Q.kind Q.difference (paired_view effect.now) counts.now cell.now) result }
{
    let second = as_observed(effect.n, effect.sets.x, cell);
    match effect.reading {
        Reading::Factors(factors) => factors_at(effect.n, factors, counts, cell, &second),
        Reading::Split(joint) => split_at(effect, joint, counts, cell, &second),
    }
}

/// The fault of a cell at which the value would be below 0.
fn below(alloc: Global, cell: &[u32]) -> PairFault
    ensures { is_wanting result ≡ false → IsBelow cell.now result }
{
    match Vec::from_slice(alloc, cell) {
        Ok(cell) => PairFault::Below { cell },
        Err(_) => PairFault::Stopped(EvalFault::NoMemory),
    }
}

/// Appends a cell with its quantity.
fn push_quantity<Q: Quantity>(
    alloc: Global,
    out: &mut Vec<Valued<Q>>,
    cell: &[u32],
    quantity: Q,
) -> Result<(), PairFault>
    ensures values { OnOk result (plain_in Q.numbers out.new.items ≡ plain_in Q.numbers out.old.items ++ (record { cell = cell.now; quantity = Q.numbers quantity } ∷ [])) }
    ensures fault { IfErr result (λ f. is_wanting f ≡ true) }
{
    match push_valued(alloc, out, cell, quantity) {
        Ok(()) => Ok(()),
        Err(_) => Err(PairFault::Stopped(EvalFault::NoMemory)),
    }
}

/// Appends the value at a cell.
fn push_cell<Q: Difference>(
    alloc: Global,
    out: &mut Vec<Valued<Q>>,
    effect: &PairedEffect<'_>,
    counts: &Counts,
    cell: &[u32; 64],
) -> Result<(), PairFault>
    requires over { IsOver (paired_view effect.now) counts.now }
    requires cell { IsNameCell effect.now.n effect.now.sets.x.bits counts.now cell.now }
    ensures values { OnOk result (Appends Q.kind Q.difference (paired_view effect.now) counts.now (cell.now ∷ []) (plain_in Q.numbers out.old.items)
        (plain_in Q.numbers out.new.items)) }
    ensures fault { IfErr result (λ f. is_wanting f ≡ false → IsFaultAt Q.kind Q.difference (paired_view effect.now) counts.now (cell.now ∷ []) f) }
{
    let found: Option<Q> = match value_at(effect, counts, cell) {
        Ok(found) => found,
        Err(fault) => return Err(PairFault::Stopped(fault)),
    };
    match found {
        Some(quantity) => push_quantity(alloc, out, cell, quantity),
        None => Err(below(alloc, cell)),
    }
}

/// Appends the values at all cells that differ from `cell` at most at these names, those of the first slowest.
pub fn push_cells<Q: Difference>(
    alloc: Global,
    out: &mut Vec<Valued<Q>>,
    effect: &PairedEffect<'_>,
    counts: &Counts,
    axes: &[Axis],
    cell: [u32; 64],
) -> Result<(), PairFault>
    requires over { IsOver (paired_view effect.now) counts.now }
    requires axes { All (IsAxis effect.now.n effect.now.sets.x.bits) axes.now }
    requires cell { IsNameCell effect.now.n effect.now.sets.x.bits counts.now cell }
    ensures values { OnOk result (Appends Q.kind Q.difference (paired_view effect.now) counts.now (cells_at counts.now cell axes.now) (plain_in Q.numbers out.old.items)
        (plain_in Q.numbers out.new.items)) }
    ensures fault { IfErr result (λ f. is_wanting f ≡ false → IsFaultAt Q.kind Q.difference (paired_view effect.now) counts.now (cells_at counts.now cell axes.now) f) }
{
    let [axis, rest @ ..] = axes else {
        return push_cell(alloc, out, effect, counts, &cell);
    };
    let place = axis.name as usize;
    for k in 0..counts.levels(axis.vertex) {
        let mut inner = cell;
        inner[place] = k;
        match push_cells(alloc, out, effect, counts, rest, inner) {
            Ok(()) => {}
            Err(fault) => return Err(fault),
        }
    }
    Ok(())
}
