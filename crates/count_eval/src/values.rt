//! The value of a formula at a cell, by any lookup.

ghost use Rattle.std.specs.Prelude.{ℕ, ◌≡◌, ◌≢◌, ◌<◌, ◌≤◌, length, IfOk, IfErr, false, slice_index, if◌then◌else◌};
ghost use Rattle.mixed_graph.specs.Vocabulary.{has, members_below};
ghost use Rattle.prob_expr.specs.Vocabulary.{formula_view};
ghost use Rattle.count_table.specs.Vocabulary.{AreCounts, HasLevels};
ghost use Rattle.count_eval.specs.Evaluated.{formula_value};
ghost use Rattle.count_eval.specs.Rules.{rule};
ghost use Rattle.count_eval.specs.Programs.{weights_in, is_used, cell_of, stop_of, AreValues};
ghost use Rattle.count_eval.specs.Answers.{IsEvaluable, IsEvaluationFault, Answers, CoversCounts, CoversWithZeros, CoversMatches, DeniesMatches};

use crate::eval::{Scope, value_at};
use crate::failure::{EvalFault, Failure};
use crate::lookup::Lookup;
use crate::spot::Spot;
use count_table::Counts;
use mixed_graph::VSet;
use prob_expr::{Formula, Place};
use quantity::{Quantity, QuantityFault};

/// The numbers of a cell as an array, with 0 for the vertices behind them.
fn array_of(at: &[u32]) -> [u32; 64]
    requires { length at.now ≤ 64 }
    ensures { (v : ℕ) → slice_index result v ≡ slice_index at.now v }
{
    let mut cell = [0; 64];
    for v in 0..at.len() {
        cell[v] = at[v];
    }
    cell
}

/// The cell, with 0 for each vertex outside the set.
fn cell_within(used: VSet, cell: [u32; 64]) -> [u32; 64]
    ensures { (v : ℕ) → v < 64 → slice_index result v ≡ (if has used.bits v then slice_index cell v else 0) }
{
    let mut within = [0; 64];
    for v in 0..64u8 {
        if used.has(v) {
            within[v as usize] = cell[v as usize];
        }
    }
    within
}

/// The fault that a failure is, over a table whose used vertices these are.
pub fn fault_of(used: VSet, failure: Failure) -> EvalFault
    ensures { IsEvaluationFault (has used.bits) result (stop_of failure) }
{
    let place = Place {
        def: failure.at.def,
        node: failure.at.node,
    };
    match failure.why {
        QuantityFault::ZeroBelow => EvalFault::NoSupport {
            cell: cell_within(used, failure.at.cell),
            place,
        },
        QuantityFault::TooWide => EvalFault::TooWide { place },
        QuantityFault::TooFine => EvalFault::TooFine { place },
    }
}

/// The value of a formula at a cell, as `value_by_nodes` gives it, by what a lookup has at hand. For crates that prepare lookups.
pub fn value_by<Q: Quantity, L: Lookup<Q>>(
    lookup: &L,
    n: u32,
    f: &Formula,
    used: VSet,
    zero: bool,
    at: &[u32],
) -> Result<Q, EvalFault>
    requires formula { IsEvaluable n (L.counts lookup.now) (formula_view f.now) }
    requires table { AreCounts (L.counts lookup.now) }
    requires used { members_below (has used.bits) 64 ≡ (L.counts lookup.now).vertices }
    requires held { AreValues (rule Q.kind zero) (weights_in n (L.counts lookup.now)) (formula_view f.now).defs (L.holds lookup.now) }
    requires entries { length at.now ≡ n }
    requires levels { HasLevels (L.counts lookup.now) (is_used (L.counts lookup.now)) at.now }
    ensures value { Answers Q.numbers (L.counts lookup.now) (formula_value (rule Q.kind zero) (weights_in n (L.counts lookup.now)) (formula_view f.now) (cell_of at.now)) result }
    ensures counts { zero ≡ false → IfOk result (λ q. CoversCounts Q.covers n (L.counts lookup.now) (formula_view f.now) (cell_of at.now) (Q.numbers q)) }
    ensures zeros { IfOk result (λ q. CoversWithZeros Q.covers n (L.counts lookup.now) (formula_view f.now) (cell_of at.now) (Q.numbers q)) }
    ensures matches { IfOk result (λ q. CoversMatches Q.covers n (L.counts lookup.now) (formula_view f.now) (cell_of at.now) (Q.numbers q)) }
    ensures support { IfErr result (DeniesMatches n (L.counts lookup.now) (cell_of at.now)) }
    ensures memory { IfErr result (λ e. e ≢ EvalFault.NoMemory) }
{
    let scope = Scope {
        lookup,
        n,
        defs: &f.defs,
        zero,
    };
    let root = Spot {
        def: None,
        node: 0,
        cell: array_of(at),
    };
    match value_at(&scope, &f.main, root) {
        Ok(q) => Ok(q),
        Err(failure) => Err(fault_of(used, failure)),
    }
}

/// The value of a formula on n vertices at a cell, over a table of counts, node by node and without tables: what it gives
/// covers the true value. It takes no memory.
///
/// The entries of the cell are the numbers of levels, one for each vertex; those of vertices that aren't used
/// don't count. Each definition is evaluated at each of its uses. The fault is that of the first node, in the
/// order of evaluation, that has no value: `NoSupport` where a denominator is 0, `TooWide` where a number of the
/// result would be over 2^127 - 1, `TooFine` where only a divisor's lower bound is 0. Where a
/// positive model matches the counts, it isn't `NoSupport`.
///
/// With `zero` a product with a factor 0 is 0 whatever its other factors are, also where these have no value. Where a positive
/// model matches the counts no factor is 0, and this changes nothing.
pub fn value_by_nodes<Q: Quantity>(
    n: u32,
    f: &Formula,
    c: &Counts,
    zero: bool,
    at: &[u32],
) -> Result<Q, EvalFault>
    requires formula { IsEvaluable n c.now (formula_view f.now) }
    requires entries { length at.now ≡ n }
    requires levels { HasLevels c.now (is_used c.now) at.now }
    ensures value { Answers Q.numbers c.now (formula_value (rule Q.kind zero) (weights_in n c.now) (formula_view f.now) (cell_of at.now)) result }
    ensures counts { zero ≡ false → IfOk result (λ q. CoversCounts Q.covers n c.now (formula_view f.now) (cell_of at.now) (Q.numbers q)) }
    ensures zeros { IfOk result (λ q. CoversWithZeros Q.covers n c.now (formula_view f.now) (cell_of at.now) (Q.numbers q)) }
    ensures matches { IfOk result (λ q. CoversMatches Q.covers n c.now (formula_view f.now) (cell_of at.now) (Q.numbers q)) }
    ensures support { IfErr result (DeniesMatches n c.now (cell_of at.now)) }
    ensures memory { IfErr result (λ e. e ≢ EvalFault.NoMemory) }
{
    value_by(c, n, f, c.used(), zero, at)
}
