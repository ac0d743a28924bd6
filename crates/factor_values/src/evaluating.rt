//! The value of a sum of a product of factors at two cells.

ghost use Rattle.std.specs.Prelude.{ℕ, ◌≡◌, ◌≤◌, true, map};
ghost use Rattle.mixed_graph.specs.Vocabulary.{has};
ghost use Rattle.prob_expr.specs.View.{view};
ghost use Rattle.prob_expr.specs.Vocabulary.{formula_view};
ghost use Rattle.quantity.specs.Kinds.{Pair};
ghost use Rattle.count_table.specs.Vocabulary.{AreCounts, HasLevels};
ghost use Rattle.count_eval.specs.Vocabulary.{IsEvaluable, cell_of, formula_value, is_used, plain, weights_in};
ghost use Rattle.count_eval.specs.Programs.{seen, seen_so_far, seen_more};
ghost use Rattle.factor_values.specs.Cells.{cells_from};
ghost use Rattle.factor_values.specs.Code.{factor_view, factors_view, AreEvaluable};
ghost use Rattle.factor_values.specs.Factors.{chance_of};
ghost use Rattle.factor_values.specs.Outcomes.{factor_outcome, product_outcome, sum_outcome, factors_outcome};

use crate::factors::{Factor, Factors};
use crate::steps::{add_more, multiply_more, outcome, read_at, whole};
use count_eval::{Failure, Lookup, Scope, Spot, value_at};
use mixed_graph::VSet;
use prob_expr::Expr;
use quantity::Quantity;

/// What is evaluated: where sums of counts are looked up, the number of vertices, the factors, and the cells of the first
/// levels and of the second.
#[derive(Drop)]
pub struct Reading<'a, L> {
    pub lookup: &'a L,
    pub n: u32,
    pub factors: &'a Factors,
    pub first: &'a [u32; 64],
    pub second: &'a [u32; 64],
}

/// The value of a formula at a cell.
fn formula_at<Q: Quantity, L: Lookup<Q>>(
    lookup: &L,
    n: u32,
    defs: &[Expr],
    main: &Expr,
    cell: [u32; 64],
) -> Result<Q, Failure>
    requires table { AreCounts (L.counts lookup.now) }
    requires formula { IsEvaluable n (L.counts lookup.now) (record { defs = map view defs.now; main = view main.now }) }
    requires none { (k : ℕ) (s : ℕ → ℕ) (p : Pair) → L.holds lookup.now k s p → ⊥ }
    requires levels { HasLevels (L.counts lookup.now) (is_used (L.counts lookup.now)) cell }
    ensures { seen Q.numbers result ≡ formula_value (plain Q.kind) (weights_in n (L.counts lookup.now)) (record { defs = map view defs.now; main = view main.now }) (cell_of cell) }
{
    let scope = Scope {
        lookup,
        n,
        defs,
        zero: false,
    };
    let root = Spot {
        def: None,
        node: 0,
        cell,
    };
    value_at(&scope, main, root)
}

/// The value of a factor.
fn factor_at<Q: Quantity, L: Lookup<Q>>(
    reading: &Reading<L>,
    factor: &Factor,
    cell: &[u32; 64],
) -> Result<Q, Failure>
    requires table { AreCounts (L.counts reading.now.lookup.now) }
    requires factor { IsEvaluable reading.now.n (L.counts reading.now.lookup.now) (formula_view factor.now.formula) }
    requires none { (k : ℕ) (s : ℕ → ℕ) (p : Pair) → L.holds reading.now.lookup.now k s p → ⊥ }
    requires first { HasLevels (L.counts reading.now.lookup.now) (is_used (L.counts reading.now.lookup.now)) cell.now }
    requires second { HasLevels (L.counts reading.now.lookup.now) (is_used (L.counts reading.now.lookup.now)) reading.now.second.now }
    ensures { seen Q.numbers result ≡ factor_outcome Q.kind (weights_in reading.now.n (L.counts reading.now.lookup.now)) (factor_view factor.now) (cell_of cell.now) (cell_of reading.now.second.now) }
{
    let read = read_at(factor.second, cell, reading.second);
    formula_at(
        reading.lookup,
        reading.n,
        &factor.formula.defs,
        &factor.formula.main,
        read,
    )
}

/// The product of the factors.
fn product_at<Q: Quantity, L: Lookup<Q>>(
    reading: &Reading<L>,
    cell: &[u32; 64],
) -> Result<Q, Failure>
    requires table { AreCounts (L.counts reading.now.lookup.now) }
    requires factors { AreEvaluable reading.now.n (L.counts reading.now.lookup.now) (factors_view reading.now.factors.now) }
    requires none { (k : ℕ) (s : ℕ → ℕ) (p : Pair) → L.holds reading.now.lookup.now k s p → ⊥ }
    requires first { HasLevels (L.counts reading.now.lookup.now) (is_used (L.counts reading.now.lookup.now)) cell.now }
    requires second { HasLevels (L.counts reading.now.lookup.now) (is_used (L.counts reading.now.lookup.now)) reading.now.second.now }
    ensures { seen Q.numbers result ≡ product_outcome Q.kind (weights_in reading.now.n (L.counts reading.now.lookup.now)) (map factor_view reading.now.factors.now.factors.items) (cell_of cell.now) (cell_of reading.now.second.now) }
{
    let mut so_far: Option<Q> = None;
    for factor in &reading.factors.factors {
        let q: Q = factor_at(reading, factor, cell)?;
        so_far = multiply_more(so_far, q, cell)?;
    }
    Ok(whole(Q::from_ratio(1, 1), so_far))
}

/// What there is so far, with the product at all cells that differ from `cell` in the summed vertices from v on.
#[cycle(sum)]
fn cells_from<Q: Quantity, L: Lookup<Q>>(
    reading: &Reading<L>,
    v: u8,
    cell: [u32; 64],
    so_far: Option<Q>,
) -> Result<Option<Q>, Failure>
    requires table { AreCounts (L.counts reading.now.lookup.now) }
    requires factors { AreEvaluable reading.now.n (L.counts reading.now.lookup.now) (factors_view reading.now.factors.now) }
    requires none { (k : ℕ) (s : ℕ → ℕ) (p : Pair) → L.holds reading.now.lookup.now k s p → ⊥ }
    requires first { HasLevels (L.counts reading.now.lookup.now) (is_used (L.counts reading.now.lookup.now)) cell }
    requires second { HasLevels (L.counts reading.now.lookup.now) (is_used (L.counts reading.now.lookup.now)) reading.now.second.now }
    requires vertex { v ≤ reading.now.n }
    ensures { seen_more Q.numbers result ≡ cells_from Q.kind (weights_in reading.now.n (L.counts reading.now.lookup.now)) (factors_view reading.now.factors.now) (cell_of reading.now.first.now) (cell_of reading.now.second.now) v cell (seen_so_far Q.numbers so_far) }
{
    if u32::from(v) >= reading.n {
        let q: Q = product_at(reading, &cell)?;
        return add_more(so_far, q, reading.first);
    }
    if !reading.factors.summed.has(v) {
        return cells_from(reading, v + 1, cell, so_far);
    }
    let mut total = so_far;
    for x in 0..reading.lookup.levels(v) {
        let mut inner = cell;
        inner[v as usize] = x;
        match cells_from(reading, v + 1, inner, total) {
            Ok(more) => {
                total = more;
            }
            Err(failure) => {
                return Err(failure);
            }
        }
    }
    Ok(total)
}

/// The product, summed.
fn sum_at<Q: Quantity, L: Lookup<Q>>(reading: &Reading<L>) -> Result<Q, Failure>
    requires table { AreCounts (L.counts reading.now.lookup.now) }
    requires factors { AreEvaluable reading.now.n (L.counts reading.now.lookup.now) (factors_view reading.now.factors.now) }
    requires none { (k : ℕ) (s : ℕ → ℕ) (p : Pair) → L.holds reading.now.lookup.now k s p → ⊥ }
    requires first { HasLevels (L.counts reading.now.lookup.now) (is_used (L.counts reading.now.lookup.now)) reading.now.first.now }
    requires second { HasLevels (L.counts reading.now.lookup.now) (is_used (L.counts reading.now.lookup.now)) reading.now.second.now }
    ensures { seen Q.numbers result ≡ sum_outcome Q.kind (weights_in reading.now.n (L.counts reading.now.lookup.now)) (factors_view reading.now.factors.now) (cell_of reading.now.first.now) (cell_of reading.now.second.now) }
{
    let total: Option<Q> = cells_from(reading, 0, *reading.first, None)?;
    Ok(whole(Q::from_ratio(0, 1), total))
}

/// P(given) at a cell.
fn chance_at<Q: Quantity, L: Lookup<Q>>(
    lookup: &L,
    n: u32,
    given: VSet,
    cell: [u32; 64],
) -> Result<Q, Failure>
    requires few { n ≤ 64 }
    requires table { AreCounts (L.counts lookup.now) }
    requires given { (v : ℕ) → has given.bits v ≡ true → is_used (L.counts lookup.now) v ≡ true }
    requires none { (k : ℕ) (s : ℕ → ℕ) (p : Pair) → L.holds lookup.now k s p → ⊥ }
    requires levels { HasLevels (L.counts lookup.now) (is_used (L.counts lookup.now)) cell }
    ensures { seen Q.numbers result ≡ formula_value (plain Q.kind) (weights_in n (L.counts lookup.now)) (chance_of given.bits) (cell_of cell) }
{
    let chance = Expr::Prob {
        of: given,
        doing: VSet::EMPTY,
        given: VSet::EMPTY,
    };
    let scope = Scope {
        lookup,
        n,
        defs: &[],
        zero: false,
    };
    let root = Spot {
        def: None,
        node: 0,
        cell,
    };
    value_at(&scope, &chance, root)
}

/// The value of a sum of a product of factors over P(given), node by node: of the first operand that has none the failure.
pub fn value_of<Q: Quantity, L: Lookup<Q>>(reading: &Reading<L>) -> Result<Q, Failure>
    requires table { AreCounts (L.counts reading.now.lookup.now) }
    requires factors { AreEvaluable reading.now.n (L.counts reading.now.lookup.now) (factors_view reading.now.factors.now) }
    requires none { (k : ℕ) (s : ℕ → ℕ) (p : Pair) → L.holds reading.now.lookup.now k s p → ⊥ }
    requires first { HasLevels (L.counts reading.now.lookup.now) (is_used (L.counts reading.now.lookup.now)) reading.now.first.now }
    requires second { HasLevels (L.counts reading.now.lookup.now) (is_used (L.counts reading.now.lookup.now)) reading.now.second.now }
    ensures { seen Q.numbers result ≡ factors_outcome Q.kind (weights_in reading.now.n (L.counts reading.now.lookup.now)) (factors_view reading.now.factors.now) (cell_of reading.now.first.now) (cell_of reading.now.second.now) }
{
    let a: Q = sum_at(reading)?;
    let b: Q = chance_at(
        reading.lookup,
        reading.n,
        reading.factors.given,
        *reading.first,
    )?;
    outcome(a.div(&b), 0, reading.first)
}
