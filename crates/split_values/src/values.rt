//! The value of an effect among the treated whose treatment has two levels.

ghost use Rattle.std.specs.Prelude.{ℕ, ◌≡◌, ◌≤◌, true};
ghost use Rattle.mixed_graph.specs.Vocabulary.{has};
ghost use Rattle.prob_expr.specs.Vocabulary.{formula_view};
ghost use Rattle.quantity.specs.Kinds.{Pair};
ghost use Rattle.count_table.specs.Vocabulary.{AreCounts, HasLevels};
ghost use Rattle.count_eval.specs.Vocabulary.{cell_of, formula_value, is_used, plain, weights_in};
ghost use Rattle.count_eval.specs.Programs.{seen, seen_more};
ghost use Rattle.split_values.specs.Code.{IsSplitEvaluable};
ghost use Rattle.split_values.specs.Values.{share_of};
ghost use Rattle.split_values.specs.Outcomes.{left_outcome, others_outcome, same_outcome, split_outcome};

use crate::steps::{is_same, left_over, share};
use count_eval::{Failure, Lookup, Scope, Spot, value_at};
use differences::Difference;
use mixed_graph::VSet;
use prob_expr::{Expr, Formula};

/// What is evaluated: where sums of counts are looked up, the number of vertices, the treatment, the outcome and what is
/// given, the formula of the joint effect of x on y and on what is given, and the cells of the levels that are set and of
/// those that were observed.
#[derive(Drop)]
pub struct Reading<'a, L> {
    pub lookup: &'a L,
    pub n: u32,
    pub x: VSet,
    pub y: VSet,
    pub given: VSet,
    pub joint: &'a Formula,
    pub first: &'a [u32; 64],
    pub second: &'a [u32; 64],
}

/// The value of the joint effect's formula at the levels that are set.
fn joint_at<Q: Difference, L: Lookup<Q>>(reading: &Reading<L>) -> Result<Q, Failure>
    requires table { AreCounts (L.counts reading.now.lookup.now) }
    requires effect { IsSplitEvaluable reading.now.n (L.counts reading.now.lookup.now) reading.now.x.bits reading.now.y.bits reading.now.given.bits (formula_view reading.now.joint.now) }
    requires none { (k : ℕ) (s : ℕ → ℕ) (p : Pair) → L.holds reading.now.lookup.now k s p → ⊥ }
    requires first { HasLevels (L.counts reading.now.lookup.now) (is_used (L.counts reading.now.lookup.now)) reading.now.first.now }
    ensures { seen Q.numbers result ≡ formula_value (plain Q.kind) (weights_in reading.now.n (L.counts reading.now.lookup.now)) (formula_view reading.now.joint.now) (cell_of reading.now.first.now) }
{
    let scope = Scope {
        lookup: reading.lookup,
        n: reading.n,
        defs: &reading.joint.defs,
        zero: false,
    };
    let root = Spot {
        def: None,
        node: 0,
        cell: *reading.first,
    };
    value_at(&scope, &reading.joint.main, root)
}

/// P(of | given) at a cell.
fn share_at<Q: Difference, L: Lookup<Q>>(
    lookup: &L,
    n: u32,
    of: VSet,
    given: VSet,
    cell: [u32; 64],
) -> Result<Q, Failure>
    requires few { n ≤ 64 }
    requires table { AreCounts (L.counts lookup.now) }
    requires of { (v : ℕ) → has of.bits v ≡ true → is_used (L.counts lookup.now) v ≡ true }
    requires given { (v : ℕ) → has given.bits v ≡ true → is_used (L.counts lookup.now) v ≡ true }
    requires none { (k : ℕ) (s : ℕ → ℕ) (p : Pair) → L.holds lookup.now k s p → ⊥ }
    requires levels { HasLevels (L.counts lookup.now) (is_used (L.counts lookup.now)) cell }
    ensures { seen Q.numbers result ≡ formula_value (plain Q.kind) (weights_in n (L.counts lookup.now)) (share_of of.bits given.bits) (cell_of cell) }
{
    let term = Expr::Prob {
        of,
        doing: VSet::EMPTY,
        given,
    };
    let scope = Scope {
        lookup,
        n,
        defs: &[],
        zero: false,
    };
    let root = Spot {
        def: None,
        node: 0,
        cell,
    };
    value_at(&scope, &term, root)
}

/// The value where x was observed at the levels that are set: P(y | x, given).
fn same_at<Q: Difference, L: Lookup<Q>>(reading: &Reading<L>) -> Result<Option<Q>, Failure>
    requires table { AreCounts (L.counts reading.now.lookup.now) }
    requires effect { IsSplitEvaluable reading.now.n (L.counts reading.now.lookup.now) reading.now.x.bits reading.now.y.bits reading.now.given.bits (formula_view reading.now.joint.now) }
    requires none { (k : ℕ) (s : ℕ → ℕ) (p : Pair) → L.holds reading.now.lookup.now k s p → ⊥ }
    requires first { HasLevels (L.counts reading.now.lookup.now) (is_used (L.counts reading.now.lookup.now)) reading.now.first.now }
    ensures { seen_more Q.numbers result ≡ same_outcome Q.kind (weights_in reading.now.n (L.counts reading.now.lookup.now)) reading.now.x.bits reading.now.y.bits reading.now.given.bits (cell_of reading.now.first.now) }
{
    let given = reading.x.union(reading.given);
    let q: Q = share_at(reading.lookup, reading.n, reading.y, given, *reading.first)?;
    Ok(Some(q))
}

/// What is left of the joint effect without those who have the levels that are set: none where that is below 0.
fn left_at<Q: Difference, L: Lookup<Q>>(reading: &Reading<L>) -> Result<Option<Q>, Failure>
    requires table { AreCounts (L.counts reading.now.lookup.now) }
    requires effect { IsSplitEvaluable reading.now.n (L.counts reading.now.lookup.now) reading.now.x.bits reading.now.y.bits reading.now.given.bits (formula_view reading.now.joint.now) }
    requires none { (k : ℕ) (s : ℕ → ℕ) (p : Pair) → L.holds reading.now.lookup.now k s p → ⊥ }
    requires first { HasLevels (L.counts reading.now.lookup.now) (is_used (L.counts reading.now.lookup.now)) reading.now.first.now }
    ensures { seen_more Q.numbers result ≡ left_outcome Q.kind Q.difference (weights_in reading.now.n (L.counts reading.now.lookup.now)) reading.now.x.bits reading.now.y.bits reading.now.given.bits (formula_view reading.now.joint.now) (cell_of reading.now.first.now) }
{
    let joint: Q = joint_at(reading)?;
    let all = reading.x.union(reading.y).union(reading.given);
    let shown: Q = share_at(reading.lookup, reading.n, all, VSet::EMPTY, *reading.first)?;
    left_over(joint.subtract(&shown), reading.first)
}

/// The share of what is left among those who have the other level.
fn others_at<Q: Difference, L: Lookup<Q>>(
    reading: &Reading<L>,
    left: Q,
) -> Result<Option<Q>, Failure>
    requires table { AreCounts (L.counts reading.now.lookup.now) }
    requires effect { IsSplitEvaluable reading.now.n (L.counts reading.now.lookup.now) reading.now.x.bits reading.now.y.bits reading.now.given.bits (formula_view reading.now.joint.now) }
    requires none { (k : ℕ) (s : ℕ → ℕ) (p : Pair) → L.holds reading.now.lookup.now k s p → ⊥ }
    requires second { HasLevels (L.counts reading.now.lookup.now) (is_used (L.counts reading.now.lookup.now)) reading.now.second.now }
    ensures { seen_more Q.numbers result ≡ others_outcome Q.kind (weights_in reading.now.n (L.counts reading.now.lookup.now)) reading.now.x.bits reading.now.given.bits (cell_of reading.now.first.now) (cell_of reading.now.second.now) (Q.numbers left) }
{
    let others: Q = share_at(
        reading.lookup,
        reading.n,
        reading.x.union(reading.given),
        VSet::EMPTY,
        *reading.second,
    )?;
    share(left.div(&others), reading.second)
}

/// The value of P(y under do(x) at the first levels | x, given at the second), for an x of one vertex with two levels:
/// P(y | x, given) where both are the same, else what the joint effect leaves to those who have the other level. It is none
/// where that would be below 0, and of the first operand that has no value the failure.
pub fn value_of<Q: Difference, L: Lookup<Q>>(reading: &Reading<L>) -> Result<Option<Q>, Failure>
    requires table { AreCounts (L.counts reading.now.lookup.now) }
    requires effect { IsSplitEvaluable reading.now.n (L.counts reading.now.lookup.now) reading.now.x.bits reading.now.y.bits reading.now.given.bits (formula_view reading.now.joint.now) }
    requires none { (k : ℕ) (s : ℕ → ℕ) (p : Pair) → L.holds reading.now.lookup.now k s p → ⊥ }
    requires first { HasLevels (L.counts reading.now.lookup.now) (is_used (L.counts reading.now.lookup.now)) reading.now.first.now }
    requires second { HasLevels (L.counts reading.now.lookup.now) (is_used (L.counts reading.now.lookup.now)) reading.now.second.now }
    ensures value { seen_more Q.numbers result ≡ split_outcome Q.kind Q.difference (weights_in reading.now.n (L.counts reading.now.lookup.now)) reading.now.x.bits reading.now.y.bits reading.now.given.bits (formula_view reading.now.joint.now)
        (cell_of reading.now.first.now) (cell_of reading.now.second.now) }
{
    if is_same(reading.n, reading.x, reading.first, reading.second) {
        return same_at(reading);
    }
    match left_at(reading) {
        Ok(Some(left)) => others_at(reading, left),
        Ok(None) => Ok(None),
        Err(failure) => Err(failure),
    }
}
