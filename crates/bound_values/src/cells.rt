//! The bound of a stratum.

ghost use Rattle.std.specs.Prelude.{ℕ, ◌≡◌, ◌≤◌};
ghost use Rattle.mixed_graph.specs.Vocabulary.{has};
ghost use Rattle.count_table.specs.Vocabulary.{HasLevels};
ghost use Rattle.count_eval.specs.Vocabulary.{weights_in, is_used, cell_of};
ghost use Rattle.natural_bounds.specs.declared.ends.End.TheVariants.{AtLeast, AtMost};
ghost use Rattle.natural_bounds.specs.Vocabulary.{level, said, bound_at, stratum_bound, tightest_over};
ghost use Rattle.adjusted_bounds.specs.Vocabulary.{adjusted_at};
ghost use Rattle.bound_values.specs.Questions.{asked_of, IsScope};
ghost use Rattle.bound_values.specs.Values.{fraction_of, bound_by};

use crate::pairs::paired_bound;
use crate::questions::{Method, Scope};
use crate::ratios::Ratio;
use natural_bounds::End;

/// What the records of a level say that the effect is at least: P(x, y | z, w).
fn least_bound(scope: &Scope, cell: &[u32; 64], records: u64) -> Ratio
    requires scope { IsScope scope.now.n scope.now.counts.now scope.now.question.method (asked_of scope.now.question) scope.now.sums.now }
    requires levels { HasLevels scope.now.counts.now (is_used scope.now.counts.now) cell.now }
    requires records { records ≡ level (weights_in scope.now.n scope.now.counts.now) (asked_of scope.now.question) (cell_of cell.now) }
    requires some { 1 ≤ records }
    ensures { fraction_of result ≡ said AtLeast (weights_in scope.now.n scope.now.counts.now) (asked_of scope.now.question) (cell_of cell.now) }
{
    let joint = scope.sums.sum(scope.question.joint(), cell);
    Ratio {
        top: joint as u128,
        bottom: records as u128,
    }
}

/// What they say that it is at most: P(x, y | z, w) + 1 - P(x | z, w).
fn most_bound(scope: &Scope, cell: &[u32; 64], records: u64) -> Ratio
    requires scope { IsScope scope.now.n scope.now.counts.now scope.now.question.method (asked_of scope.now.question) scope.now.sums.now }
    requires levels { HasLevels scope.now.counts.now (is_used scope.now.counts.now) cell.now }
    requires records { records ≡ level (weights_in scope.now.n scope.now.counts.now) (asked_of scope.now.question) (cell_of cell.now) }
    requires some { 1 ≤ records }
    ensures { fraction_of result ≡ said AtMost (weights_in scope.now.n scope.now.counts.now) (asked_of scope.now.question) (cell_of cell.now) }
{
    let joint = scope.sums.sum(scope.question.joint(), cell);
    let treated = scope.sums.sum(scope.question.treated(), cell);
    Ratio {
        top: (joint + (records - treated)) as u128,
        bottom: records as u128,
    }
}

/// What the level of the instruments in a cell says of the effect in the cell's stratum.
fn level_bound(scope: &Scope, end: End, cell: &[u32; 64]) -> Ratio
    requires scope { IsScope scope.now.n scope.now.counts.now scope.now.question.method (asked_of scope.now.question) scope.now.sums.now }
    requires levels { HasLevels scope.now.counts.now (is_used scope.now.counts.now) cell.now }
    ensures { fraction_of result ≡ bound_at end (weights_in scope.now.n scope.now.counts.now) (asked_of scope.now.question) (cell_of cell.now) }
{
    let records = scope.sums.sum(scope.question.level(), cell);
    if records == 0 {
        return Ratio::trivial(end);
    }
    match end {
        End::AtLeast => least_bound(scope, cell, records),
        End::AtMost => most_bound(scope, cell, records),
    }
}

/// The tightest of what the levels of the instruments below v say.
fn tightest(scope: &Scope, end: End, v: u8, cell: [u32; 64]) -> Ratio
    requires scope { IsScope scope.now.n scope.now.counts.now scope.now.question.method (asked_of scope.now.question) scope.now.sums.now }
    requires levels { HasLevels scope.now.counts.now (is_used scope.now.counts.now) cell }
    requires vertex { v ≤ 64 }
    ensures { fraction_of result ≡ tightest_over end (has scope.now.question.instruments.bits) (weights_in scope.now.n scope.now.counts.now).size v
        (bound_at end (weights_in scope.now.n scope.now.counts.now) (asked_of scope.now.question)) (cell_of cell) }
{
    if v == 0 {
        return level_bound(scope, end, &cell);
    }
    let u = v - 1;
    if !scope.question.instruments.has(u) {
        return tightest(scope, end, u, cell);
    }
    let mut best = Ratio::trivial(end);
    for x in 0..scope.counts.levels(u) {
        let mut inner = cell;
        inner[u as usize] = x;
        best = best.tighter(end, tightest(scope, end, u, inner));
    }
    best
}

/// The number of vertices, which is at most 64.
pub fn vertex_count(scope: &Scope) -> u8
    requires { scope.now.n ≤ 64 }
    ensures { result ≡ scope.now.n }
{
    scope.n as u8
}

/// The bound of the stratum of a cell: the tightest over the levels of the instruments.
pub fn stratum_bound(scope: &Scope, end: End, cell: [u32; 64]) -> Ratio
    requires scope { IsScope scope.now.n scope.now.counts.now scope.now.question.method (asked_of scope.now.question) scope.now.sums.now }
    requires levels { HasLevels scope.now.counts.now (is_used scope.now.counts.now) cell }
    ensures { fraction_of result ≡ stratum_bound end (weights_in scope.now.n scope.now.counts.now) (asked_of scope.now.question) (cell_of cell) }
{
    tightest(scope, end, vertex_count(scope), cell)
}

/// What the records of the arm say of the effect in the stratum of a cell.
fn adjusted_bound(scope: &Scope, end: End, cell: &[u32; 64]) -> Ratio
    requires scope { IsScope scope.now.n scope.now.counts.now scope.now.question.method (asked_of scope.now.question) scope.now.sums.now }
    requires levels { HasLevels scope.now.counts.now (is_used scope.now.counts.now) cell.now }
    ensures { fraction_of result ≡ adjusted_at end (weights_in scope.now.n scope.now.counts.now) (asked_of scope.now.question) (cell_of cell.now) }
{
    let question = scope.question;
    let treated = scope.sums.sum(question.treated(), cell);
    if treated == 0 {
        return Ratio::trivial(end);
    }
    Ratio {
        top: scope.sums.sum(question.joint(), cell) as u128,
        bottom: treated as u128,
    }
}

/// The bound of the stratum of a cell, by the question's method.
pub fn bound_by(scope: &Scope, end: End, cell: [u32; 64]) -> Ratio
    requires scope { IsScope scope.now.n scope.now.counts.now scope.now.question.method (asked_of scope.now.question) scope.now.sums.now }
    requires levels { HasLevels scope.now.counts.now (is_used scope.now.counts.now) cell }
    ensures { fraction_of result ≡ bound_by scope.now.question.method end (weights_in scope.now.n scope.now.counts.now) (asked_of scope.now.question) (cell_of cell) }
{
    match scope.question.method {
        Method::Instruments => stratum_bound(scope, end, cell),
        Method::LevelPairs => paired_bound(scope, end, cell),
        Method::Adjustment => adjusted_bound(scope, end, &cell),
    }
}
