//! The bounds of the strata, summed.

ghost use Rattle.std.specs.Prelude.{ℕ, ◌≡◌, ◌≤◌, IfOk};
ghost use Rattle.mixed_graph.specs.Vocabulary.{Apart, has};
ghost use Rattle.quantity.specs.Vocabulary.{gives};
ghost use Rattle.count_table.specs.Vocabulary.{HasLevels};
ghost use Rattle.count_eval.specs.Vocabulary.{weights_in, is_used, cell_of};
ghost use Rattle.natural_bounds.specs.Vocabulary.{condition};
ghost use Rattle.bound_values.specs.Questions.{asked_of, IsScope};
ghost use Rattle.bound_values.specs.Values.{term_value, total_over, bound_value, BoundsInModels};

use crate::cells::{bound_by, vertex_count};
use crate::questions::Scope;
use crate::wide::OfRatio;
use natural_bounds::End;
use quantity::QuantityFault;

/// A stratum's share of the condition, times its bound.
fn term<Q: OfRatio>(scope: &Scope, end: End, cell: [u32; 64]) -> Result<Q, QuantityFault>
    requires scope { IsScope scope.now.n scope.now.counts.now scope.now.question.method (asked_of scope.now.question) scope.now.sums.now }
    requires levels { HasLevels scope.now.counts.now (is_used scope.now.counts.now) cell }
    requires some { 1 ≤ condition (weights_in scope.now.n scope.now.counts.now) (asked_of scope.now.question) (cell_of cell) }
    ensures { gives Q.numbers result ≡ term_value Q.kind scope.now.question.method end (weights_in scope.now.n scope.now.counts.now)
        (asked_of scope.now.question) (cell_of cell) }
{
    let question = scope.question;
    let stratum = scope.sums.sum(question.fixed(), &cell);
    let condition = scope.sums.sum(question.given, &cell);
    let share = Q::from_ratio(stratum, condition);
    let bound = bound_by(scope, end, cell);
    share.mul(&Q::of_ratio(bound))
}

/// The sum over the strata that differ from the cell's below v.
fn strata_below<Q: OfRatio>(
    scope: &Scope,
    end: End,
    v: u8,
    cell: [u32; 64],
) -> Result<Q, QuantityFault>
    requires scope { IsScope scope.now.n scope.now.counts.now scope.now.question.method (asked_of scope.now.question) scope.now.sums.now }
    requires levels { HasLevels scope.now.counts.now (is_used scope.now.counts.now) cell }
    requires some { 1 ≤ condition (weights_in scope.now.n scope.now.counts.now) (asked_of scope.now.question) (cell_of cell) }
    requires apart { Apart (has scope.now.question.given.bits) (has scope.now.question.strata.bits) }
    requires vertex { v ≤ 64 }
    ensures { gives Q.numbers result ≡ total_over Q.kind (has scope.now.question.strata.bits) (weights_in scope.now.n scope.now.counts.now).size v
        (term_value Q.kind scope.now.question.method end (weights_in scope.now.n scope.now.counts.now) (asked_of scope.now.question)) (cell_of cell) }
{
    if v == 0 {
        return term(scope, end, cell);
    }
    let u = v - 1;
    if !scope.question.strata.has(u) {
        return strata_below(scope, end, u, cell);
    }
    let mut total = Q::from_ratio(0, 1);
    for x in 0..scope.counts.levels(u) {
        let mut inner = cell;
        inner[u as usize] = x;
        let more: Q = match strata_below(scope, end, u, inner) {
            Ok(more) => more,
            Err(fault) => return Err(fault),
        };
        total = match total.add(&more) {
            Ok(sum) => sum,
            Err(fault) => return Err(fault),
        };
    }
    Ok(total)
}

/// What the effect at a cell is at least, or at most, by the records of a table of counts.
///
/// The entries of the cell are the numbers of levels, one for each vertex; those of vertices that aren't asked of don't count. The condition
/// has to have records at the cell. `TooWide`: a number would be over 2^127 - 1.
pub fn effect_bound<Q: OfRatio>(
    scope: &Scope,
    end: End,
    cell: [u32; 64],
) -> Result<Q, QuantityFault>
    requires scope { IsScope scope.now.n scope.now.counts.now scope.now.question.method (asked_of scope.now.question) scope.now.sums.now }
    requires levels { HasLevels scope.now.counts.now (is_used scope.now.counts.now) cell }
    requires some { 1 ≤ condition (weights_in scope.now.n scope.now.counts.now) (asked_of scope.now.question) (cell_of cell) }
    requires apart { Apart (has scope.now.question.given.bits) (has scope.now.question.strata.bits) }
    ensures value { gives Q.numbers result ≡ bound_value Q.kind scope.now.question.method end (weights_in scope.now.n scope.now.counts.now)
        (asked_of scope.now.question) (cell_of cell) }
    ensures effect { IfOk result (λ q. BoundsInModels Q.covers scope.now.question.method end scope.now.n scope.now.counts.now
        (asked_of scope.now.question) (cell_of cell) (Q.numbers q)) }
{
    // The clauses `effect` are needed: what the bounds of each method say of models.
    natural_bounds::laws();
    crossed_bounds::laws();
    adjusted_bounds::laws();
    strata_below(scope, end, vertex_count(scope), cell)
}
