//! The method that is used over a table.

ghost use Rattle.std.specs.Prelude.{ℕ, ◌≡◌, ◌≤◌, IsTrue, IfOk};
ghost use Rattle.mixed_graph.specs.Vocabulary.{has, members_below};
ghost use Rattle.crossed_bounds.specs.Vocabulary.{IsTwoValued};
ghost use Rattle.count_eval.specs.Vocabulary.{weights_in};
ghost use Rattle.bound_values.specs.Questions.{asked_of, is_two_valued, pair_steps, has_pairs, HasPairs};
ghost use Rattle.bound_values.specs.Values.{method_over};

use crate::questions::{Method, Question};
use count_table::Counts;
use count_table::sum_tables::Places;
use mixed_graph::VSet;
use std::alloc::{AllocError, Global};

/// Whether a set is one vertex, with two levels.
fn is_two_valued(counts: &Counts, x: VSet) -> bool
    ensures value { result ≡ is_two_valued counts.now (members_below (has x.bits) 64) }
    ensures two_valued { (n : ℕ) → IsTrue result → IsTwoValued (weights_in n counts.now) (has x.bits) }
{
    x.count() == 1 && counts.levels(x.lowest()) == 2
}

/// What bounds by pairs of levels cost: for each cell of what is asked of, the levels of the instruments and the values of y.
fn pair_steps(alloc: Global, counts: &Counts, question: Question) -> Result<usize, AllocError>
    ensures { IfOk result (λ steps. steps ≡ pair_steps counts.now question) }
{
    let levels = Places::of(alloc, counts, question.instruments)?.count();
    let values = Places::of(alloc, counts, question.y)?.count();
    let cells = Places::of(alloc, counts, question.joint())?.count();
    Ok(levels * values * cells)
}

/// The most steps that bounds by pairs of levels may cost.
const MOST_STEPS: usize = 1_048_576;

/// Whether pairs of levels are used.
fn has_pairs(alloc: Global, counts: &Counts, question: Question) -> Result<bool, AllocError>
    ensures value { IfOk result (λ has. has ≡ has_pairs counts.now question) }
    ensures pairs { IfOk result (λ has. (n : ℕ) → IsTrue has → HasPairs n counts.now (asked_of question)) }
{
    let effect = question.x.union(question.y);
    if question.instruments.is_empty()
        || !effect.is_apart(question.level())
        || !is_two_valued(counts, question.x)
    {
        return Ok(false);
    }
    Ok(pair_steps(alloc, counts, question)? <= MOST_STEPS)
}

/// The method over a table: pairs of levels in place of levels, where they are used.
pub fn method_over(alloc: Global, counts: &Counts, question: Question) -> Result<Method, AllocError>
    ensures value { IfOk result (λ method. method ≡ method_over counts.now question) }
    ensures pairs { IfOk result (λ method. (n : ℕ) → method ≡ Method.LevelPairs → HasPairs n counts.now (asked_of question)) }
{
    match question.method {
        Method::Adjustment => Ok(Method::Adjustment),
        Method::Instruments | Method::LevelPairs => {
            if has_pairs(alloc, counts, question)? {
                Ok(Method::LevelPairs)
            } else {
                Ok(Method::Instruments)
            }
        }
    }
}
